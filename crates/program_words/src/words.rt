ghost use Rattle.std.specs.Prelude.{◌≡◌, ◌≢◌, ◌↔◌, ◌<◌, ◌≤◌, ◌^◌, false, ℕ, ℤ, IsTrue, map, length, None, Some, MatchOption, string_bytes};
ghost use Rattle.std.specs.Prelude.{slice_get, IfOk, IfErr, IfSome, IfNone, codes};
ghost use Rattle.std.specs.Fmt.{decimal, signed_decimal};
ghost use Rattle.chart_grid.specs.Limits.{IsSide, IsWindow};
ghost use Rattle.series_book.specs.Names.{is_name};
ghost use Rattle.whole_number.specs.Range.{IsTime};
ghost use Rattle.program_words.specs.CommandLine.{plain_words, has_flag};
ghost use Rattle.program_words.specs.Words.{Spells, IsEvery, IsWrongAt, IsWrongBy, IsWrongExport, IsSingle, EndsWords, HasNoName};
ghost use Rattle.program_words.specs.Words.{HasNoSeed, word_of, placed};
ghost use Rattle.program_words.specs.declared.words.Command.{Command};

use crate::errors::WordsError;
use crate::reading::read_words;
use series_book::{Name, NameError};
use series_export::Window;
use std::alloc::Global;
use whole_number::limits::GREATEST_TIME;
use whole_number::{integer, natural};

/// What the words of the command line ask for.
#[derive(Drop)]
pub enum Command {
    /// A picture of the input's numbers, `w` columns wide and `h` rows high, each 1 to 4,096.
    Plot { w: u16, h: u16 },
    /// The input's rows, stored in the series of this name.
    Load { name: Name },
    /// A workload that a number makes, of so many rounds, 1 to 4,096.
    Demo { seed: u64, count: u16 },
    /// The texts and pictures that answer the input's lines, over the store.
    Run,
    /// The frames that answer the input's lines, over the store.
    Serve,
    /// The pictures of the input's frames.
    Draw,
    /// An empty store on the disk.
    Init,
    /// What the store holds, counted.
    Check,
    /// A line for each series of the store.
    ListSeries,
    /// The stored values of the series of this name, or those in a window of times, as lines that a load reads.
    Export { name: Name, window: Option<Window> },
    /// The answers to the input's lines, each a rule by which old slots of the store are dropped.
    Retain,
    /// The pictures of the input's frames, and before that of a view its covers, each after so many coefficients more, 1 to 131,072.
    Cover { every: u32 },
    /// The frames that answer the input's lines over the store, and those that edits push to sessions that follow them.
    Live,
    /// The same, where edits that stand ready are done together, and pushed once behind that.
    Host,
    /// The pictures that the input's lines ask for, each of a sum of two series of the store.
    Derive,
}

/// Why the words aren't taken for a command.
#[derive(Clone, Copy)]
pub enum WordsEnd {
    /// They aren't one: the index of the first wrong word among the command and its operands, and their
    /// number where one is missing.
    Wrong { place: u64 },
    NoMemory,
}

/// The command that the words ask for.
///
/// They are read by `clap`, which leaves out the first `--`. Words that it refuses are wrong at 0.
pub fn command_of(alloc: Global, words: &[String]) -> Result<Command, WordsEnd>
    ensures command { IfOk result (λ command. Spells command (plain_words (map string_bytes words.now))) }
    ensures plain { IfOk result (λ command. has_flag (map string_bytes words.now) ≡ false) }
    ensures wrong { IfErr result (λ end. EndsWords end (map string_bytes words.now)) }
{
    let read = match read_words(alloc, words) {
        Ok(read) => read,
        Err(WordsError::Refused) => return Err(WordsEnd::Wrong { place: 0 }),
        Err(WordsError::NoMemory) => return Err(WordsEnd::NoMemory),
    };
    spelled_by(alloc, read.as_slice())
}

/// The command that the words spell, or the place of the first wrong word: the number of words, where
/// one is missing.
fn spelled_by(alloc: Global, words: &[&str]) -> Result<Command, WordsEnd>
    ensures command { IfOk result (λ command. Spells command (map (λ word. word.now) words.now)) }
    ensures wrong { IfErr result (λ end. IsWrongBy end (map (λ word. word.now) words.now)) }
{
    if is_word(words, 0, "plot") {
        return placed(plot_of(words));
    }
    if is_word(words, 0, "load") {
        return load_of(alloc, words);
    }
    if is_word(words, 0, "demo") {
        return demo_of(alloc, words);
    }
    if is_word(words, 0, "export") {
        return export_of(alloc, words);
    }
    if is_word(words, 0, "cover") {
        return placed(cover_of(words));
    }
    placed(alone(words))
}

/// A wrong word's place, as an end.
fn placed(command: Result<Command, u64>) -> Result<Command, WordsEnd>
    ensures { result ≡ placed command }
{
    match command {
        Ok(command) => Ok(command),
        Err(place) => Err(WordsEnd::Wrong { place }),
    }
}

/// The command without operands that the words spell, or the place of the first wrong word.
fn alone(words: &[&str]) -> Result<Command, u64>
    requires plot { slice_get (map (λ word. word.now) words.now) 0 ≢ Some (codes "plot") }
    requires load { slice_get (map (λ word. word.now) words.now) 0 ≢ Some (codes "load") }
    requires demo { slice_get (map (λ word. word.now) words.now) 0 ≢ Some (codes "demo") }
    requires export { slice_get (map (λ word. word.now) words.now) 0 ≢ Some (codes "export") }
    requires cover { slice_get (map (λ word. word.now) words.now) 0 ≢ Some (codes "cover") }
    ensures command { IfOk result (λ command. Spells command (map (λ word. word.now) words.now)) }
    ensures wrong { IfErr result (λ place. IsWrongAt place (map (λ word. word.now) words.now)) }
{
    let command = single_word(words)?;
    if words.len() > 1 {
        return Err(1);
    }
    Ok(command)
}

/// The command without operands that the first word is, or its place.
fn single_word(words: &[&str]) -> Result<Command, u64>
    ensures command { IfOk result (λ command. (slice_get (map (λ word. word.now) words.now) 0 ≡ Some (word_of command))
        × IsSingle command) }
    ensures wrong { IfErr result (λ place. (place ≡ 0)
        × ((command : Command) → IsSingle command → slice_get (map (λ word. word.now) words.now) 0 ≡ Some (word_of command) → ⊥)) }
{
    if is_word(words, 0, "run") {
        Ok(Command::Run)
    } else if is_word(words, 0, "serve") {
        Ok(Command::Serve)
    } else if is_word(words, 0, "draw") {
        Ok(Command::Draw)
    } else if is_word(words, 0, "init") {
        Ok(Command::Init)
    } else if is_word(words, 0, "check") {
        Ok(Command::Check)
    } else if is_word(words, 0, "list") {
        Ok(Command::ListSeries)
    } else if is_word(words, 0, "retain") {
        Ok(Command::Retain)
    } else if is_word(words, 0, "live") {
        Ok(Command::Live)
    } else if is_word(words, 0, "host") {
        Ok(Command::Host)
    } else if is_word(words, 0, "derive") {
        Ok(Command::Derive)
    } else {
        Err(0)
    }
}

/// The load that the words spell, or the place of the first wrong word.
fn load_of(alloc: Global, words: &[&str]) -> Result<Command, WordsEnd>
    requires { slice_get (map (λ word. word.now) words.now) 0 ≡ Some (codes "load") }
    ensures command { IfOk result (λ command. Spells command (map (λ word. word.now) words.now)) }
    ensures wrong { IfErr result (λ end. IsWrongBy end (map (λ word. word.now) words.now)) }
{
    let name = name_at(alloc, words, 1)?;
    if words.len() > 2 {
        return Err(WordsEnd::Wrong { place: 2 });
    }
    Ok(Command::Load { name })
}

/// The name of a series that the word at a place is.
fn name_at(alloc: Global, words: &[&str], place: usize) -> Result<Name, WordsEnd>
    ensures found { IfOk result (λ name. IsTrue (is_name name) × (slice_get (map (λ word. word.now) words.now) place ≡ Some name)) }
    ensures none { IfErr result (λ end. HasNoName place (map (λ word. word.now) words.now) end) }
{
    let wrong = WordsEnd::Wrong {
        place: place as u64,
    };
    let Some(word) = word_at(words, place) else {
        return Err(wrong);
    };
    match Name::new(alloc, word.as_bytes()) {
        Ok(name) => Ok(name),
        Err(NameError::NotAName) => Err(wrong),
        Err(NameError::NoMemory) => Err(WordsEnd::NoMemory),
    }
}

/// The export that the words spell, or the place of the first wrong word.
fn export_of(alloc: Global, words: &[&str]) -> Result<Command, WordsEnd>
    requires { slice_get (map (λ word. word.now) words.now) 0 ≡ Some (codes "export") }
    ensures command { IfOk result (λ command. Spells command (map (λ word. word.now) words.now)) }
    ensures wrong { IfErr result (λ end. IsWrongBy end (map (λ word. word.now) words.now)) }
{
    let name = name_at(alloc, words, 1)?;
    if words.len() <= 2 {
        return Ok(Command::Export { name, window: None });
    }
    match window_of(words) {
        Ok(window) => Ok(Command::Export {
            name,
            window: Some(window),
        }),
        Err(place) => Err(WordsEnd::Wrong { place }),
    }
}

/// The window that the words behind the name of an export spell, or the place of the first wrong word.
fn window_of(words: &[&str]) -> Result<Window, u64>
    requires some { 2 < length words.now }
    ensures window { IfOk result (λ window. IsWindow window.from window.to) }
    ensures from { IfOk result (λ window. slice_get (map (λ word. word.now) words.now) 2 ≡ Some (signed_decimal window.from)) }
    ensures to { IfOk result (λ window. slice_get (map (λ word. word.now) words.now) 3 ≡ Some (signed_decimal window.to)) }
    ensures all { IfOk result (λ window. length words.now ≤ 4) }
    ensures wrong { IfErr result (IsWrongExport (map (λ word. word.now) words.now)) }
{
    let Some(from) = time_at(words, 2) else {
        return Err(2);
    };
    if from >= i128::from(GREATEST_TIME) {
        return Err(2);
    }
    let Some(to) = time_at(words, 3) else {
        return Err(3);
    };
    if to <= from {
        return Err(3);
    }
    if words.len() > 4 {
        return Err(4);
    }
    Ok(Window {
        from: from as i64,
        to: to as i64,
    })
}

/// The time that the word at a place spells, at most 2 * 10^18 in size.
fn time_at(words: &[&str], place: usize) -> Option<i128>
    ensures found { IfSome result (λ time. IsTime time
        × (slice_get (map (λ word. word.now) words.now) place ≡ Some (signed_decimal time))) }
    ensures none { IfNone result ((time : ℤ) → IsTime time → slice_get (map (λ word. word.now) words.now) place ≡ Some (signed_decimal time)
        → ⊥) }
{
    let word = word_at(words, place)?;
    let time = integer(word.as_bytes())?;
    if is_time(time) { Some(time) } else { None }
}

/// Whether a number is at most 2 * 10^18 in size.
fn is_time(number: i128) -> bool
    ensures { IsTrue result ↔ IsTime number }
{
    number.unsigned_abs() <= u128::from(GREATEST_TIME)
}

/// The drawing with covers that the words spell, or the place of the first wrong word.
fn cover_of(words: &[&str]) -> Result<Command, u64>
    requires { slice_get (map (λ word. word.now) words.now) 0 ≡ Some (codes "cover") }
    ensures command { IfOk result (λ command. Spells command (map (λ word. word.now) words.now)) }
    ensures wrong { IfErr result (λ place. IsWrongAt place (map (λ word. word.now) words.now)) }
{
    let Some(every) = every_at(words, 1) else {
        return Err(1);
    };
    if words.len() > 2 {
        return Err(2);
    }
    Ok(Command::Cover { every })
}

/// The number of coefficients from one cover to the next that the word at a place spells, 1 to 131,072.
fn every_at(words: &[&str], place: usize) -> Option<u32>
    ensures found { IfSome result (λ every. IsEvery every × (slice_get (map (λ word. word.now) words.now) place ≡ Some (decimal every))) }
    ensures none { IfNone result ((every : ℕ) → IsEvery every → slice_get (map (λ word. word.now) words.now) place ≡ Some (decimal every)
        → ⊥) }
{
    let word = word_at(words, place)?;
    let number = natural(word.as_bytes())?;
    if 1 <= number && number <= 131_072 {
        Some(number as u32)
    } else {
        None
    }
}

/// The workload that the words spell, or the place of the first wrong word.
fn demo_of(alloc: Global, words: &[&str]) -> Result<Command, WordsEnd>
    requires { slice_get (map (λ word. word.now) words.now) 0 ≡ Some (codes "demo") }
    ensures command { IfOk result (λ command. Spells command (map (λ word. word.now) words.now)) }
    ensures wrong { IfErr result (λ end. IsWrongBy end (map (λ word. word.now) words.now)) }
{
    let seed = seed_at(alloc, words, 1)?;
    let Some(count) = side_at(words, 2) else {
        return Err(WordsEnd::Wrong { place: 2 });
    };
    if words.len() > 3 {
        return Err(WordsEnd::Wrong { place: 3 });
    }
    Ok(Command::Demo { seed, count })
}

/// The number below 2^64 that the word at a place spells.
fn seed_at(alloc: Global, words: &[&str], place: usize) -> Result<u64, WordsEnd>
    ensures found { IfOk result (λ seed. (seed < 2 ^ 64) × (slice_get (map (λ word. word.now) words.now) place ≡ Some (decimal seed))) }
    ensures none { IfErr result (λ end. HasNoSeed place (map (λ word. word.now) words.now) end) }
{
    let wrong = WordsEnd::Wrong {
        place: place as u64,
    };
    let Some(word) = word_at(words, place) else {
        return Err(wrong);
    };
    let Ok(seed) = word.parse::<u64>() else {
        return Err(wrong);
    };
    let Ok(spelled) = format!(in alloc; "{seed}") else {
        return Err(WordsEnd::NoMemory);
    };
    if spelled.as_str() != word {
        return Err(wrong);
    }
    Ok(seed)
}

/// The plot that the words spell, or the place of the first wrong word.
fn plot_of(words: &[&str]) -> Result<Command, u64>
    requires { slice_get (map (λ word. word.now) words.now) 0 ≡ Some (codes "plot") }
    ensures command { IfOk result (λ command. Spells command (map (λ word. word.now) words.now)) }
    ensures wrong { IfErr result (λ place. IsWrongAt place (map (λ word. word.now) words.now)) }
{
    let Some(w) = side_at(words, 1) else {
        return Err(1);
    };
    let Some(h) = side_at(words, 2) else {
        return Err(2);
    };
    if words.len() > 3 {
        return Err(3);
    }
    Ok(Command::Plot { w, h })
}

/// The side of a canvas that the word at a place spells, 1 to 4,096.
fn side_at(words: &[&str], place: usize) -> Option<u16>
    ensures found { IfSome result (λ side. IsSide side × (slice_get (map (λ word. word.now) words.now) place ≡ Some (decimal side))) }
    ensures none { IfNone result ((side : ℕ) → IsSide side → slice_get (map (λ word. word.now) words.now) place ≡ Some (decimal side) → ⊥) }
{
    let word = word_at(words, place)?;
    let number = natural(word.as_bytes())?;
    if 1 <= number && number <= 4096 {
        Some(number as u16)
    } else {
        None
    }
}

/// Whether the word at a place is there and is this one.
fn is_word(words: &[&str], place: usize, text: &str) -> bool
    ensures { IsTrue result ↔ (slice_get (map (λ word. word.now) words.now) place ≡ Some text.now) }
{
    match word_at(words, place) {
        Some(word) => word == text,
        None => false,
    }
}

/// The word at a place, where there is one.
fn word_at<'a>(words: &[&'a str], place: usize) -> Option<&'a str>
    ensures { MatchOption result (slice_get (map (λ word. word.now) words.now) place ≡ None)
        (λ word. slice_get (map (λ word. word.now) words.now) place ≡ Some word.now) }
{
    if place < words.len() {
        Some(words[place])
    } else {
        None
    }
}
