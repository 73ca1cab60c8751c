//! Which commands use no store.
ghost use Rattle.std.specs.Prelude.{◌≡◌, map, string_bytes};
ghost use Rattle.program_words.specs.Stores.{begins_storeless, is_storeless, names_storeless, uses_no_store};
ghost use Rattle.program_words.specs.Words.{AreWordsOf};
ghost use Rattle.program_words.specs.declared.words.Command.{Command};

/// Whether words that are a command's are those of one that uses no store, so that no file has to be
/// opened and locked for it: `plot`, `draw` or `cover`.
pub fn uses_no_store(words: &[String]) -> bool
    ensures { (command : Command) → AreWordsOf command words.now → result ≡ uses_no_store command }
{
    names_storeless(words)
}

/// Whether the first word, or the one behind two hyphens, is that of such a command.
fn names_storeless(words: &[String]) -> bool
    ensures { result ≡ names_storeless (map string_bytes words.now) }
{
    match words {
        [dashes, rest @ ..] if dashes.as_str() == "--" => begins_storeless(rest),
        _ => begins_storeless(words),
    }
}

/// Whether the first word is that of such a command.
fn begins_storeless(words: &[String]) -> bool
    ensures { result ≡ begins_storeless (map string_bytes words.now) }
{
    match words {
        [word, ..] => is_storeless(word.as_str()),
        [] => false,
    }
}

/// Whether the word is that of such a command.
fn is_storeless(word: &str) -> bool
    ensures { result ≡ is_storeless word.now }
{
    word == "plot" || word == "draw" || word == "cover"
}
