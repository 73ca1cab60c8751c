ghost use Rattle.std.specs.Prelude.{◌≡◌, ◌≢◌, ◌⊎◌, ℕ, List, [], ◌∷◌, map, Contains, Option, string_bytes, IfSome};
ghost use Rattle.block_disk.specs.Counts.{HasRisen};
ghost use Rattle.block_disk.specs.View.{Honest};
ghost use Rattle.chart_world.specs.Faults.{CountsFault};
ghost use Rattle.program_words.specs.CommandLine.{plain_words};
ghost use Rattle.program_words.specs.declared.words.Command.TheVariants.{Check, Cover, Demo, Derive, Draw, Export, Host, Init, ListSeries};
ghost use Rattle.program_words.specs.declared.words.Command.TheVariants.{Live, Load, Plot, Retain, Run, Serve};
ghost use Rattle.program_words.specs.Words.{AreCommand, AreWordsOf, ByCommand, Spells, IsWrong};
ghost use Rattle.store_commands.specs.Status.{code_fault};
ghost use Rattle.series_export.specs.declared.window.Window.{Window};
ghost use Rattle.chart_program.specs.Check.{OfCheck};
ghost use Rattle.chart_program.specs.Commands.{ByPage};
ghost use Rattle.chart_program.specs.Cover.{OfCover};
ghost use Rattle.chart_program.specs.Demo.{OfDemo};
ghost use Rattle.chart_program.specs.Derive.{OfDerive};
ghost use Rattle.chart_program.specs.Draw.{OfDraw};
ghost use Rattle.chart_program.specs.Export.{OfExport};
ghost use Rattle.chart_program.specs.Host.{OfHost};
ghost use Rattle.chart_program.specs.Init.{OfInit};
ghost use Rattle.chart_program.specs.ListSeries.{OfList};
ghost use Rattle.chart_program.specs.Load.{OfLoad};
ghost use Rattle.chart_program.specs.Plot.{OfPlot};
ghost use Rattle.chart_program.specs.Retain.{OfRetain};
ghost use Rattle.chart_program.specs.Run.{OfRun};
ghost use Rattle.chart_program.specs.Serve.{OfServe};
ghost use Rattle.chart_program.specs.CommandStatuses.{all_codes, codes_of, TakesNone, BarsBy};
ghost use Rattle.chart_program.specs.Exact.{BeginsRuns, DrawsFronts, MakesRuns, drawing_codes};
ghost use Rattle.chart_program.specs.Live.{OfLive};
ghost use Rattle.chart_program.specs.Lives.{IsLived};
ghost use Rattle.chart_program.specs.Ran.{ForCommand, ForStreams, IsUnread, IsAwayFor, SendsAll, SendsPart, StopsWith, StopsAtDisk};
ghost use Rattle.chart_program.specs.Ran.{IsBadInput, IsTooMuch, IsCutShort, IsInput, HasGoodInput, IsFree, IsWithin, LeavesDisk};
ghost use Rattle.chart_program.specs.Ran.{LeavesTold, HoldsNow, IsDamaged, IsUndamaged, IsMade, IsTooSmall, IsThere, IsRefusedWith};
ghost use Rattle.chart_program.specs.Ran.{IsUnknown, IsRefusedLine, TellsUnnamed, ReadsFew, ReadsByInput, SyncsByInput, Lacks, Misfits};
ghost use Rattle.chart_program.specs.Ran.{NamesUnopened, DrawsReplies, IsOfReplies, IsCoverOfReplies, CoversBook, BeginStream};

use crate::commands::status_of_command;
use crate::laws::frames_draw_the_book;
use block_disk::World;
use program_words::{WordsEnd, command_of};
use run_ends::codes::{
    BAD_COEFFICIENT, BAD_INPUT, DAMAGED, DISK_FAULT, DONE, IS_STORE, MISSING, NO_MEMORY, NO_SERIES,
    READ_FAULT, REFUSED, REFUSED_LINE, SEND_FAULT, TOO_MUCH, TOO_SMALL, UNKNOWN_SESSION,
    WRONG_WORDS,
};
use run_ends::{End, Status, status_of};
use served_fronts::laws::{lines_say_what_is_read, servings_are_exact, texts_are_exact};
use std::alloc::Global;
use stored_book::laws::{empty_stores_have_no_series, pages_stand_for_one_book};

/// Does the command of the words, with the world's input and output, and gives the world back.
///
/// Only the input that is told is spoken of: a real stream tells none.
pub fn chart<W: World>(alloc: Global, words: &[String], world: W) -> (Status, W)
    // each status comes exactly for its cause
    ensures codes { Contains all_codes result.0.code }
    ensures statuses { result.0.code ≢ WRONG_WORDS → result.0.code ≢ NO_MEMORY
        → ByCommand words.now (λ command. Contains (codes_of command) result.0.code) }
    ensures wrong { result.0.code ≡ WRONG_WORDS → IsWrong result.0.place (map string_bytes words.now) }
    ensures command { result.0.code ≢ WRONG_WORDS → result.0.code ≢ NO_MEMORY → AreCommand words.now }
    ensures read { result.0.code ≡ READ_FAULT → HasRisen (W.read_faults world) (W.read_faults result.1) }
    ensures stopped { result.0.code ≡ READ_FAULT → ForCommand words.now W.view W.left W.sent world result.1 (StopsWith (W.left result.1)) }
    ensures send { result.0.code ≡ SEND_FAULT → HasRisen (W.send_faults world) (W.send_faults result.1) }
    ensures bad { result.0.code ≡ BAD_INPUT → ForCommand words.now W.view W.left W.sent world result.1
        (λ command old new input. IsBadInput command old new input result.0.place) }
    ensures much { result.0.code ≡ TOO_MUCH → ForCommand words.now W.view W.left W.sent world result.1
        (λ command old new input. IsTooMuch command old new input result.0.place) }
    ensures missing { result.0.code ≡ MISSING → ForCommand words.now W.view W.left W.sent world result.1
        (λ command old new input. Lacks command old input result.0.place) }
    ensures misfit { result.0.code ≡ BAD_COEFFICIENT
        → ForCommand words.now W.view W.left W.sent world result.1 (λ command old new input. Misfits command old input result.0.place) }
    ensures unopened { result.0.code ≡ UNKNOWN_SESSION
        → ForCommand words.now W.view W.left W.sent world result.1
        (λ command old new input. NamesUnopened command old input result.0.place) }
    ensures memory { result.0.code ≡ NO_MEMORY → (result.1 ≡ world) ⊎ ForCommand words.now W.view W.left W.sent world result.1 IsCutShort }
    ensures within { result.0.code ≡ DONE → ByCommand words.now (λ command. IfSome (W.left world) (IsWithin command (W.left result.1))) }
    ensures fault { result.0.code ≡ DISK_FAULT → HasRisen (W.view world).faults (W.view result.1).faults }
    // with 4, 5 or 6 one call failed, and that count rose by one, or stood at its last value; no other count rose
    ensures faults { CountsFault (code_fault result.0.code) (W.view world) (W.view result.1) }
    ensures faulted { result.0.code ≡ DISK_FAULT → ForCommand words.now W.view W.left W.sent world result.1
        (λ command old new. StopsAtDisk command old) }
    ensures damaged { result.0.code ≡ DAMAGED → ByCommand words.now
        (λ command. IsDamaged command (W.view world) (W.view result.1) result.0.place) }
    ensures undamaged { result.0.code ≡ DAMAGED → ByCommand words.now
        (λ command. IfSome (W.left world) (λ input. IsUndamaged command (W.view world))) }
    ensures small { result.0.code ≡ TOO_SMALL → ByCommand words.now (λ command. IsTooSmall command (W.view world) result.0.place) }
    ensures away { result.0.code ≢ WRONG_WORDS → IsUnread result.0 world result.1
        ⊎ ForStreams words.now W.left W.sent world result.1 (IsAwayFor (W.view world) result.0) }
    ensures bars { result.0.code ≡ DAMAGED → ForStreams words.now W.left W.sent world result.1
        (BarsBy (W.view world) (W.view result.1) result.0) }
    ensures there { result.0.code ≡ IS_STORE → ByCommand words.now (λ command. IsThere command (W.view world) result.0.place) }
    ensures refused { result.0.code ≡ REFUSED → ForCommand words.now W.view W.left W.sent world result.1
        (IsRefusedWith (W.left result.1) result.0.place) }
    ensures unknown { result.0.code ≡ NO_SERIES → ForCommand words.now W.view W.left W.sent world result.1
        (λ command old new input. IsUnknown command old new input result.0.place) }
    ensures refused_line { result.0.code ≡ REFUSED_LINE
        → ForCommand words.now W.view W.left W.sent world result.1
        (λ command old new input. IsRefusedLine command old input result.0.place) }
    ensures unnamed { result.0.code ≢ WRONG_WORDS → IsUnread result.0 world result.1
        ⊎ ByCommand words.now (λ command. TellsUnnamed command (W.view world) result.0.code) }
    ensures place { Contains (DONE ∷ NO_MEMORY ∷ READ_FAULT ∷ SEND_FAULT ∷ DISK_FAULT ∷ []) result.0.code → result.0.place ≡ 0 }

    // what was sent
    ensures done { result.0.code ≡ DONE → ForCommand words.now W.view W.left W.sent world result.1 SendsAll }
    ensures part { result.0.code ≡ SEND_FAULT → ForCommand words.now W.view W.left W.sent world result.1 SendsPart }
    ensures nothing { result.0.code ≢ DONE → result.0.code ≢ SEND_FAULT → (BeginStream (plain_words (map string_bytes words.now)) → ⊥)
        → W.sent result.1 ≡ W.sent world }

    // how much `list` and `export` read
    ensures reads { result.0.code ≢ WRONG_WORDS → (result.1 ≡ world)
        ⊎ ByCommand words.now (λ command. ReadsFew command (W.view world) (W.view result.1)) }

    // where lines are served, the opening and the lines alone read and sync
    ensures reads_lines { result.0.code ≢ WRONG_WORDS → (result.1 ≡ world)
        ⊎ ForCommand words.now W.view W.left W.sent world result.1 ReadsByInput }
    ensures syncs { result.0.code ≢ WRONG_WORDS → (result.1 ≡ world)
        ⊎ ForCommand words.now W.view W.left W.sent world result.1 SyncsByInput }

    // of the frames that answer lines `draw` sends the pictures of the book
    ensures pictures { result.0.code ≡ DONE → Spells Draw (plain_words (map string_bytes words.now))
        → IfSome (W.left world) (λ input. DrawsReplies input (W.sent world) (W.sent result.1)) }

    // and so does `cover`, each picture behind its covers
    ensures covers { result.0.code ≡ DONE → ForCommand words.now W.view W.left W.sent world result.1 CoversBook }

    // at each moment a crash leaves a book with what was answered by then: with at most 64 edits more where lines are
    // served, and with some first edits of a load and of a workload
    ensures crash { result.0.code ≢ WRONG_WORDS → (result.1 ≡ world) ⊎ ForCommand words.now W.view W.left W.sent world result.1 LeavesTold }

    // so each run is a life, as the law on lists of lives has it
    ensures life { result.0.code ≢ WRONG_WORDS → IsUnread result.0 world result.1
        ⊎ ForCommand words.now W.view W.left W.sent world result.1 IsLived }

    // and one of those of which the law `charts_are_exact` speaks
    ensures exact { result.0.code ≢ WRONG_WORDS → IsUnread result.0 world result.1
        ⊎ ForCommand words.now W.view W.left W.sent world result.1 (MakesRuns result.0.code (W.left result.1)) }
    // the first one may begin on what `init` made
    ensures begins { result.0.code ≡ DONE → ByCommand words.now (λ command. BeginsRuns command (W.view world) (W.view result.1)) }
    // and what `draw` sends is what these laws take it for
    ensures fronts { Contains drawing_codes result.0.code
        → ForCommand words.now W.view W.left W.sent world result.1 (DrawsFronts (W.left result.1)) }

    // with any status reads of the disk give what a crash may leave, where they did
    ensures honest { Honest (W.view world) → Honest (W.view result.1) }

    // with any status but 6 the disk holds a book again, where it held one
    ensures holds { result.0.code ≢ WRONG_WORDS → result.0.code ≢ DISK_FAULT → (result.1 ≡ world)
        ⊎ ForCommand words.now W.view W.left W.sent world result.1 HoldsNow }

    // at each moment of `init` a crash leaves the pages from before, or an empty store where there was none
    ensures untaken { result.0.code ≢ WRONG_WORDS → IsUnread result.0 world result.1
        ⊎ ByCommand words.now (λ command. TakesNone command → W.left result.1 ≡ W.left world) }
    ensures untouched { result.0.code ≡ WRONG_WORDS → result.1 ≡ world }
    ensures disk { result.0.code ≢ WRONG_WORDS → (result.1 ≡ world)
        ⊎ ByCommand words.now (λ command. LeavesDisk command (W.view world) (W.view result.1)) }
    ensures made { result.0.code ≡ DONE → ByCommand words.now (λ command. IsMade command (W.view world) (W.view result.1)) }

    // with good words and good input the command is done, a stream fails, or there is no memory
    ensures complete { HasGoodInput words.now (W.left world) (λ command. IsInput command (W.view world) (W.view result.1))
        → Contains (DONE ∷ NO_MEMORY ∷ READ_FAULT ∷ SEND_FAULT ∷ []) result.0.code }
    // so with the frames that answer lines `draw` is done, all of them or those of one session
    ensures drawn { AreWordsOf Draw words.now → IfSome (W.left world) (λ input. IsOfReplies input
        → Contains (DONE ∷ NO_MEMORY ∷ READ_FAULT ∷ SEND_FAULT ∷ []) result.0.code) }
    // and so is `cover`
    ensures covered { HasGoodInput words.now (W.left world) IsCoverOfReplies
        → Contains (DONE ∷ NO_MEMORY ∷ READ_FAULT ∷ SEND_FAULT ∷ []) result.0.code }
    ensures ready { AreWordsOf Init words.now → IsFree (W.view world) → (HasRisen (W.view world).faults (W.view result.1).faults → ⊥)
        → (result.0.code ≡ DONE) ⊎ (result.0.code ≡ NO_MEMORY) }

    // what each command did, sent and left, by how it ended: a page of specs/ for each
    ensures plot { (w h : ℕ) → ByPage words.now W.view W.left W.sent world result.1 result.0 (Plot w h) (OfPlot w h) }
    ensures load { (name : List ℕ) → ByPage words.now W.view W.left W.sent world result.1 result.0 (Load name) (OfLoad name) }
    ensures demo { (seed rounds : ℕ) → ByPage words.now W.view W.left W.sent world result.1 result.0 (Demo seed rounds)
        (OfDemo seed rounds) }
    ensures run { ByPage words.now W.view W.left W.sent world result.1 result.0 Run OfRun }
    ensures serve { ByPage words.now W.view W.left W.sent world result.1 result.0 Serve OfServe }
    ensures draw { ByPage words.now W.view W.left W.sent world result.1 result.0 Draw OfDraw }
    ensures init { ByPage words.now W.view W.left W.sent world result.1 result.0 Init OfInit }
    ensures check { ByPage words.now W.view W.left W.sent world result.1 result.0 Check OfCheck }
    ensures list { ByPage words.now W.view W.left W.sent world result.1 result.0 ListSeries OfList }
    ensures export { (name : List ℕ) (window : Option Window)
        → ByPage words.now W.view W.left W.sent world result.1 result.0 (Export name window) (OfExport name window) }
    ensures retain { ByPage words.now W.view W.left W.sent world result.1 result.0 Retain OfRetain }
    ensures cover { (every : ℕ) → ByPage words.now W.view W.left W.sent world result.1 result.0 (Cover every) (OfCover every) }
    ensures live { ByPage words.now W.view W.left W.sent world result.1 result.0 Live OfLive }
    ensures host { ByPage words.now W.view W.left W.sent world result.1 result.0 Host OfHost }
    ensures derive { ByPage words.now W.view W.left W.sent world result.1 result.0 Derive OfDerive }
{
    frames_draw_the_book();
    servings_are_exact();
    texts_are_exact();
    lines_say_what_is_read();
    empty_stores_have_no_series();
    pages_stand_for_one_book();
    match command_of(alloc, words) {
        Err(WordsEnd::Wrong { place }) => (status_of(End::WrongWords { word: place }), world),
        Err(WordsEnd::NoMemory) => (status_of(End::NoMemory), world),
        Ok(command) => status_of_command(alloc, command, world),
    }
}
