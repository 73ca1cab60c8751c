//! What is known of drawings, and of many runs over one disk. The functions do nothing: their contracts are the laws.
ghost use Rattle.std.specs.Prelude.{ℕ, List, Option};
ghost use Rattle.block_disk.specs.View.{Image};
ghost use Rattle.series_book.specs.declared.one_series.Series.{Series};
ghost use Rattle.stored_book.specs.Standing.{RecoversTo};
ghost use Rattle.draw_command.specs.Draws.{DrawsAll};
ghost use Rattle.chart_program.specs.Draw.{IsFrames};
ghost use Rattle.chart_program.specs.Lives.{Life, AreLives, AreBooks};
ghost use Rattle.chart_program.specs.Replies.{DrawsBook, IsOfReplies};

use chart_frames::laws::{length_is_told, one_frame_a_spelling, spellings_are_good};
use drawn_replies::laws::{
    one_session_draws_the_book, own_replies_are_accepted, replies_are_accepted,
    replies_draw_the_book,
};
use host_command::laws::{
    hosts_are_accepted, hosts_draw_the_book, own_hosts_are_accepted, own_hosts_draw_the_book,
};
use live_command::laws::{
    own_runs_are_accepted, own_runs_draw_the_book, runs_are_accepted, runs_draw_the_book,
};
use stored_book::laws::pages_stand_for_one_book;

/// Over any list of lives, as the clause `life` of `chart` makes them of its runs, each begun on an image that a crash at some
/// moment of the one before left, the disk recovers at each start to the book that the life before left: of `serve` and `run` the
/// one at its start, after each of its edits whose answer was sent whole by then, and at most 64 edits more; of `load` and `demo` the one
/// after some first of their edits, after all of them once a byte of their line was sent; of `retain` the one after
/// the sweeps whose answers were sent whole, and some first clears of the next; of `live` the one after some first
/// lines, with each edit whose answer was sent whole by then, and at most one edit more; of `host` so, with at most 64
/// edits more, where a line of a sweep is read as the clears of its step, and some first ones of the next line's may
/// be done; of every other command, and of a `load` of an unknown name, the same one.
pub fn books_outlive_their_runs()
    ensures { (count total : ℕ) (book : List Series) (image : Image) (lives : List Life) → AreLives count image lives
        → RecoversTo count image total book → AreBooks count total book lives }
{
    pages_stand_for_one_book();
}

/// Of the frames that answer lines in a run of `serve`, of `live` or of `host`, all of them or those of one session, `draw` and
/// `cover` send the pictures of the book, and of a host's sums their charts. They are good input, which a client accepts.
pub fn frames_draw_the_book()
    ensures book { (every : Option ℕ) (input : List ℕ) (before now : Option (List ℕ)) → DrawsAll every input before now
        → DrawsBook every input before now }
    ensures good { (input : List ℕ) → IsOfReplies input → IsFrames input }
{
    one_frame_a_spelling();
    length_is_told();
    spellings_are_good();
    replies_draw_the_book();
    one_session_draws_the_book();
    replies_are_accepted();
    own_replies_are_accepted();
    runs_draw_the_book();
    own_runs_draw_the_book();
    runs_are_accepted();
    own_runs_are_accepted();
    hosts_draw_the_book();
    own_hosts_draw_the_book();
    hosts_are_accepted();
    own_hosts_are_accepted();
}
