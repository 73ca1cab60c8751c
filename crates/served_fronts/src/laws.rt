//! What follows from the definitions. The functions do nothing: their contracts are the laws.

ghost use Rattle.served_fronts.specs.Laws.{FrontsDrawTheBook, OwnFrontsDrawTheBook, DrawnFrontsAreTheBook, BooksFollowTheLines};
ghost use Rattle.served_fronts.specs.Laws.{DrawnOwnFrontsAreTheBook, LinesAreAnswered, CrashesKeepTheLines};
ghost use Rattle.served_fronts.specs.Laws.{LinesSayWhatIsRead};
ghost use Rattle.served_fronts.specs.Laws.{FirstBytesAgree, BytesAreCutInOneWay, ChartsHaveOnePicture, StoresBeginSound};
ghost use Rattle.served_fronts.specs.Headline.{ChartsAreExact};
ghost use Rattle.served_fronts.specs.Servings.{ServingsAreExact, TextsAreExact};
ghost use Rattle.served_fronts.specs.Witness.{StoresCanBe, DisksInMemoryAreHonest};
ghost use Rattle.served_fronts.specs.Example.{TheExampleIsDrawn};

use chart_frames::laws::{
    length_is_told, more_bytes_mend_nothing, one_frame_a_spelling, spellings_are_good,
};
use chart_service::laws::{replies_are_one, sessions_stand_alone};
use draw_command::laws::covers_narrow_to_the_picture;
use drawn_replies::laws::{
    clients_draw_the_book, one_session_draws_the_book, replies_are_accepted, replies_draw_the_book,
    views_agree,
};
use request_lines::laws::lines_spell_requests;
use stored_book::laws::empty_stores_have_no_series;
use value_filter::laws::a_text_is_read_in_one_way;
use view_keys::laws::keys_of_a_view_are_few;

/// The frames that a client draws of a front of those that answer lines, from the first one on and until no frame stands
/// whole in what is left, are those that stand whole in the front; each picture is that of the book as it is at its line.
pub fn fronts_draw_the_book()
    ensures { FrontsDrawTheBook }
{
    one_frame_a_spelling();
    length_is_told();
    replies_draw_the_book();
}

/// The same of the frames of one session alone, from any state in which it isn't open.
pub fn own_fronts_draw_the_book()
    ensures { OwnFrontsDrawTheBook }
{
    one_frame_a_spelling();
    length_is_told();
    one_session_draws_the_book();
}

/// A front of at most 2^32 bytes of what answers lines, cut anywhere, also within a frame, and given to `draw`: it sends the
/// pictures of all views that stand whole in it, each of the book as it is at its line. Whatever end it had, where that
/// wasn't want of memory or a fault of a stream.
pub fn drawn_fronts_are_the_book()
    ensures { DrawnFrontsAreTheBook }
{
    one_frame_a_spelling();
    length_is_told();
    spellings_are_good();
    more_bytes_mend_nothing();
    replies_draw_the_book();
    replies_are_accepted();
}

/// The same of a front of one session's frames, from any state in which it isn't open.
pub fn drawn_own_fronts_are_the_book()
    ensures { DrawnOwnFrontsAreTheBook }
{
    one_frame_a_spelling();
    length_is_told();
    spellings_are_good();
    more_bytes_mend_nothing();
    a_text_is_read_in_one_way();
    keys_of_a_view_are_few();
    sessions_stand_alone();
    one_session_draws_the_book();
    clients_draw_the_book();
}

/// What is said to lines, in the words of books, sessions and views: a session is opened or closed, a view is shown with the
/// samples that it keeps of the book as it is at its line, or there is no picture; for a view in an open session that has
/// one of the causes of `CantShow` and `CantMove`. Of any front of the bytes of these answers, or of those of one session
/// from one of its openings on, `draw` sends the pictures of the views that stand whole in it, and `cover` the covers, too:
/// each holds the picture, and lies in those before it.
pub fn lines_have_their_answers()
    ensures { LinesAreAnswered }
{
    a_text_is_read_in_one_way();
    keys_of_a_view_are_few();
    length_is_told();
    replies_are_one();
    one_frame_a_spelling();
    spellings_are_good();
    more_bytes_mend_nothing();
    replies_are_accepted();
    clients_draw_the_book();
    one_session_draws_the_book();
    sessions_stand_alone();
    views_agree();
    covers_narrow_to_the_picture();
    drawn_fronts_are_the_book();
    drawn_own_fronts_are_the_book();
}

/// What a crash leaves while lines are answered, in these words: the book after some first lines, among them all whose
/// answers stand whole in the bytes sent by then, and at most 64 more. What answers the whole input begins with the bytes of
/// their answers.
pub fn crashes_keep_the_lines()
    ensures { CrashesKeepTheLines }
{
    replies_are_one();
    lines_have_their_answers();
}

/// The book after the replies to lines is the one after the edits among the lines, each as it is applied or refused.
pub fn books_follow_the_lines()
    ensures { BooksFollowTheLines }
{}

/// What a line is read as is the request that it spells, and it spells none where none is read.
pub fn lines_say_what_is_read()
    ensures { LinesSayWhatIsRead }
{
    lines_spell_requests();
}

/// What was sent is determined by its length: the first so many bytes of what answers some first lines are those of what
/// answers any other number of first lines of the same ones.
pub fn first_bytes_agree()
    ensures { FirstBytesAgree }
{
    replies_are_one();
}

/// Bytes are cut into answers in one way: of two cuts of bytes that begin alike the one with fewer answers is a front of the
/// other. So where among the bytes that were sent one answer ends and the next begins is determined by these bytes.
pub fn bytes_are_cut_in_one_way()
    ensures { BytesAreCutInOneWay }
{}

/// Two canvases that are the chart of the same samples have the same picture, whatever their cells are.
pub fn charts_have_one_picture()
    ensures { ChartsHaveOnePicture }
{}

/// A store that recovers to a book begins a sound state, with no session open. So does a disk that holds a book: what its
/// reads give recovers to it.
pub fn stores_begin_sound()
    ensures { StoresBeginSound }
{}

/// Over a disk that stands for a book, and whatever runs of `chart` follow, each begun on what a crash at some moment of the one
/// before left: the bytes that a run of `serve` sent begin those of answers to its lines over the book at its start; the next
/// book is that one after some first lines, among them all whose answers stand whole in the bytes sent by the crash; and of any
/// front of the bytes of these answers, cut anywhere, or of those of one session, `draw` sends the pictures of all views that
/// stand whole in it, each the raster of the points that the view keeps of the book at its line.
pub fn charts_are_exact()
    ensures { ChartsAreExact }
{}

/// What a serving says of its frames and of the moments of its run makes the run exact.
pub fn servings_are_exact()
    ensures { ServingsAreExact }
{
    lines_spell_requests();
    first_bytes_agree();
    lines_have_their_answers();
}

/// So does what a run says of its texts: those that were sent begin the texts of some first lines, each with the picture of the book
/// as it is at its line.
pub fn texts_are_exact()
    ensures { TextsAreExact }
{
    lines_spell_requests();
    replies_are_one();
    charts_have_one_picture();
    a_text_is_read_in_one_way();
    keys_of_a_view_are_few();
}

/// That what is asked of a disk can be met: of each size from 128 blocks on there is one with a store without a series, where
/// nothing is pending.
pub fn stores_can_be()
    ensures { StoresCanBe }
{
    empty_stores_have_no_series();
}

/// What reads give of a disk in memory is always one of the images that a crash now may leave.
pub fn disks_in_memory_are_honest()
    ensures { DisksInMemoryAreHonest }
{}

/// The law on all runs, worked through for the lines of two, with a crash between them: the values that were acknowledged before
/// the crash are in the book behind it, and `draw` makes this very bitmap of what the second run sent.
pub fn the_example_is_drawn()
    ensures { TheExampleIsDrawn }
{
    lines_spell_requests();
    charts_are_exact();
    charts_have_one_picture();
}
