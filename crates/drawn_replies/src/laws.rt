//! What a client draws of a service's replies. The functions do nothing: their contracts are the laws.

ghost use Rattle.std.specs.Prelude.{ℕ, ◌≡◌, List, [], Option};
ghost use Rattle.chart_frames.specs.declared.frame.Frame.{Frame};
ghost use Rattle.chart_service.specs.State.{State, IsSound};
ghost use Rattle.chart_service.specs.Serving.{RepliesToAll};
ghost use Rattle.chart_service.specs.Naming.{NameOpened};
ghost use Rattle.drawn_replies.specs.Pictures.{NoneRejected};
ghost use Rattle.drawn_replies.specs.Laws.{LinesAreDrawn, LinesAreAccepted, RequestsAreDrawn, RequestsAreAccepted, LineViewsAgree};
ghost use Rattle.drawn_replies.specs.Laws.{RequestViewsAgree, RepliesDrawTheBook, OwnRepliesDrawTheBook, OwnRepliesAreAccepted};
ghost use Rattle.drawn_replies.specs.Laws.{OwnLinesAreDrawn, OwnRequestsAreDrawn};

use chart_service::laws::frames_name_opened_sessions;
use coefficient_cache::laws::sent_and_held_give_the_needed;
use needed_nodes::laws::points_are_the_samples;
use om3_coeff::laws::{spans_add_up, split_and_join_undo_each_other};
use view_keys::laws::wanted_keys_are_needed;

/// A client that holds the list of each open session as the service keeps it, and gets the frame of the
/// next reply, draws of a view the chart of what the view keeps of its series as it is in the book, and
/// holds each session's list as the service does after the reply. Nothing but want of memory can come in
/// its way.
pub fn clients_draw_the_book()
    ensures draws { LinesAreDrawn }
    ensures accepts { LinesAreAccepted }
{
    wanted_keys_are_needed();
    sent_and_held_give_the_needed();
    spans_add_up();
    points_are_the_samples();
    split_and_join_undo_each_other();
}

/// The same of the frame that answers a request, however the request came.
pub fn clients_draw_requests()
    ensures draws { RequestsAreDrawn }
    ensures accepts { RequestsAreAccepted }
{
    wanted_keys_are_needed();
    sent_and_held_give_the_needed();
    spans_add_up();
    points_are_the_samples();
    split_and_join_undo_each_other();
}

/// A client that is sent the frames of one session alone, and holds that session's list as the service keeps it, draws
/// the picture of the book of each of them, and goes on holding the list. Nothing but want of memory can come in its
/// way. Behind another session's frame the list is as it was.
pub fn one_session_draws_each_frame()
    ensures lines { OwnLinesAreDrawn }
    ensures requests { OwnRequestsAreDrawn }
{
    wanted_keys_are_needed();
    sent_and_held_give_the_needed();
    spans_add_up();
    points_are_the_samples();
    split_and_join_undo_each_other();
}

/// The same of all replies to lines: the client's drawings are the pictures of the book, each as the book
/// is at its line.
pub fn replies_draw_the_book()
    ensures { RepliesDrawTheBook }
{
    clients_draw_the_book();
}

/// The same of a client that is sent the frames of one session alone, whatever other sessions' lines and
/// edits stand between: it draws that session's pictures of the book.
pub fn one_session_draws_the_book()
    ensures { OwnRepliesDrawTheBook }
{
    wanted_keys_are_needed();
    sent_and_held_give_the_needed();
    spans_add_up();
    points_are_the_samples();
    split_and_join_undo_each_other();
}

/// Where a client is sent all replies to lines, from the first one on, nothing but want of memory keeps it
/// from accepting one.
pub fn replies_are_accepted()
    ensures { (lines : List (Option (List ℕ))) (frames : List Frame) (old new : State) →
        IsSound old → old.sessions ≡ [] → RepliesToAll old lines frames new → NoneRejected frames }
{
    clients_draw_the_book();
}

/// The same of a client that is sent the frames of one session alone, whatever other sessions' lines and
/// edits stand between.
pub fn own_replies_are_accepted()
    ensures { OwnRepliesAreAccepted }
{
    wanted_keys_are_needed();
    sent_and_held_give_the_needed();
    spans_add_up();
    points_are_the_samples();
    split_and_join_undo_each_other();
}

/// Each of the replies to lines, from the first one on, that closes a session or answers in it names one that a
/// reply before it opened, and that none in between closed.
pub fn replies_name_opened_sessions()
    ensures { (lines : List (Option (List ℕ))) (frames : List Frame) (old new : State) →
        IsSound old → old.sessions ≡ [] → RepliesToAll old lines frames new → NameOpened frames }
{
    frames_name_opened_sessions();
}

/// The series of a view that answers a line or a request, as it is in the book, agrees with the view's frame and with what such
/// a client holds. So what is so of each series that agrees with them, as that covers hold the picture, is so of the book's.
pub fn views_agree()
    ensures lines { LineViewsAgree }
    ensures requests { RequestViewsAgree }
{
    wanted_keys_are_needed();
    sent_and_held_give_the_needed();
    spans_add_up();
    points_are_the_samples();
    split_and_join_undo_each_other();
}
