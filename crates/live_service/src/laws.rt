//! What holds of pushes, and what a client draws of them. The functions do nothing: their contracts are the laws.
ghost use Rattle.std.specs.Prelude.{◌≡◌, ℕ, List, [], Option};
ghost use Rattle.chart_client.specs.declared.holding.Holding.{Holding};
ghost use Rattle.chart_frames.specs.declared.frame.Frame.{Frame};
ghost use Rattle.chart_service.specs.State.{IsSound};
ghost use Rattle.drawn_replies.specs.Mirrors.{Mirrors, OnlyLacksMemory};
ghost use Rattle.chart_service.specs.Replies.{line_text};
ghost use Rattle.live_service.specs.Following.{FollowsWell, ShowsView};
ghost use Rattle.live_service.specs.Kinds.{MayAnswerLive, MayPush};
ghost use Rattle.live_service.specs.LiveReplies.{GroupReplied, LiveState, LiveReplied, Pushed};
ghost use Rattle.live_service.specs.Laws.{PushesAreDrawn, LinesAreDrawn, LinesAreAccepted, OwnLinesAreDrawn, OwnPushesAreDrawn};
ghost use Rattle.live_service.specs.Laws.{LiveRepliesAreOne, PushesAreOne, GroupsAreOne, GroupsOfOneAreLines};
ghost use Rattle.series_book.specs.declared.edits.Edit.{Edit};

use chart_service::laws::{replies_are_one, replies_may_answer};
use drawn_replies::laws::{
    clients_draw_requests, clients_draw_the_book, one_session_draws_each_frame,
};
use live_view::laws::followed_views_fit;

/// A client that holds the list of each open session as the service keeps it, and gets the next push, draws
/// of it the chart of what the followed view keeps of its series as it is in the book, behind the edit, and holds
/// each session's list as the service does after the push. Nothing but want of memory can come in its way. The book
/// stays, so that of all pushes behind an edit the chart of one book is drawn.
pub fn clients_draw_pushes()
    ensures draws { PushesAreDrawn }
    ensures accepts { (frame : Frame) (old new : LiveState) (holdings : List Holding) →
        IsSound old.state → Pushed frame old new → Mirrors old.state.sessions holdings → OnlyLacksMemory frame holdings }
    ensures book { (frame : Frame) (old new : LiveState) → Pushed frame old new → new.state.book ≡ old.state.book }
{
    clients_draw_requests();
}

/// The same of the frame that answers a line: a client goes on holding each session's list, from the first line on.
pub fn clients_draw_lines()
    ensures draws { LinesAreDrawn }
    ensures accepts { LinesAreAccepted }
    ensures sound { (line : Option (List ℕ)) (frame : Frame) (old new : LiveState) → IsSound old.state → LiveReplied line frame old new
        → IsSound new.state }
{
    clients_draw_the_book();
}

/// A client that is sent the frames of one session alone, and holds that session's list as the service keeps it, draws the
/// picture of the book of each of them, whether it answers a line or is pushed, and goes on holding the list. Nothing but want
/// of memory can come in its way. Behind another session's frame the list is as it was.
pub fn one_session_draws_live_frames()
    ensures lines { OwnLinesAreDrawn }
    ensures pushes { OwnPushesAreDrawn }
{
    one_session_draws_each_frame();
}

/// The followed sessions can follow: they are open and have had a view, which has a filter or can't need more
/// coefficients than their clients keep. That is so before the first line, and stays so.
pub fn followed_sessions_can_follow()
    ensures first { (live : LiveState) → live.followed ≡ [] → live.pending ≡ [] → FollowsWell live }
    ensures lines { (line : List ℕ) (frame : Frame) (old new : LiveState) →
        FollowsWell old → LiveReplied (line_text line) frame old new → FollowsWell new }
    ensures groups { (edits : List Edit) (frames : List Frame) (old new : LiveState) →
        FollowsWell old → GroupReplied edits frames old new → FollowsWell new }
    ensures pushes { (frame : Frame) (old new : LiveState) → FollowsWell old → Pushed frame old new → FollowsWell new }
{}

/// So a push is never a refusal: it shows the followed view.
pub fn pushes_show_views()
    ensures { (frame : Frame) (old new : LiveState) → FollowsWell old → Pushed frame old new → ShowsView frame }
{
    followed_views_fit();
}

/// Each line has one answer of a live service, and so have edits that are done together, and each push is one: the frame, and what
/// the service holds behind it, are determined by what it holds before.
pub fn live_replies_are_one()
    ensures lines { LiveRepliesAreOne }
    ensures groups { GroupsAreOne }
    ensures pushes { PushesAreOne }
{
    replies_are_one();
}

/// One edit that is done as a group is answered, and pushed, as the line that spells it. So what is said of groups is said
/// of lines too, of which each is one.
pub fn groups_of_one_are_lines()
    ensures { GroupsOfOneAreLines }
{}

/// The reply to a line by a book is one that may answer the line whatever the book is, and a push of a session that can follow
/// is one that may be pushed.
pub fn live_replies_may_answer()
    ensures lines { (line : Option (List ℕ)) (frame : Frame) (old new : LiveState) → LiveReplied line frame old new
        → MayAnswerLive line frame }
    ensures pushes { (frame : Frame) (old new : LiveState) → FollowsWell old → Pushed frame old new → MayPush frame }
{
    replies_may_answer();
    pushes_show_views();
}
