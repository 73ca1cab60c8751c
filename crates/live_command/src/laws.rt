//! What a client draws of a run. The functions do nothing: their contracts are the laws.
ghost use Rattle.std.specs.Prelude.{ℕ, List, Option};
ghost use Rattle.chart_frames.specs.declared.frame.Frame.{Frame};
ghost use Rattle.chart_service.specs.Serving.{told};
ghost use Rattle.chart_service.specs.State.{IsSound};
ghost use Rattle.drawn_replies.specs.Pictures.{NoneRejected};
ghost use Rattle.live_service.specs.Kinds.{AnswerWithPushes, MayAnswerLive};
ghost use Rattle.live_service.specs.Showing.{IsFirst};
ghost use Rattle.hosted_lines.specs.Lives.{LivesBy};
ghost use Rattle.live_service.specs.LiveReplies.{LiveState};
ghost use Rattle.live_command.specs.Laws.{OwnRunsAreAccepted, OwnRunsDrawTheBook, RunsDrawTheBook};

use live_service::laws::{
    clients_draw_lines, clients_draw_pushes, followed_sessions_can_follow, live_replies_may_answer,
    one_session_draws_live_frames, pushes_show_views,
};

/// A client that is sent all frames of a run draws the pictures of the book: of each line's frame as the book is at
/// that line, and of each push, which always shows a view, as it is behind the edit.
pub fn runs_draw_the_book()
    ensures { RunsDrawTheBook }
{
    clients_draw_lines();
    clients_draw_pushes();
    followed_sessions_can_follow();
    pushes_show_views();
}

/// Nothing but want of memory keeps it from accepting one of them.
pub fn runs_are_accepted()
    ensures { (lines : List (Option (List ℕ))) (frames : List Frame) (old new : LiveState) →
        IsSound old.state → IsFirst old → LivesBy lines frames old new → NoneRejected frames }
{
    clients_draw_lines();
    clients_draw_pushes();
}

/// What a run by a book sends may be sent whatever the book is: of its frames one answers each line of the input, and all others
/// are pushes.
pub fn runs_may_answer()
    ensures { (input : List ℕ) (frames : List Frame) (old new : LiveState) →
        IsFirst old → LivesBy (told input) frames old new → AnswerWithPushes MayAnswerLive (told input) frames }
{
    followed_sessions_can_follow();
    pushes_show_views();
    live_replies_may_answer();
}

/// The same of a client that is sent the frames of one session alone, whatever other lines, edits and pushes stand between: it
/// draws that session's pictures of the book.
pub fn own_runs_draw_the_book()
    ensures { OwnRunsDrawTheBook }
{
    one_session_draws_live_frames();
    clients_draw_lines();
    clients_draw_pushes();
    followed_sessions_can_follow();
    pushes_show_views();
}

/// Nothing but want of memory keeps it from accepting one of them.
pub fn own_runs_are_accepted()
    ensures { OwnRunsAreAccepted }
{
    one_session_draws_live_frames();
    clients_draw_lines();
}
