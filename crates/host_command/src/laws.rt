//! What a client draws of a host's run, and reads of values. The functions do nothing: their contracts are the laws.
ghost use Rattle.std.specs.Prelude.{ℕ, List, Option};
ghost use Rattle.chart_frames.specs.declared.frame.Frame.{Frame};
ghost use Rattle.chart_service.specs.Serving.{told};
ghost use Rattle.chart_service.specs.State.{IsSound};
ghost use Rattle.drawn_replies.specs.Pictures.{NoneRejected};
ghost use Rattle.hosted_lines.specs.Answers.{MayAnswerHost};
ghost use Rattle.hosted_lines.specs.Running.{HostedBy};
ghost use Rattle.live_service.specs.Kinds.{AnswerWithPushes};
ghost use Rattle.live_service.specs.Showing.{IsFirst};
ghost use Rattle.live_service.specs.LiveReplies.{LiveState};
ghost use Rattle.host_command.specs.Laws.{HostsDrawTheBook, OwnHostsAreAccepted, OwnHostsDrawTheBook};
ghost use Rattle.host_command.specs.Values.{ValuesAreTheExport};

use drawn_replies::laws::{clients_draw_requests, one_session_draws_each_frame};
use host_sweeps::laws::{clients_pass_sweeps, sweeps_keep_following};
use live_service::laws::{
    clients_draw_lines, clients_draw_pushes, followed_sessions_can_follow, live_replies_may_answer,
    one_session_draws_live_frames, pushes_show_views,
};
use needed_nodes::laws::points_are_the_samples;
use retention::laws::slots_before_a_time;
use series_export::laws::pieces_are_the_export;

/// A client that is sent all frames of a run draws the pictures of the book: of each line's frame as the book is at
/// that line, of the rows of a sum its chart, of other reports, of a step of a sweep and of the edits of a group
/// nothing, and of each push, which always shows a view, as the book is behind the group or the step.
pub fn hosts_draw_the_book()
    ensures { HostsDrawTheBook }
{
    points_are_the_samples();
    clients_pass_sweeps();
    sweeps_keep_following();
    clients_draw_requests();
    clients_draw_lines();
    clients_draw_pushes();
    followed_sessions_can_follow();
    pushes_show_views();
}

/// Nothing but want of memory keeps it from accepting one of them.
pub fn hosts_are_accepted()
    ensures { (lines : List (Option (List ℕ))) (frames : List Frame) (old new : LiveState) →
        IsSound old.state → IsFirst old → HostedBy lines frames old new → NoneRejected frames }
{
    points_are_the_samples();
    clients_pass_sweeps();
    clients_draw_requests();
    clients_draw_lines();
    clients_draw_pushes();
}

/// What a run by a book sends may be sent whatever the book is: of its frames one answers each line of the input, and all others
/// are pushes.
pub fn hosts_may_answer()
    ensures { (input : List ℕ) (frames : List Frame) (old new : LiveState) →
        IsFirst old → HostedBy (told input) frames old new → AnswerWithPushes MayAnswerHost (told input) frames }
{
    sweeps_keep_following();
    followed_sessions_can_follow();
    pushes_show_views();
    live_replies_may_answer();
}

/// The same of a client that is sent the frames of one session alone, whatever other lines, edits, reports, steps and pushes
/// stand between: it draws that session's pictures of the book, and of its sums their charts.
pub fn own_hosts_draw_the_book()
    ensures { OwnHostsDrawTheBook }
{
    points_are_the_samples();
    sweeps_keep_following();
    one_session_draws_each_frame();
    one_session_draws_live_frames();
    clients_draw_lines();
    clients_draw_pushes();
    followed_sessions_can_follow();
    pushes_show_views();
}

/// Nothing but want of memory keeps it from accepting one of them.
pub fn own_hosts_are_accepted()
    ensures { OwnHostsAreAccepted }
{
    points_are_the_samples();
    one_session_draws_each_frame();
    one_session_draws_live_frames();
    clients_draw_lines();
    clients_draw_pushes();
}

/// The frames that answer `values` for a window, each asked for from where the one before it says, are the export of the
/// window: of their values come its lines, and no other.
pub fn values_are_the_export()
    ensures { ValuesAreTheExport }
{
    slots_before_a_time();
    pieces_are_the_export();
}
