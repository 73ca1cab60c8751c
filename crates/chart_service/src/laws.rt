//! What follows from the definitions. The functions do nothing: their contracts are the laws.

ghost use Rattle.std.specs.Prelude.{◌≡◌, ℕ, false, List, Option};
ghost use Rattle.chart_frames.specs.declared.frame.Frame.{Frame};
ghost use Rattle.request_lines.specs.declared.requests.Request.{Request};
ghost use Rattle.chart_service.specs.State.{State};
ghost use Rattle.chart_service.specs.Alone.{alone};
ghost use Rattle.chart_service.specs.Kinds.{MayAnswerLine};
ghost use Rattle.chart_service.specs.Naming.{NameOpen, NameOpened};
ghost use Rattle.chart_service.specs.Replies.{Replies, RepliesToLine};
ghost use Rattle.chart_service.specs.Syncing.{FirstLinesSyncLess};
ghost use Rattle.chart_service.specs.Laws.{SessionsStandAlone, OwnFramesAreTheSame, FramesAreOne};

use m4_groups::laws::rows_are_one;
use value_filter::laws::a_text_is_read_in_one_way;

/// The frames of a session depend on the edits and on its own lines alone: a service without the
/// other sessions, which gets no line of theirs, answers these lines by the same frames. So they are
/// the same whatever lines of other sessions stand between. Only where 16 sessions are open do other
/// sessions keep one from being opened.
pub fn sessions_stand_alone()
    ensures alone { SessionsStandAlone }
    ensures same { OwnFramesAreTheSame }
{
    rows_are_one();
    a_text_is_read_in_one_way();
}

/// Each line and each request has one reply: what is answered, and the state after it, is determined
/// by the state before it. So are all frames of an input's lines.
pub fn replies_are_one()
    ensures line { (line : Option (List ℕ)) (frame other : Frame) (old new behind : State) →
        RepliesToLine line frame old new → RepliesToLine line other old behind → (frame ≡ other) × (new ≡ behind) }
    ensures lines { FramesAreOne }
    ensures request { (request : Request) (frame other : Frame) (old new behind : State) →
        Replies request frame old new → Replies request other old behind → (frame ≡ other) × (new ≡ behind) }
{
    rows_are_one();
    a_text_is_read_in_one_way();
}

/// What some first lines of an input may sync, the whole input may: four times for each line that is no
/// edit, for each piece that is taken, for each 64 edits and for each 22 of their weight, and eight times
/// more.
pub fn first_lines_sync_less()
    ensures { FirstLinesSyncLess }
{}

/// Where no session is open before the frames of a run, each of them that closes a session or answers in it
/// names one that a frame before it opened, and that none in between closed.
pub fn frames_name_opened_sessions()
    ensures { (frames : List Frame) → NameOpen (λ n. false) frames → NameOpened frames }
{}

/// The reply to a line by a book is one that may answer the line whatever the book is.
pub fn replies_may_answer()
    ensures { (line : Option (List ℕ)) (frame : Frame) (old new : State) → RepliesToLine line frame old new → MayAnswerLine line frame }
{}
