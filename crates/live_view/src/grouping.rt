//! Edits are done together, and pushed together.
ghost use Rattle.std.specs.Prelude.{◌≡◌, ◌≤◌, ◌<◌, All, length, IfOk, IfErr, OnOk};
ghost use Rattle.chart_frames.specs.Frames.{Fits};
ghost use Rattle.series_book.specs.Edits.{IsEdit};
ghost use Rattle.zoom_session.specs.Sessions.{session_of, last_of};
ghost use Rattle.live_view.specs.declared.meaning.Meaning.TheVariants.{Edit as EditOf};
ghost use Rattle.live_view.specs.Groups.{AddsChanged, ArePushedTo, followers_of, is_one, shows_one};
ghost use Rattle.live_view.specs.Meaning.{name_of};
ghost use Rattle.live_view.specs.Replies.{Changes};

use crate::errors::LiveFault;
use crate::live::Live;
use crate::numbers::copy_of;
use crate::stepper::Stepper;
use chart_frames::Frame;
use series_book::{Edit, Name};
use std::alloc::{AllocError, Global};

impl<S: Stepper> Live<S> {
    ghost use Rattle.live_view.specs.Live as live;

    /// Does 1 to 64 edits together, and answers each by its frame. Pushes may be pending then: one for each session that
    /// follows a series of which an edit was done, also one that left the book as it was. So a group of one edit is what
    /// `step_line` does of its line.
    ///
    /// After a fault no push is pending. After `NoMemory` the edits are done, and after a fault of the stepper some of them
    /// may be.
    pub fn step_edits(&mut self, edits: &[Edit]) -> Result<Vec<Frame>, LiveFault<S::Fault>>
        requires idle { live.IsIdle self.old }
        requires fit { S.fit self.old.stepper }
        requires some { 0 < length edits.now }
        requires few { length edits.now ≤ 64 }
        requires are_edits { All IsEdit edits.now }
        ensures reply { IfOk result (λ frames. live.DoesEdits edits.now frames.items self.old self.new) }
        ensures each { IfOk result (λ frames. length frames.items ≡ length edits.now) }
        ensures fits { IfOk result (λ frames. All Fits frames.items) }
        ensures fails { IfErr result (λ fault. live.EditsFail edits.now fault self.old self.new) }
        ensures fit { OnOk result (S.fit self.new.stepper) }
    {
        match self.stepper.step_edits(edits) {
            Ok(frames) => {
                let pushed = pushed_to(
                    self.alloc,
                    &self.stepper,
                    edits,
                    frames.as_slice(),
                    &self.followed,
                )?;
                self.pending = pushed;
                Ok(frames)
            }
            Err(fault) => Err(LiveFault::Stepper(fault)),
        }
    }
}

/// The followed sessions that edits are pushed to, which were answered by these frames.
fn pushed_to<S: Stepper>(
    alloc: Global,
    stepper: &S,
    edits: &[Edit],
    frames: &[Frame],
    followed: &[u32],
) -> Result<Vec<u32>, AllocError>
    ensures { IfOk result (λ pushed. ArePushedTo (S.names stepper.now)
        (S.sessions stepper.now) edits.now frames.now followed.now pushed.items) }
{
    let mut series = Vec::new(alloc);
    add_changed(stepper, edits, frames, &mut series)?;
    let followed = copy_of(alloc, followed)?;
    Ok(followers_of(stepper, series.as_slice(), followed))
}

/// Puts the series of each edit that was done behind the others.
fn add_changed<S: Stepper>(
    stepper: &S,
    edits: &[Edit],
    frames: &[Frame],
    series: &mut Vec<Option<u16>>,
) -> Result<(), AllocError>
    ensures { OnOk result (AddsChanged (S.names stepper.now) edits.now frames.now series.old.items series.new.items) }
{
    match edits.split_first() {
        Some((edit, later)) => match frames.split_first() {
            Some((frame, others)) => {
                series.push(changed_by(stepper, edit, frame))?;
                add_changed(stepper, later, others, series)
            }
            None => Ok(()),
        },
        None => Ok(()),
    }
}

/// The series of an edit that was done, as the frame says that answers it, if it was.
fn changed_by<S: Stepper>(stepper: &S, edit: &Edit, frame: &Frame) -> Option<u16>
    ensures { Changes (S.names stepper.now) (EditOf (name_of edit.now)) frame.now result }
{
    match frame {
        Frame::Done { .. } => stepper.series_id(name_in(edit)),
        _ => None,
    }
}

/// The name of the series that an edit changes.
fn name_in(edit: &Edit) -> &Name
    ensures { result.now ≡ name_of edit.now }
{
    match edit {
        Edit::Create { name, .. } => name,
        Edit::Append { name, .. } => name,
        Edit::Set { name, .. } => name,
        Edit::Clear { name, .. } => name,
    }
}

/// Of the followed sessions, those whose last view is one of one of these series.
fn followers_of<S: Stepper>(stepper: &S, series: &[Option<u16>], mut followed: Vec<u32>) -> Vec<u32>
    ensures { result.items ≡ followers_of series.now (S.sessions stepper.now) followed.items }
{
    followed.retain(|session| shows_one(stepper, series, *session));
    followed
}

/// Whether the last view of a session is one of one of these series.
fn shows_one<S: Stepper>(stepper: &S, series: &[Option<u16>], session: u32) -> bool
    ensures { result ≡ shows_one series.now (last_of (session_of session (S.sessions stepper.now))) }
{
    match stepper.last_view(session) {
        Some(view) => is_one(view.series, series),
        None => false,
    }
}

/// Whether the id is one of these.
fn is_one(id: u16, series: &[Option<u16>]) -> bool
    ensures { result ≡ is_one id series.now }
{
    match series.split_first() {
        Some((Some(other), others)) => id == *other || is_one(id, others),
        Some((None, others)) => is_one(id, others),
        None => false,
    }
}
