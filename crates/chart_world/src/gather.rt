//! A line that goes on past the piece that it begins in.
ghost use Rattle.std.specs.Prelude.{false, ◌≡◌, ◌≢◌, ◌≤◌, ◌<◌, ◌+◌, ◌-◌, [], IfSome, IsTrue, IfOk, OnOk, OnErr};
ghost use Rattle.block_disk.specs.Counts.{HasRisen};
ghost use Rattle.block_disk.specs.Streams.{left_after};
ghost use Rattle.chart_world.specs.Feed.{pending_of, given_of, HasLine, Gathered};
ghost use Rattle.chart_world.specs.Reading.{in_front_of, behind_first, input_length, HasFeed, IsNone, NoLineIn, Took};

use crate::feed::Feed;
use crate::line_answer::LineFault;
use block_disk::Streams;

impl Feed {
    /// Takes pieces until a line has ended, by a line feed within the limit or by the end of the
    /// input, and passes it. Answers its length, or `None` where no byte was left; the first
    /// 8,192 bytes of it are in the spill. Once a take found the end, none follows.
    pub(crate) fn gather<S: Streams>(&mut self, from: &mut S) -> Result<Option<u64>, LineFault>
        requires ended { IsTrue self.old.ended → IsNone (S.left from.old) }
        ensures line { IfOk result (λ gathered. IfSome gathered
            (λ length. IfSome (in_front_of (pending_of self.old) (S.left from.old))
            (λ bytes. Gathered length self.new.spill.items bytes))) }
        ensures none { result ≡ Ok None → IfSome (in_front_of (pending_of self.old) (S.left from.old)) (λ bytes. bytes ≡ []) }
        // a line without its line feed is given once the end is found
        ensures feed { IfOk result (λ gathered. IfSome gathered (λ length. self.new.ended ≡ false
            → HasFeed (in_front_of (pending_of self.old) (S.left from.old)))) }
        ensures begun { OnOk result (self.new.ended ≡ false → self.old.ended ≡ false) }
        ensures found { result ≡ Ok None → IsTrue self.new.ended }
        ensures ended { OnOk result (IsTrue self.new.ended → IsNone (S.left from.new)) }
        ensures not_ended { result ≡ Err LineFault.ReadFault → self.old.ended ≡ false }
        ensures rest { OnOk result (in_front_of (pending_of self.new) (S.left from.new) ≡ behind_first
            (in_front_of (pending_of self.old) (S.left from.old))) }
        ensures passes { IfOk result (λ gathered. IfSome gathered (λ length. (given_of self.old < given_of self.new)
            × (given_of self.old + length ≤ given_of self.new))) }
        ensures passes_none { result ≡ Ok None → given_of self.new ≡ given_of self.old }
        ensures within { OnOk result (given_of self.new ≤ self.old.limit) }
        ensures read_fault { result ≡ Err LineFault.ReadFault → HasRisen (S.read_faults from.old) (S.read_faults from.new) }
        ensures quiet { result ≢ Err LineFault.ReadFault → S.read_faults from.new ≡ S.read_faults from.old }
        ensures read_before { result ≡ Err LineFault.ReadFault
            → NoLineIn (self.new.taken - given_of self.old) (in_front_of (pending_of self.old) (S.left from.old)) }
        ensures read_within { result ≡ Err LineFault.ReadFault → self.new.taken ≤ self.old.limit }
        ensures past { result ≡ Err LineFault.InputTooLong → self.old.limit < self.new.taken }
        ensures past_before { result ≡ Err LineFault.InputTooLong
            → NoLineIn (self.old.limit - given_of self.old) (in_front_of (pending_of self.old) (S.left from.old)) }
        ensures left_on_err { OnErr result (S.left from.new ≡ left_after (self.new.taken - given_of self.old)
            (in_front_of (pending_of self.old) (S.left from.old))) }
        ensures total { input_length self.new.taken (S.left from.new) ≡ input_length self.old.taken (S.left from.old) }
        ensures forward { self.old.taken ≤ self.new.taken }
        ensures limit { self.new.limit ≡ self.old.limit }
        ensures sent { S.sent from.new ≡ S.sent from.old }
        ensures send_faults { S.send_faults from.new ≡ S.send_faults from.old }
        ensures read_faults { S.read_faults from.old ≤ S.read_faults from.new }
        ensures pieces { S.pieces from.old ≤ S.pieces from.new }
        ensures took { (HasLine self.old → ⊥) → OnOk result
            (Took (S.pieces from.old) (S.pieces from.new) (in_front_of (pending_of self.new) (S.left from.new))) }
        ensures beside { S.takes from.old from.new }
    {
        if self.ended {
            return Ok(None);
        }
        let mut length = 0;
        self.spill.clear();
        loop {
            let before = self.line_feed();
            if before < self.len() && self.given() + (before as u64) < self.limit {
                self.keep(before);
                self.pass(1);
                return Ok(Some(length + before as u64));
            }
            if self.taken > self.limit {
                return Err(LineFault::InputTooLong);
            }
            length += self.len() as u64;
            self.keep(self.len());
            let Ok(count) = self.refill(from) else {
                return Err(LineFault::ReadFault);
            };
            if count == 0 {
                return Ok(if length == 0 { None } else { Some(length) });
            }
        }
    }
}
