//! The calls of a disk in memory.
ghost use Rattle.std.specs.Prelude.{◌≡◌, ◌≤◌, ◌++◌, ◌∷◌, [], ◌*◌, ◌+◌, length, IsErr, IsTrue, Contains, ◌↔◌, OnOk, OnErr};
ghost use Rattle.block_disk.specs.Blocks.{block_size, IsBlock};
ghost use Rattle.block_disk.specs.Counts.{HasRisen, counted};
ghost use Rattle.block_disk.specs.MemDisk.{mem_view, blocks_of, put, replaced};
ghost use Rattle.block_disk.specs.Record.{call_fits};

use crate::count_one::count_one;
use crate::mem_disk::{Call, MemDisk};
use crate::{BLOCK, Disk, Failed};

impl MemDisk {
    /// Counts a call. Fails where the list names it.
    fn begin(&mut self) -> Result<(), Failed>
        ensures named { IsErr result ↔ Contains self.old.fails.items self.old.calls }
        ensures counted { self.new.calls ≡ counted self.old.calls }
        ensures cause { OnErr result (HasRisen self.old.faults self.new.faults) }
        ensures quiet { OnOk result (self.new.faults ≡ self.old.faults) }
        ensures faults { self.old.faults ≤ self.new.faults }
        ensures record { self.new.record.items ≡ self.old.record.items }
        ensures blocks { self.new.blocks ≡ self.old.blocks }
        ensures bytes { self.new.bytes.items ≡ self.old.bytes.items }
        ensures reads { self.new.reads ≡ self.old.reads }
        ensures syncs { self.new.syncs ≡ self.old.syncs }
        ensures writes { self.new.writes ≡ self.old.writes }
    {
        let fails = self.fails.contains(&self.calls);
        count_one(&mut self.calls);
        if fails {
            return Err(self.fault());
        }
        Ok(())
    }

    /// Puts a call into the record. Fails where there is no memory for it; no fault is counted.
    fn keep(&mut self, call: Call) -> Result<(), Failed>
        requires { IsTrue (call_fits self.old.blocks call) }
        ensures ok { OnOk result (self.new.record.items ≡ self.old.record.items ++ call ∷ []) }
        ensures err { OnErr result (self.new.record.items ≡ self.old.record.items) }
        ensures faults { self.new.faults ≡ self.old.faults }
        ensures blocks { self.new.blocks ≡ self.old.blocks }
        ensures bytes { self.new.bytes.items ≡ self.old.bytes.items }
        ensures reads { self.new.reads ≡ self.old.reads }
        ensures syncs { self.new.syncs ≡ self.old.syncs }
        ensures writes { self.new.writes ≡ self.old.writes }
    {
        if self.record.push(call).is_err() {
            return Err(Failed);
        }
        Ok(())
    }

    /// Notes a call in the record. Fails, with a fault, where there is no memory for it.
    fn note(&mut self, call: Call) -> Result<(), Failed>
        requires { IsTrue (call_fits self.old.blocks call) }
        ensures ok { OnOk result (self.new.record.items ≡ self.old.record.items ++ call ∷ []) }
        ensures err { OnErr result (self.new.record.items ≡ self.old.record.items) }
        ensures cause { OnErr result (HasRisen self.old.faults self.new.faults) }
        ensures quiet { OnOk result (self.new.faults ≡ self.old.faults) }
        ensures faults { self.old.faults ≤ self.new.faults }
        ensures blocks { self.new.blocks ≡ self.old.blocks }
        ensures bytes { self.new.bytes.items ≡ self.old.bytes.items }
        ensures reads { self.new.reads ≡ self.old.reads }
        ensures syncs { self.new.syncs ≡ self.old.syncs }
        ensures writes { self.new.writes ≡ self.old.writes }
    {
        let Ok(()) = self.keep(call) else {
            return Err(self.fault());
        };
        Ok(())
    }

    /// Counts a fault.
    fn fault(&mut self) -> Failed
        ensures cause { HasRisen self.old.faults self.new.faults }
        ensures faults { self.old.faults ≤ self.new.faults }
        ensures others { self.new ≡ record self.old { faults = self.new.faults } }
    {
        count_one(&mut self.faults);
        Failed
    }
}

/// Puts bytes in place of those from a place on.
fn replace(bytes: &mut Vec<u8>, start: usize, from: &[u8])
    requires { start + length from.now ≤ length bytes.old.items }
    ensures replaced { bytes.new.items ≡ replaced bytes.old.items start from.now }
    ensures len { length bytes.new.items ≡ length bytes.old.items }
{
    replace_in(bytes.as_mut_slice(), start, from);
}

/// The same in a slice.
fn replace_in(bytes: &mut [u8], start: usize, from: &[u8])
    requires { start + length from.now ≤ length bytes.old }
    ensures { bytes.new ≡ replaced bytes.old start from.now }
{
    bytes[start..start + from.len()].copy_from_slice(from);
}

/// Puts a block in place of another.
pub(crate) fn replace_block(bytes: &mut Vec<u8>, no: u32, block: &[u8])
    requires whole { IsBlock block.now }
    requires within { block_size * no + block_size ≤ length bytes.old.items }
    ensures put { blocks_of bytes.new.items ≡ put no block.now (blocks_of bytes.old.items) }
    ensures len { length bytes.new.items ≡ length bytes.old.items }
{
    replace(bytes, BLOCK * no as usize, block);
}

impl Disk for MemDisk {
    ghost view = { mem_view };

    fn blocks(&mut self) -> Result<u32, Failed> {
        self.begin()?;
        self.note(Call::Asked)?;
        Ok(self.blocks)
    }

    fn read_block(&mut self, no: u32, out: &mut [u8]) -> Result<(), Failed> {
        count_one(&mut self.reads);
        self.begin()?;
        self.note(Call::Asked)?;
        let start = BLOCK * no as usize;
        let bytes = self.bytes.as_slice();
        out.copy_from_slice(&bytes[start..start + BLOCK]);
        Ok(())
    }

    fn write_block(&mut self, no: u32, from: &[u8]) -> Result<(), Failed> {
        count_one(&mut self.writes);
        let begun = self.begin();
        let start = BLOCK * no as usize;
        let bytes = self.bytes.as_slice();
        let Ok(block) = Vec::from_slice(self.alloc, &bytes[start..start + BLOCK]) else {
            begun?;
            return Err(self.fault());
        };
        let Ok(()) = self.keep(Call::Wrote(no, block)) else {
            begun?;
            return Err(self.fault());
        };
        begun?;
        replace(&mut self.bytes, start, from);
        Ok(())
    }

    fn sync(&mut self) -> Result<(), Failed> {
        count_one(&mut self.syncs);
        self.begin()?;
        self.note(Call::Synced)?;
        Ok(())
    }
}
