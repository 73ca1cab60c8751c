//! A world in memory is a disk with streams beside it.
ghost use Rattle.std.proofs.Common.{◌∙◌};
ghost use Rattle.std.specs.Prelude.{Some, refl};
ghost use Rattle.chart_world.specs.Beside.{streams};
ghost use Rattle.chart_world.specs.SendMoments.{sent_is};
ghost use Rattle.chart_world.specs.Sends.{timed};
ghost use Rattle.chart_world.specs.Timed.{kept_timed, quiet_timed, sends_timed};
ghost use Rattle.chart_world.specs.Worlds.{bytes_left, bytes_sent};

use crate::mem_world::MemWorld;
use block_disk::{Clocked, Disk, Failed, World};

impl<D: Clocked> Disk for MemWorld<D> {
    ghost view = { λ world. timed (D.view world.disk) world.log.items
        (streams (Some (bytes_left world)) (Some (bytes_sent world)) world.read_faults world.send_faults world.pieces) };

    fn blocks(&mut self) -> Result<u32, Failed> {
        self.disk.blocks()
    }

    fn read_block(&mut self, no: u32, out: &mut [u8]) -> Result<(), Failed> {
        self.disk.read_block(no, out)
    }

    fn write_block(&mut self, no: u32, from: &[u8]) -> Result<(), Failed> {
        self.disk.write_block(no, from)
    }

    fn sync(&mut self) -> Result<(), Failed> {
        self.disk.sync()
    }
}

impl<D: Clocked> World for MemWorld<D> {
    ghost beside_left = { λ world. refl };

    ghost beside_sent = { λ world. refl };

    ghost beside_read_faults = { λ world. refl };

    ghost beside_send_faults = { λ world. refl };

    ghost beside_pieces = { λ world. refl };

    ghost counts_sent = { λ world. sent_is (D.view world.disk).clock world.log.items world.dated ∙ world.counted };

    ghost take_keeps = { λ old new same. kept_timed D.view old.disk new.disk old.log.items new.log.items _ _ same.0 old.dated new.dated };

    ghost take_passes = { λ old new same. quiet_timed D.view old.disk new.disk old.log.items new.log.items _ _ _ _ same.0 same.1 };

    ghost send_keeps = { λ most old new sent. kept_timed D.view old.disk new.disk old.log.items new.log.items _ _ sent.0 old.dated
        new.dated };

    ghost send_passes = { λ most old new sent. sends_timed (D.view old.disk)
        (D.view new.disk) old.log.items new.log.items _ _ most sent.1 };

    ghost send_counts = { λ most old new sent. sent.1.count };
}
