//! Standard input and output.
ghost use Rattle.std.proofs.Common.{◌∙◌};
ghost use Rattle.std.specs.Prelude.{◌≡◌, None, refl};
ghost use Rattle.chart_world.specs.Beside.{beside, streams};
ghost use Rattle.chart_world.specs.BesideKept.{disk_kept, disk_passes, disk_sent};

use crate::count_one::count_one;
use block_disk::{Disk, Failed, Streams, World};
use std::io;
use std::io::{Read, Write};

/// Standard input and output, over any disk. They tell no bytes.
#[derive(Drop)]
pub struct StdWorld<R, D> {
    rt: R,
    disk: D,
    read_faults: u64,
    send_faults: u64,
    pieces: u64,
}

impl<R: Input + Print, D> StdWorld<R, D> {
    /// The streams of this runtime, of which nothing was asked yet.
    pub fn new(rt: R, disk: D) -> StdWorld<R, D>
        ensures disk { result.disk ≡ disk }
        ensures counts { (result.read_faults ≡ 0) × (result.send_faults ≡ 0) × (result.pieces ≡ 0) }
    {
        StdWorld {
            rt,
            disk,
            read_faults: 0,
            send_faults: 0,
            pieces: 0,
        }
    }
}

impl<R: Input + Print + Drop, D: Drop> Streams for StdWorld<R, D> {
    ghost left = { λ world. None };

    ghost sent = { λ world. None };

    ghost read_faults = { λ world. world.read_faults };

    ghost send_faults = { λ world. world.send_faults };

    ghost pieces = { λ world. world.pieces };

    ghost takes = { λ old new. new.disk ≡ old.disk };

    ghost sends = { λ count old new. new.disk ≡ old.disk };

    fn take(&mut self, buf: &mut [u8]) -> Result<usize, Failed> {
        let Ok(count) = self.rt.reader().read(buf) else {
            count_one(&mut self.read_faults);
            return Err(Failed);
        };
        if count > 0 {
            count_one(&mut self.pieces);
        }
        Ok(count)
    }

    fn send(&mut self, piece: &[u8]) -> Result<(), Failed> {
        let mut sent = 0;
        while sent < piece.len() {
            match io::writer(&self.rt).write(&piece[sent..]) {
                Ok(count) if count > 0 => sent += count,
                _ => {
                    count_one(&mut self.send_faults);
                    return Err(Failed);
                }
            }
        }
        Ok(())
    }

    ghost takes_none = { λ at. refl };

    ghost takes_then = { λ old between new first second. second ∙ first };

    ghost sends_none = { λ at. refl };

    ghost sends_more = { λ count more old new at_most same. same };

    ghost sends_then = { λ first second old between new one two. two ∙ one };
}

impl<R: Input + Print + Drop, D: Disk> Disk for StdWorld<R, D> {
    ghost view = { λ world. beside (D.view world.disk) (streams None None world.read_faults world.send_faults world.pieces) };

    fn blocks(&mut self) -> Result<u32, Failed> {
        self.disk.blocks()
    }

    fn read_block(&mut self, no: u32, out: &mut [u8]) -> Result<(), Failed> {
        self.disk.read_block(no, out)
    }

    fn write_block(&mut self, no: u32, from: &[u8]) -> Result<(), Failed> {
        self.disk.write_block(no, from)
    }

    fn sync(&mut self) -> Result<(), Failed> {
        self.disk.sync()
    }
}

impl<R: Input + Print + Drop, D: Disk> World for StdWorld<R, D> {
    ghost beside_left = { λ world. refl };

    ghost beside_sent = { λ world. refl };

    ghost beside_read_faults = { λ world. refl };

    ghost beside_send_faults = { λ world. refl };

    ghost beside_pieces = { λ world. refl };

    ghost counts_sent = { λ world. tt };

    ghost take_keeps = { λ old new same. disk_kept D.view old.disk new.disk _ _ same };

    ghost take_passes = { λ old new same. disk_passes D.view old.disk new.disk _ _ _ _ same };

    ghost send_keeps = { λ most old new same. disk_kept D.view old.disk new.disk _ _ same };

    ghost send_passes = { λ most old new same. disk_passes D.view old.disk new.disk _ _ _ _ same };

    ghost send_counts = { λ most old new same. disk_sent D.view old.disk new.disk most same };
}
