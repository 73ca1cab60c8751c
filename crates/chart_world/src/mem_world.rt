//! A world in memory.
ghost use Rattle.std.specs.Prelude.{◌≡◌, length};
ghost use Rattle.chart_world.specs.Sends.{DatedBy, bytes_after};

use crate::sent_log::Sent;
use block_disk::Clocked;

/// Streams in memory, over any disk that tells its moment. They tell their bytes.
///
/// A take fills its buffer as far as bytes are left. Takes and sends are each counted from 0, and
/// those that the two lists name fail. A send that fails so sends the first half of its piece; one
/// that finds no memory fails too, and sends nothing. Each send is a moment of its own, between those
/// of the disk.
#[derive(Drop)]
pub struct MemWorld<D: Clocked> {
    pub(crate) disk: D,
    pub(crate) input: Vec<u8>,
    pub(crate) at: usize,
    pub(crate) sent: Vec<u8>,
    pub(crate) log: Vec<Sent>,
    pub(crate) take_fails: Vec<u64>,
    pub(crate) send_fails: Vec<u64>,
    pub(crate) takes: u64,
    pub(crate) sends: u64,
    pub(crate) read_faults: u64,
    pub(crate) send_faults: u64,
    pub(crate) pieces: u64,
    ghost dated: { DatedBy (D.view disk).clock log.items },
    ghost counted: { bytes_after 0 log.items ≡ length sent.items },
}
