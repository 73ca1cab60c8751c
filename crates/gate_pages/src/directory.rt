//! The directory of the journal.
ghost use Rattle.std.specs.Prelude.{◌≡◌, ◌≤◌, ◌+◌, ◌*◌, ℕ, Some, length, take, drop, option_map, IfSome, IsTrue};
ghost use Rattle.std.specs.Int.{w32, to_be_bytes};
ghost use Rattle.std.specs.List.{starts_with};
ghost use Rattle.std.proofs.Math.Dec.{eqb};
ghost use Rattle.block_disk.specs.Blocks.{IsBlock};
ghost use Rattle.block_disk.specs.MemDisk.{replaced};
ghost use Rattle.gate_pages.specs.Batch.{numbers, is_distinct, is_one_of, all_below as every_below};
ghost use Rattle.gate_pages.specs.Entries.{entries};
ghost use Rattle.gate_pages.specs.Journal.{magic, number_at as number_from, numbers_in, directory as told_by};

use crate::batch::Batch;
use crate::layout::{MAGIC, MOST};
use arrayvec::ArrayVec;

/// The page numbers of a directory: at most 64.
pub(crate) type Numbers = ArrayVec<u32, MOST>;

/// Puts bytes in the place of those from an offset on.
fn put_bytes(block: &mut [u8], start: usize, from: &[u8])
    requires { start + length from.now ≤ length block.old }
    ensures { block.new ≡ replaced block.old start from.now }
{
    block[start..start + from.len()].copy_from_slice(from);
}

/// Puts a number at an offset.
fn put_number(block: &mut [u8], offset: usize, number: u32)
    requires { offset + 4 ≤ length block.old }
    ensures { block.new ≡ replaced block.old offset (to_be_bytes w32 number) }
{
    put_bytes(block, offset, &number.to_be_bytes());
}

/// Puts the page numbers of a batch, from byte 12 on.
fn put_numbers(block: &mut [u8], batch: &Batch)
    requires whole { IsBlock block.old }
    ensures numbers { numbers_in block.new (length (entries batch.now)) ≡ numbers (entries batch.now) }
    ensures front { (at size : ℕ) → at + size ≤ 12 → take size (drop at block.new) ≡ take size (drop at block.old) }
{
    for i in 0..batch.len() {
        let number = batch.number(i);
        put_number(block, 12 + 4 * i, number);
    }
}

/// Makes a block the directory of a batch.
pub(crate) fn write_directory(block: &mut [u8], batch: &Batch)
    requires whole { IsBlock block.old }
    ensures { (count : ℕ) → IsTrue (every_below count (numbers (entries batch.now)))
        → told_by count block.new ≡ Some (numbers (entries batch.now)) }
{
    block.fill(0);
    put_bytes(block, 0, &MAGIC);
    put_number(block, 8, batch.len() as u32);
    put_numbers(block, batch);
}

/// The number at an offset.
#[tactic(auto, unfolding(crate::specs::Journal::number_at))]
fn number_at(block: &[u8], offset: usize) -> u32
    requires { offset + 4 ≤ length block.now }
    ensures { result ≡ number_from block.now offset }
{
    let (_, rest) = block.split_at(offset);
    let (front, _) = rest.split_at(4);
    u32::from_be_bytes([front[0], front[1], front[2], front[3]])
}

/// So many page numbers, from byte 12 on.
#[tactic(auto, using(crate::proofs::Directories::numbers_more))]
fn numbers_from(block: &[u8], count: usize) -> Numbers
    requires whole { IsBlock block.now }
    requires few { count ≤ 64 }
    ensures numbers { result.items ≡ numbers_in block.now count }
{
    let mut found = ArrayVec::new();
    for i in 0..count {
        let number = number_at(block, 12 + 4 * i);
        found.push(number);
    }
    found
}

/// Whether each number is below the count.
fn all_below(numbers: &[u32], count: u32) -> bool
    ensures { result ≡ every_below count numbers.now }
{
    for number in numbers {
        if *number >= count {
            return false;
        }
    }
    true
}

/// Whether a number is one of these.
fn is_among(numbers: &[u32], number: u32) -> bool
    ensures { result ≡ is_one_of numbers.now number }
{
    for other in numbers {
        if *other == number {
            return true;
        }
    }
    false
}

/// Whether no number stands twice.
fn all_distinct(numbers: &[u32]) -> bool
    ensures { result ≡ is_distinct numbers.now }
{
    let mut rest = numbers;
    while let [first, others @ ..] = rest {
        if is_among(others, *first) {
            return false;
        }
        rest = others;
    }
    true
}

/// Whether a block begins as a directory.
fn is_marked(block: &[u8]) -> bool
    ensures { result ≡ starts_with eqb block.now magic }
{
    block.starts_with(&MAGIC)
}

/// The page numbers of a directory that keeps its layout.
#[tactic(auto, using(crate::proofs::Directories::no_mark, crate::proofs::Directories::too_many, crate::proofs::Directories::some_above, crate::proofs::Directories::some_twice, crate::proofs::Directories::keeps_all))]
pub(crate) fn directory(block: &[u8], count: u32) -> Option<Numbers>
    requires whole { IsBlock block.now }
    ensures directory { option_map (λ ns. ns.items) result ≡ told_by count block.now }
    ensures few { IfSome result (λ ns. length ns.items ≤ 64) }
    ensures below { IfSome result (λ ns. IsTrue (every_below count ns.items)) }
    ensures distinct { IfSome result (λ ns. IsTrue (is_distinct ns.items)) }
{
    if !is_marked(block) {
        return None;
    }
    let many = number_at(block, 8) as usize;
    if many > MOST {
        return None;
    }
    let numbers = numbers_from(block, many);
    if !all_below(numbers.as_slice(), count) {
        return None;
    }
    if !all_distinct(numbers.as_slice()) {
        return None;
    }
    Some(numbers)
}
