//! Numbers of sessions in rising order.
ghost use Rattle.std.specs.Prelude.{◌≡◌, IfOk, nat_lt, filter};
ghost use Rattle.live_view.specs.Numbers.{with_number, without_number};

use std::alloc::{AllocError, Global};

/// The numbers with one more, in rising order where they rise.
pub(crate) fn with_number(
    alloc: Global,
    numbers: &[u32],
    number: u32,
) -> Result<Vec<u32>, AllocError>
    ensures { IfOk result (λ all. all.items ≡ with_number number numbers.now) }
{
    let mut all = below(alloc, numbers, number)?;
    all.push(number)?;
    let above = above(alloc, numbers, number)?;
    all.extend_from_slice(&above)?;
    Ok(all)
}

/// Those below a number.
fn below(alloc: Global, numbers: &[u32], number: u32) -> Result<Vec<u32>, AllocError>
    ensures { IfOk result (λ below. below.items ≡ filter (λ other. nat_lt other number) numbers.now) }
{
    let below = numbers
        .iter()
        .copied()
        .filter(|other| *other < number)
        .collect(alloc)?;
    Ok(below)
}

/// Those above it.
fn above(alloc: Global, numbers: &[u32], number: u32) -> Result<Vec<u32>, AllocError>
    ensures { IfOk result (λ above. above.items ≡ filter (λ other. nat_lt number other) numbers.now) }
{
    let above = numbers
        .iter()
        .copied()
        .filter(|other| number < *other)
        .collect(alloc)?;
    Ok(above)
}

/// Takes a number out, where it is there.
pub(crate) fn take_out(numbers: &mut Vec<u32>, number: u32)
    ensures { numbers.new.items ≡ without_number number numbers.old.items }
{
    numbers.retain(|other| *other != number);
}

/// A copy of the numbers.
pub(crate) fn copy_of(alloc: Global, numbers: &[u32]) -> Result<Vec<u32>, AllocError>
    ensures { IfOk result (λ copy. copy.items ≡ numbers.now) }
{
    let copy = Vec::from_slice(alloc, numbers)?;
    Ok(copy)
}
