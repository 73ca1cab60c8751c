// Fields of one number, read from the front of bytes.
ghost use Rattle.std.specs.Prelude.{◌≡◌, ◌++◌, IfOk};
ghost use Rattle.chart_frames.specs.Format.{number_bytes};
ghost use Rattle.chart_frames.specs.Reading.{Gives, number_at};
ghost use Rattle.chart_frames.specs.Frames.{unsigned};
ghost use Rattle.chart_frames.specs.Spelled.{signed_bytes};

use byteorder::{BigEndian, ByteOrder};

/// Why a field was not read.
#[derive(Clone, Copy)]
pub enum Stop {
    /// It lacks bytes.
    More,
    /// It breaks its rule. So many bytes stand from its first one on.
    Bad(usize),
}

#[tactic(auto, unfolding(crate::specs::Format::number_in))]
pub fn byte_at(bytes: &[u8]) -> Result<(u8, &[u8]), Stop>
    ensures gives { Gives (λ x. (x.0, x.1.now)) result (number_at 1 bytes.now) }
    ensures takes { IfOk result (λ x. bytes.now ≡ number_bytes 1 x.0 ++ x.1.now) }
{
    if bytes.is_empty() {
        return Err(Stop::More);
    }
    Ok((bytes[0], &bytes[1..]))
}

#[tactic(auto, unfolding(crate::specs::Format::number_in))]
pub fn short_at(bytes: &[u8]) -> Result<(u16, &[u8]), Stop>
    ensures gives { Gives (λ x. (x.0, x.1.now)) result (number_at 2 bytes.now) }
    ensures takes { IfOk result (λ x. bytes.now ≡ number_bytes 2 x.0 ++ x.1.now) }
{
    if bytes.len() < 2 {
        return Err(Stop::More);
    }
    Ok((BigEndian::read_u16(bytes), &bytes[2..]))
}

#[tactic(auto, unfolding(crate::specs::Format::number_in))]
pub fn word_at(bytes: &[u8]) -> Result<(u32, &[u8]), Stop>
    ensures gives { Gives (λ x. (x.0, x.1.now)) result (number_at 4 bytes.now) }
    ensures takes { IfOk result (λ x. bytes.now ≡ number_bytes 4 x.0 ++ x.1.now) }
{
    if bytes.len() < 4 {
        return Err(Stop::More);
    }
    Ok((BigEndian::read_u32(bytes), &bytes[4..]))
}

#[tactic(auto, unfolding(crate::specs::Format::number_in))]
pub fn long_at(bytes: &[u8]) -> Result<(u64, &[u8]), Stop>
    ensures gives { Gives (λ x. (x.0, x.1.now)) result (number_at 8 bytes.now) }
    ensures takes { IfOk result (λ x. bytes.now ≡ number_bytes 8 x.0 ++ x.1.now) }
{
    if bytes.len() < 8 {
        return Err(Stop::More);
    }
    Ok((BigEndian::read_u64(bytes), &bytes[8..]))
}

/// The signed number of eight bytes, the highest first, at the front of the bytes, and the rest.
pub fn signed_at(bytes: &[u8]) -> Result<(i64, &[u8]), Stop>
    ensures gives { Gives (λ x. (unsigned x.0, x.1.now)) result (number_at 8 bytes.now) }
    ensures takes { IfOk result (λ x. bytes.now ≡ signed_bytes x.0 ++ x.1.now) }
{
    let (n, rest) = long_at(bytes)?;
    Ok((n.cast_signed(), rest))
}
