//! Frames that come in small pieces: a long one, and reports.
ghost use Rattle.std.specs.Prelude.{◌<◌};

use chart_frames::{Decoder, encode};
use std::alloc::Global;
use std::test::Fail;

/// A view of 2^28 slots up to the number of its coefficients, which is the greatest.
const GREATEST: &str =
    "0 50 0 84  5  0 0 0 1  1 255  16 0  16 0  0 0 0 0 0 0 0 0  0 0 0 0 16 0 0 0  0 0 0 0 0 0 0 2  0 0 0 0 0 0 0 7
    0 0 0 0 0 0 0 0  0 0 0 1  0 0 0 0 16 0 0 0  1  0 0 0 0 0 0 0 2  0 0 0 0 0 0 0 7  0 2 0 0";

/// The worked stream of reports of docs/FORMATS.md: a catalog of two series, values in two runs, and a sweep.
const REPORTS: &str =
    "0 0 0 151  8  0 0 0 10  0 0 0 5  0 2  1  97 0 0 0 0 0 0 0 0 0 0 0 0 0 0 0 0 0 0 0 0 0 0 0 0 0 0 0 0 0 0  0
    0 0 0 0 0 0 0 0  0 0 0 1  0 0 0 0 0 0 0 4  1  0 0 0 0 0 0 0 2  0 0 0 0 0 0 0 7
    3  98 46 99 0 0 0 0 0 0 0 0 0 0 0 0 0 0 0 0 0 0 0 0 0 0 0 0 0 0 0 0  2  255 255 255 255 255 255 255 251  0 0 0 60
    0 0 0 0 0 0 0 0  0  0 0 0 0 0 0 0 0  0 0 0 0 0 0 0 0
    0 0 0 72  9  0 1  1  0 0 0 0 0 0 0 40  0 2  0 3  0 0 0 0 0 0 0 5  0 0 0 0 0 0 0 2  0 0 0 0 0 0 0 9
    0 0 0 0 0 0 0 1  0 0 0 0 0 0 0 4  255 255 255 255 255 255 255 255  0 0 0 0 0 0 0 7
    0 0 0 8  10  0 64  0 0 0 99  1";

/// The bytes that a text has as numbers.
fn bytes_of(alloc: Global, text: &str) -> Result<Vec<u8>, Fail> {
    let mut bytes = Vec::new(alloc);
    for word in text.split_whitespace() {
        bytes.push(word.parse()?)?;
    }
    Ok(bytes)
}

/// The bytes of the greatest view.
fn greatest(alloc: Global) -> Result<Vec<u8>, Fail> {
    let mut bytes = bytes_of(alloc, GREATEST)?;
    for index in 0..131_072u32 {
        bytes.extend_from_slice(&[0, 0, 1, 0])?;
        bytes.extend_from_slice(&index.to_be_bytes())?;
        bytes.extend_from_slice(&[1, 0, 0, 0, 0, 0, 0, 0, 0, 0, 0, 0, 0, 0, 0, 0, 0])?;
    }
    Ok(bytes)
}

/// Appends the spelling of the frame that ends within a piece, if one does.
fn pass(alloc: Global, decoder: &mut Decoder, piece: &[u8], out: &mut Vec<u8>) -> Result<(), Fail> {
    decoder.feed(piece)?;
    if let Some(frame) = decoder.next()? {
        out.extend_from_slice(&encode(alloc, &frame)?)?;
    }
    Ok(())
}

/// The greatest view comes in pieces of 50 bytes, and between them the decoder is asked for a frame. It keeps the place
/// that it has reached: one that read from the front at each call would read 4 * 10^9 coefficients.
#[test]
fn a_view_comes_in_small_pieces(rt: HostRuntime) -> Result<(), Fail> {
    let alloc = rt.alloc();
    let bytes = greatest(alloc)?;
    let mut decoder = Decoder::new(alloc);
    let mut out = Vec::new(alloc);
    for piece in bytes.chunks(50) {
        pass(alloc, &mut decoder, piece, &mut out)?;
    }
    assert!(rt; out == bytes);
    Ok(())
}

/// What comes out of a decoder that reports go into, in pieces of this size.
fn passed(alloc: Global, size: usize) -> Result<Vec<u8>, Fail>
    requires { 0 < size }
{
    let mut decoder = Decoder::new(alloc);
    let mut out = Vec::new(alloc);
    for piece in bytes_of(alloc, REPORTS)?.chunks(size) {
        pass(alloc, &mut decoder, piece, &mut out)?;
    }
    Ok(out)
}

/// Reports have one spelling, in pieces of one byte and of seven.
#[test]
fn reports_come_in_small_pieces(rt: HostRuntime) -> Result<(), Fail> {
    let alloc = rt.alloc();
    let bytes = bytes_of(alloc, REPORTS)?;
    assert!(rt; passed(alloc, 1)? == bytes);
    assert!(rt; passed(alloc, 7)? == bytes);
    Ok(())
}
