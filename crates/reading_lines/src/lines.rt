ghost use Rattle.std.specs.Prelude.{◌≡◌, ◌+◌, ◌<◌, ◌≤◌, ◌++◌, length, drop, vec_len, vec_capacity, IsOk, OnOk, OnErr};
ghost use Rattle.reading_lines.specs.Lines.{reading_line, axis_row, series_line};

use crate::pieces::{put_byte, put_decimal, put_integer, put_natural};
use series_book::{Axis, Name};
use std::alloc::AllocError;

/// Room for the line of a reading, and for that of a series behind its name.
const LONGEST: usize = 96;

/// Appends the line of a reading of a series with this scale. For want of memory nothing is appended; a text with room
/// for the line lacks none.
pub fn add_reading(text: &mut Vec<u8>, scale: u8, time: i64, value: i64) -> Result<(), AllocError>
    requires { scale ≤ 9 }
    ensures line { OnOk result (text.new.items ≡ text.old.items ++ reading_line scale time value) }
    ensures kept { OnErr result (text.new.items ≡ text.old.items) }
    ensures succeeds { vec_len text.old + length (reading_line scale time value) ≤ vec_capacity text.old → IsOk result }
    ensures capacity { vec_capacity text.old ≤ vec_capacity text.new }
{
    let mut line = [0; LONGEST];
    let feed = put_byte(b'\n', &mut line, LONGEST);
    let number = put_decimal(scale, value, &mut line, feed);
    let comma = put_byte(b',', &mut line, number);
    let start = put_integer(time, &mut line, comma);
    text.extend_from_slice(&line[start..])?;
    Ok(())
}

/// Appends the line of a series of this name, axis and scale. For want of memory nothing is appended; a text with room
/// for the line lacks none.
pub fn add_series(text: &mut Vec<u8>, name: &Name, axis: &Axis, scale: u8) -> Result<(), AllocError>
    ensures line { OnOk result (text.new.items ≡ text.old.items ++ series_line name.now axis.now scale) }
    ensures kept { OnErr result (text.new.items ≡ text.old.items) }
    ensures succeeds { vec_len text.old + length (series_line name.now axis.now scale) ≤ vec_capacity text.old → IsOk result }
    ensures capacity { vec_capacity text.old ≤ vec_capacity text.new }
{
    let mut line = [0; LONGEST];
    let feed = put_byte(b'\n', &mut line, LONGEST);
    let row = put_axis(axis, scale, &mut line, feed);
    let start = put_byte(b' ', &mut line, row);
    let before = text.len();
    text.extend_from_slice(name.as_slice())?;
    if text.extend_from_slice(&line[start..]).is_err() {
        text.truncate(before);
        return Err(AllocError);
    }
    Ok(())
}

/// Writes the start, the step, the scale and the number of slots in front of `end`, and says where they start.
fn put_axis(axis: &Axis, scale: u8, line: &mut [u8], end: usize) -> usize
    requires room { 90 ≤ end }
    requires inside { end ≤ length line.old }
    ensures start { 1 ≤ result }
    ensures short { result < end }
    ensures written { drop result line.new ≡ axis_row axis.now scale ++ drop end line.old }
{
    let slots = put_natural(axis.slots, line, end);
    let third = put_byte(b' ', line, slots);
    let places = put_natural(u64::from(scale), line, third);
    let second = put_byte(b' ', line, places);
    let step = put_natural(u64::from(axis.step), line, second);
    let first = put_byte(b' ', line, step);
    put_integer(axis.start, line, first)
}
