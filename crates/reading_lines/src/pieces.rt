//! Pieces of a line, written from its end to its front. Each call writes the bytes in front of `end` and says where they start.
ghost use Rattle.std.specs.Prelude.{◌≡◌, ◌+◌, ◌^◌, ◌<◌, ◌≤◌, ◌∷◌, ◌++◌, length, drop};
ghost use Rattle.std.specs.Fmt.{decimal, signed_decimal};
ghost use Rattle.csv_load.specs.Decimals.{point_and};
ghost use Rattle.reading_lines.specs.Lines.{last_digits, size_text, decimal_text};

use itoa::write_digits;

/// One byte.
pub(crate) fn put_byte(byte: u8, line: &mut [u8], end: usize) -> usize
    requires room { 1 ≤ end }
    requires inside { end ≤ length line.old }
    ensures start { result + 1 ≡ end }
    ensures written { drop result line.new ≡ byte ∷ drop end line.old }
{
    line[end - 1] = byte;
    end - 1
}

/// A natural number.
pub(crate) fn put_natural(n: u64, line: &mut [u8], end: usize) -> usize
    requires room { 20 ≤ end }
    requires inside { end ≤ length line.old }
    ensures start { result < end }
    ensures short { end ≤ result + 20 }
    ensures written { drop result line.new ≡ decimal n ++ drop end line.old }
{
    write_digits(n, line, end)
}

/// A whole number.
pub(crate) fn put_integer(z: i64, line: &mut [u8], end: usize) -> usize
    requires room { 21 ≤ end }
    requires inside { end ≤ length line.old }
    ensures start { result < end }
    ensures short { end ≤ result + 21 }
    ensures written { drop result line.new ≡ signed_decimal z ++ drop end line.old }
{
    let start = put_natural(z.unsigned_abs(), line, end);
    if z >= 0 {
        return start;
    }
    put_byte(b'-', line, start)
}

/// A value with its decimals.
pub(crate) fn put_decimal(scale: u8, value: i64, line: &mut [u8], end: usize) -> usize
    requires scale { scale ≤ 9 }
    requires room { 41 ≤ end }
    requires inside { end ≤ length line.old }
    ensures start { result < end }
    ensures short { end ≤ result + 41 }
    ensures written { drop result line.new ≡ decimal_text scale value ++ drop end line.old }
{
    let start = put_size(scale, value.unsigned_abs(), line, end);
    if value >= 0 {
        return start;
    }
    put_byte(b'-', line, start)
}

/// The same without a sign.
fn put_size(scale: u8, size: u64, line: &mut [u8], end: usize) -> usize
    requires scale { scale ≤ 9 }
    requires room { 40 ≤ end }
    requires inside { end ≤ length line.old }
    ensures start { result < end }
    ensures short { end ≤ result + 40 }
    ensures written { drop result line.new ≡ size_text scale size ++ drop end line.old }
{
    let unit = 10_u64.pow(u32::from(scale));
    let point = put_places(scale, unit, size, line, end);
    put_natural(size / unit, line, point)
}

/// A point and the decimals; nothing where there are none.
fn put_places(scale: u8, unit: u64, size: u64, line: &mut [u8], end: usize) -> usize
    requires scale { scale ≤ 9 }
    requires unit { unit ≡ 10 ^ scale }
    requires room { 20 ≤ end }
    requires inside { end ≤ length line.old }
    ensures start { result ≤ end }
    ensures short { end ≤ result + 20 }
    ensures written { drop result line.new ≡ point_and (last_digits scale size) ++ drop end line.old }
{
    if scale == 0 {
        return end;
    }
    // The digits have a 1 in front, so that none of their zeros is left out; it becomes the point.
    let one = put_natural(unit + size % unit, line, end);
    put_byte(b'.', line, one + 1)
}
