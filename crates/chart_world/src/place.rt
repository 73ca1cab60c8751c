//! Where the last line stands, and what of it is its text.
ghost use Rattle.std.specs.Prelude.{◌≡◌, ◌≤◌, length, take};
ghost use Rattle.chart_world.specs.Lines.{without_return};

/// The bytes of the last line.
#[derive(Clone, Copy)]
pub(crate) enum Place {
    Nowhere,
    Piece { first: usize, end: usize },
    Spill { end: usize },
}

/// The length of a line without a carriage return at its end.
pub(crate) fn text_len(line: &[u8]) -> usize
    ensures within { result ≤ length line.now }
    ensures text { take result line.now ≡ without_return line.now }
{
    match line.split_last() {
        Some((&b'\r', front)) => front.len(),
        _ => line.len(),
    }
}
