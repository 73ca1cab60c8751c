ghost use Rattle.std.specs.Prelude.{◌≡◌, ◌+◌, ◌*◌, ◌<◌, ◌≤◌, ◌⊎◌, false, IfOk, count_by};
ghost use Rattle.line_raster.specs.Canvas.{Canvas, black_at, Adds, IsBlank, black_pixels};

use std::alloc::{AllocError, Global};
use std::marker::Model;

/// A picture of black and white pixels, 1 to 4,096 columns wide and 1 to 4,096 rows high.
#[derive(Drop)]
pub struct Bitmap {
    width: u16,
    height: u16,
    cells: Vec<bool>,
}

impl Model for Bitmap {
    ghost use Rattle.std.specs.Prelude.{◌≡◌, ◌*◌, ◌≤◌};
    ghost use Rattle.line_raster.specs.Canvas.{Canvas};

    ghost Value = { Canvas };

    ghost use Rattle.line_raster.specs.Stored.{IsStored};

    ghost view = { λ b. record { w = b.width; h = b.height; cells = b.cells.items } };

    ghost invariant = { IsStored };
}

impl Bitmap {
    /// A white bitmap of `width` columns and `height` rows, 1 to 4,096 each.
    pub fn new(alloc: Global, width: u16, height: u16) -> Result<Self, AllocError>
        requires some_columns { 1 ≤ width }
        requires columns_in_range { width ≤ 4096 }
        requires some_rows { 1 ≤ height }
        requires rows_in_range { height ≤ 4096 }
        ensures { IfOk result (IsBlank width height) }
    {
        let count = usize::from(width) * usize::from(height);
        let cells = vec![in alloc; false; count]?;
        Ok(Bitmap {
            width,
            height,
            cells,
        })
    }

    /// The number of columns, 1 to 4,096.
    pub fn width(&self) -> u16
        ensures value { result ≡ self.now.w }
        ensures some { 1 ≤ result }
        ensures in_range { result ≤ 4096 }
    {
        self.width
    }

    /// The number of rows, 1 to 4,096.
    pub fn height(&self) -> u16
        ensures value { result ≡ self.now.h }
        ensures some { 1 ≤ result }
        ensures in_range { result ≤ 4096 }
    {
        self.height
    }

    /// Whether the pixel in column `x` and row `y` is black. Beyond the canvas none is.
    pub fn get(&self, x: u16, y: u16) -> bool
        ensures inside { x < self.now.w → y < self.now.h → result ≡ black_at self.now x y }
        ensures beyond { (self.now.w ≤ x) ⊎ (self.now.h ≤ y) → result ≡ false }
    {
        if x >= self.width || y >= self.height {
            return false;
        }
        self.cells[usize::from(x) * usize::from(self.height) + usize::from(y)]
    }

    /// The number of black pixels.
    pub fn black(&self) -> u64
        ensures { result ≡ black_pixels self.now }
    {
        black_cells(&self.cells) as u64
    }

    /// Blackens the pixel in column `x` and row `y`.
    pub(crate) fn blacken_one(&mut self, x: u16, y: u16)
        requires column { x < self.old.w }
        requires row { y < self.old.h }
        ensures { Adds (λ a b. (a ≡ x) × (b ≡ y)) self.old self.new }
    {
        let place = usize::from(x) * usize::from(self.height) + usize::from(y);
        self.cells[place] = true;
    }

    /// Blackens the pixels of column `x` from the row `low` up to but without the row `end`.
    pub(crate) fn blacken(&mut self, x: u16, low: u16, end: u16)
        requires column { x < self.old.w }
        requires order { low ≤ end }
        requires rows { end ≤ self.old.h }
        ensures { Adds (λ a b. (a ≡ x) × (low ≤ b) × (b < end)) self.old self.new }
    {
        let start = usize::from(x) * usize::from(self.height);
        let part = &mut self.cells[start + usize::from(low)..start + usize::from(end)];
        part.fill(true);
    }
}

// How many of the cells are black.
fn black_cells(cells: &[bool]) -> usize
    ensures { result ≡ count_by (λ black. black) cells.now }
{
    cells.iter().filter(|cell| **cell).count()
}
