ghost use Rattle.std.specs.Prelude.{◌≡◌, ◌+◌, ◌-◌, ◌*◌, ◌<◌, ◌≤◌, length};
ghost use Rattle.pbm_writer.specs.Picture.{ink, byte_at, row_bytes, rows_below};
ghost use Rattle.pbm_writer.specs.Strip.{IsStrip, IsColumn};

use line_raster::Bitmap;

// Writes the rows' bytes, strip by strip: the cells of a column stand together, so eight columns are
// read from top to bottom at once.
pub(crate) fn write_rows(rows: &mut [u8], bitmap: &Bitmap)
    requires { length rows.old ≡ bitmap.now.h * row_bytes bitmap.now.w }
    ensures { rows.new ≡ rows_below bitmap.now bitmap.now.h }
{
    let strips = bitmap.width().div_ceil(8);
    let mut column = [0; 4096];
    for k in 0..strips {
        write_strip(rows, &mut column, bitmap, k);
    }
}

// Writes byte `k` of each row. They are read into `column` first, which needs one look at the bitmap's
// size, since nothing of the bitmap can lie in memory that is local.
fn write_strip(rows: &mut [u8], column: &mut [u8], bitmap: &Bitmap, k: u16)
    requires room { length column.old ≡ 4096 }
    requires size { length rows.old ≡ bitmap.now.h * row_bytes bitmap.now.w }
    requires strip { k < row_bytes bitmap.now.w }
    ensures strip { IsStrip bitmap.now k bitmap.now.h rows.old rows.new }
    ensures room { length column.new ≡ 4096 }
{
    let height = bitmap.height();
    let row_bytes = usize::from(bitmap.width().div_ceil(8));
    read_strip(column, bitmap, k);
    for y in 0..height {
        let above = usize::from(height - 1 - y);
        let place = above * row_bytes + usize::from(k);
        rows[place] = column[usize::from(y)];
    }
}

// Reads byte `k` of each row, from the bottom row on.
fn read_strip(column: &mut [u8], bitmap: &Bitmap, k: u16)
    requires room { bitmap.now.h ≤ length column.old }
    requires strip { k < 512 }
    ensures { IsColumn bitmap.now k bitmap.now.h column.old column.new }
{
    for y in 0..bitmap.height() {
        column[usize::from(y)] = byte_at(bitmap, k, y);
    }
}

// The pixels of row `y` in the columns from `8 * k` on, the leftmost in the highest bit.
fn byte_at(bitmap: &Bitmap, k: u16, y: u16) -> u8
    requires strip { k < 512 }
    requires row { y < bitmap.now.h }
    ensures { result ≡ byte_at bitmap.now k y }
{
    if 8 * k + 7 < bitmap.width() {
        full_byte(bitmap, k, y)
    } else {
        last_byte(bitmap, k, y)
    }
}

// The same of columns that are all on the canvas.
fn full_byte(bitmap: &Bitmap, k: u16, y: u16) -> u8
    requires strip { k < 512 }
    requires columns { 8 * k + 7 < bitmap.now.w }
    requires row { y < bitmap.now.h }
    ensures { result ≡ byte_at bitmap.now k y }
{
    let x = 8 * k;
    let left = 128 * ink_within(bitmap, x, y)
        + 64 * ink_within(bitmap, x + 1, y)
        + 32 * ink_within(bitmap, x + 2, y)
        + 16 * ink_within(bitmap, x + 3, y);
    left + 8 * ink_within(bitmap, x + 4, y)
        + 4 * ink_within(bitmap, x + 5, y)
        + 2 * ink_within(bitmap, x + 6, y)
        + ink_within(bitmap, x + 7, y)
}

// 1 for a black pixel, 0 for a white one.
fn ink_within(bitmap: &Bitmap, x: u16, y: u16) -> u8
    requires column { x < bitmap.now.w }
    requires row { y < bitmap.now.h }
    ensures value { result ≡ ink bitmap.now x y }
    ensures bound { result ≤ 1 }
{
    bitmap.get(x, y) as u8
}

// The same of columns of which some lie beyond the canvas.
fn last_byte(bitmap: &Bitmap, k: u16, y: u16) -> u8
    requires strip { k < 512 }
    requires row { y < bitmap.now.h }
    ensures { result ≡ byte_at bitmap.now k y }
{
    let x = 8 * k;
    let left = 128 * ink(bitmap, x, y)
        + 64 * ink(bitmap, x + 1, y)
        + 32 * ink(bitmap, x + 2, y)
        + 16 * ink(bitmap, x + 3, y);
    left + 8 * ink(bitmap, x + 4, y)
        + 4 * ink(bitmap, x + 5, y)
        + 2 * ink(bitmap, x + 6, y)
        + ink(bitmap, x + 7, y)
}

// 1 for a black pixel, 0 for a white one and beyond the last column.
fn ink(bitmap: &Bitmap, x: u16, y: u16) -> u8
    requires { y < bitmap.now.h }
    ensures value { result ≡ ink bitmap.now x y }
    ensures bound { result ≤ 1 }
{
    if x < bitmap.width() && bitmap.get(x, y) {
        1
    } else {
        0
    }
}
