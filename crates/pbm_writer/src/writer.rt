ghost use Rattle.std.specs.Prelude.{◌≡◌, ◌<◌, ◌^◌, ◌++◌, length, IfOk};
ghost use Rattle.pbm_writer.specs.Picture.{picture, rows_below, Shows};

use super::rows::write_rows;
use line_raster::Bitmap;
use std::alloc::{AllocError, Global};

/// The bytes of the bitmap as a raw PBM file.
pub fn pbm(alloc: Global, bitmap: &Bitmap) -> Result<Vec<u8>, AllocError>
    ensures bytes { IfOk result (λ bytes. bytes.items ≡ picture bitmap.now) }
    ensures shown { IfOk result (λ bytes. Shows bitmap.now bytes.items) }
{
    let width = bitmap.width();
    let height = bitmap.height();
    let head = format!(in alloc; "P4\n{width} {height}\n")?;
    let bytes = with_rows(alloc, head.as_bytes(), bitmap)?;
    Ok(bytes)
}

// The head and the rows' bytes behind it, in memory that is taken once.
fn with_rows(alloc: Global, head: &[u8], bitmap: &Bitmap) -> Result<Vec<u8>, AllocError>
    requires { length head.now < 2 ^ 63 }
    ensures { IfOk result (λ bytes. bytes.items ≡ head.now ++ rows_below bitmap.now bitmap.now.h) }
{
    let row_bytes = usize::from(bitmap.width().div_ceil(8));
    let size = head.len() + usize::from(bitmap.height()) * row_bytes;
    let mut bytes = Vec::with_capacity(alloc, size)?;
    bytes.extend_from_slice(head)?;
    bytes.resize(size, 0)?;
    write_rows(&mut bytes[head.len()..], bitmap);
    Ok(bytes)
}
