use crate::column_spans::ColumnSpans;
use line_raster::Bitmap;

/// The picture of a View or Rows frame, with the least and the greatest value of each of its columns.
#[derive(Drop)]
pub struct Picture {
    pub bitmap: Bitmap,
    pub columns: ColumnSpans,
}
