/// A pixel's place: its column from the left and its row from the bottom, which may lie off the canvas.
#[derive(Clone, Copy)]
pub struct Point {
    pub x: u16,
    pub y: i128,
}
