/// The window from `t0` to `t1` and the canvas of `w` by `h` pixels that a view asks for, in range
/// or not.
#[derive(Clone, Copy)]
pub(crate) struct Viewport {
    pub(crate) w: u64,
    pub(crate) h: u64,
    pub(crate) t0: i128,
    pub(crate) t1: i128,
}
