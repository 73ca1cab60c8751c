use thiserror::Error;

/// Why there is no grid.
#[derive(Clone, Copy, Debug, Error)]
pub enum GridError {
    /// The window's start isn't before its end, or an end is more than 2 * 10^18 from 0.
    #[error("the window is empty or reaches too far")]
    BadWindow,
    /// The width or the height isn't 1 to 4,096.
    #[error("the canvas is not 1 to 4096 pixels wide and high")]
    BadCanvas,
}
