//! What an inversion answers.

use super::square::Square;

/// The inverse of a square, or a vector that shows that it has none: not all 0, 0 past the size, and sent to 0 by
/// every row.
#[derive(Clone, Copy)]
pub enum Outcome {
    Inverse(Square),
    Kernel([u8; 16]),
}
