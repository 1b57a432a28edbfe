//! Parts, the sets of squares that a query writes in one place.

/// A set of squares that a query writes in one place.
#[derive(Clone, Copy, Debug, PartialEq, Eq)]
pub struct SquarePart {
    /// Bit k is square k: a1 is bit 0, b1 bit 1 and h8 bit 63.
    pub squares: u64,
    /// As written, every rank that has one of the squares has all eight of them. No shift moves it sideways.
    pub whole_ranks: bool,
    /// As written, every file that has one of the squares has all eight of them. No shift moves it up or down.
    pub whole_files: bool,
}
