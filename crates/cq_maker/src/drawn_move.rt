//! The moves of a game as rows.
use cq_position::{Move, Position};

/// A move, the number of the node from which it is played, and the position after it.
#[derive(Drop)]
pub struct DrawnMove {
    /// The number of the parent.
    pub parent: u32,
    /// The move.
    pub led_by: Move,
    /// The position after the move.
    pub position: Position,
}
