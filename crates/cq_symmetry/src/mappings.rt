//! Mappings of the board and the men.

use std::marker::Model;

/// A symmetry of the board, or a shift, with an optional exchange of colours.
///
/// The symmetry is 1 to 8, and east and north are from -7 to 7. If one of them is not 0, the symmetry is 1 and there is no exchange.
///
/// The symmetries 1 to 8 take the square of file f and rank r, both from 0, to these squares, in this order:
/// `(f, r), (7-f, r), (f, 7-r), (7-f, 7-r), (r, f), (7-r, f), (r, 7-f), (7-r, 7-f)`.
#[derive(Clone, Copy, Debug, PartialEq, Eq)]
pub struct Mapping {
    pub symmetry: u8,
    /// White men become black, and black men white.
    pub exchange: bool,
    /// The number of files to the right.
    pub east: i8,
    /// The number of ranks up.
    pub north: i8,
}

impl Model for Mapping {
    ghost use Rattle.cq_symmetry.specs.Mappings.{PlainMapping, IsProper};

    ghost Value = { PlainMapping };

    ghost view = { λ m. record { symmetry = m.symmetry; exchange = m.exchange; east = m.east; north = m.north } };

    ghost invariant = { λ m. IsProper (record { symmetry = m.symmetry; exchange = m.exchange; east = m.east; north = m.north }) };

    ghost inverse = { λ m. record { symmetry = m.symmetry; exchange = m.exchange; east = m.east; north = m.north } };
}
