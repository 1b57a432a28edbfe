//! A piece of an archive.
ghost use Rattle.std.specs.Prelude.{◌≡◌, ◌≤◌, ◌<◌, ◌^◌};
ghost use Rattle.pgn_pieces.specs.Pieces.{start, piece_to, after};

/// A piece of an archive. Numbers count from 1, and bytes from 0, the archive's first byte.
#[derive(Clone, Copy, Debug, PartialEq, Eq)]
pub struct Piece {
    /// Its number.
    pub number: u64,
    /// The place of its first byte.
    pub offset: u64,
    /// The number of its bytes.
    pub length: u64,
    /// The number of its first game, or of the next one if it has no game.
    pub first: u64,
    /// The number of its games.
    pub games: u64,
}

/// The start of a piece: its number, the place of its first byte, and the number of its first game.
#[derive(Clone, Copy)]
pub(crate) struct PieceStart {
    pub(crate) number: u64,
    pub(crate) from: u64,
    pub(crate) first: u64,
}

impl PieceStart {
    /// Returns the start of the first piece.
    pub(crate) fn start() -> PieceStart
        ensures { result ≡ start }
    {
        PieceStart {
            number: 1,
            from: 0,
            first: 1,
        }
    }

    /// Returns the piece that begins here, ends before the place `to` and has so many games.
    pub(crate) fn piece_to(self, to: u64, games: u64) -> Piece
        requires { self.from ≤ to }
        ensures { result ≡ piece_to self to games }
    {
        Piece {
            number: self.number,
            offset: self.from,
            length: to - self.from,
            first: self.first,
            games,
        }
    }
}

impl Piece {
    /// Returns the start of the piece after this one.
    pub(crate) fn after(self) -> PieceStart
        requires numbers { (self.number < 2 ^ 62) × (self.first < 2 ^ 62) × (self.games < 2 ^ 62) }
        requires bytes { (self.offset < 2 ^ 62) × (self.length < 2 ^ 62) }
        ensures { result ≡ after self }
    {
        PieceStart {
            number: self.number + 1,
            from: self.offset + self.length,
            first: self.first + self.games,
        }
    }
}
