//! Laws of the pieces, for the crates above. Each is proved for all archives; a call has no cost.
ghost use Rattle.std.specs.Prelude.{◌≡◌, ℕ, List, []};
ghost use Rattle.std.specs.List.{flat_map, AllByRecursion};
ghost use Rattle.pgn_pieces.specs.Apart.{HasItsGames};
ghost use Rattle.pgn_pieces.specs.Pieces.{ArePieces, piece_bytes};
ghost use Rattle.pgn_pieces.specs.declared.piece.Piece.{Piece as APiece};

use pgn_cut::{archives_split, games_stand_apart};

/// The pieces of an archive, one after the other, are the archive. One without a byte has no piece.
pub fn pieces_cover_their_archive()
    ensures covers { (least : ℕ) (archive : List ℕ) (pieces : List APiece) → ArePieces least archive pieces →
        flat_map (piece_bytes archive) pieces ≡ archive }
    ensures none { (least : ℕ) (pieces : List APiece) → ArePieces least [] pieces → pieces ≡ [] }
{
    games_stand_apart();
}

/// Each piece, cut by itself, has exactly the games that its numbers say: the first piece as it is, any other after one space.
pub fn pieces_have_their_games()
    ensures { (least : ℕ) (archive : List ℕ) (pieces : List APiece) → ArePieces least archive pieces →
        AllByRecursion (HasItsGames archive) pieces }
{
    archives_split();
    games_stand_apart();
}
