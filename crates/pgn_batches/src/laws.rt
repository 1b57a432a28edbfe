//! Laws of batches, for proofs in other crates.
ghost use Rattle.std.specs.Prelude.{◌≡◌, ◌++◌, ℕ, List};
ghost use Rattle.pgn_batches.specs.Batching.{flat, full_batches, left_over};
ghost use Rattle.pgn_batches.specs.KeptGames.{KeptGames};
ghost use Rattle.pgn_batches.specs.Laws.{Laws};
ghost use Rattle.pgn_batches.specs.Whole.{closed_games, whole};

use pgn_cut::{closed_games_stay, games_stand_apart};

/// The full batches of some games are the first ones of more games, and together with the games that remain they are
/// all of them. The games that a prefix of an archive closes are the first ones of those that a longer prefix closes.
/// The same holds of those of its full batches.
#[tactic(auto, using(crate::proofs::Batching::full_grow, crate::proofs::Batching::all_there))]
pub fn batches_stay()
    ensures full { (games more : KeptGames) → (rest : List KeptGames) × (full_batches (games ++ more) ≡ full_batches games ++ rest) }
    ensures all { (games : KeptGames) → flat (full_batches games) ++ left_over games ≡ games }
    ensures closed { (front more : List ℕ) → (rest : KeptGames) × (closed_games (front ++ more) ≡ closed_games front ++ rest) }
    ensures whole { (front more : List ℕ) → (rest : KeptGames) × (whole (front ++ more) ≡ whole front ++ rest) }
{
    closed_games_stay();
    games_stand_apart();
}

/// The games of the batches of an archive, which is read piece by piece, are the games of its cut.
pub fn archives_come_in_batches()
    ensures { Laws }
{
    batches_stay();
    closed_games_stay();
    games_stand_apart();
}
