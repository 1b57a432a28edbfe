//! Laws of reading, for the crates above. Each is proved for all bytes, and a call costs nothing.
ghost use Rattle.std.specs.Prelude.{◌≡◌, ◌+◌, ◌↔◌, ℕ, Bool, List, Result, take};
ghost use Rattle.cq_position.specs.Games.{Game};
ghost use Rattle.pgn_reader.specs.declared.fault.GameFault.{GameFault};
ghost use Rattle.pgn_reader.specs.MovedTokens.{moved, AreSameTokens};
ghost use Rattle.pgn_reader.specs.Limits.{longest};
ghost use Rattle.pgn_reader.specs.Verdict.{IsReadResult};

/// All bytes have an outcome: they spell one game, or have a first fault.
#[tactic(auto, using(crate::proofs::Verdicts::verdict))]
pub fn games_have_outcomes()
    ensures { (start : ℕ) (first : Bool) (bytes : List ℕ) → (outcome : Result Game GameFault) × IsReadResult start first bytes outcome }
{}

/// They have no other outcome: no bytes spell two games, spell a game and have a fault, or have two faults.
#[tactic(auto, using(crate::proofs::OneOutcome::one_outcome))]
pub fn games_have_one_outcome()
    ensures { (start : ℕ) (first : Bool) (bytes : List ℕ) (a b : Result Game GameFault) →
        IsReadResult start first bytes a → IsReadResult start first bytes b → a ≡ b }
{}

/// The tokens decide. As many bytes at another place with the same tokens are the same game, or have the same fault
/// there.
#[tactic(auto, using(crate::proofs::MovedTokens::decided))]
pub fn tokens_decide()
    ensures { (n start : ℕ) (first other_first : Bool) (bytes other : List ℕ) → AreSameTokens n start first bytes other_first other →
        (outcome : Result Game GameFault) → IsReadResult start first bytes outcome ↔ IsReadResult (start + n) other_first other (moved n outcome) }
{}

/// The outcome of the first 2^24 + 1 bytes of a game is that of all of them.
#[tactic(auto, using(crate::proofs::MovedTokens::first_bytes))]
pub fn first_bytes_decide()
    ensures { (start : ℕ) (first : Bool) (bytes : List ℕ) (outcome : Result Game GameFault) →
        IsReadResult start first (take (longest + 1) bytes) outcome ↔ IsReadResult start first bytes outcome }
{}
