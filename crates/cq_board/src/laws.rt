//! The law of the draws.
ghost use Rattle.std.specs.Prelude.{◌≡◌, ℕ, List, length};
ghost use Rattle.cq_board.specs.Draws.{AreDraws, IsInitial, IsDraw, IsSound};

/// The first state of the draws is sound. Every draw leads from a sound state to a sound one, and so does every list of draws. From the
/// first state on, as many numbers are drawn as there are draws.
pub fn draws_stay_sound()
    ensures first { (next : ℕ) (lists : List (List ℕ)) → IsInitial next lists → IsSound next lists }
    ensures draw { (worker next : ℕ) (lists : List (List ℕ)) (next_after : ℕ) (lists_after : List (List ℕ)) →
        IsSound next lists → IsDraw worker next lists next_after lists_after → IsSound next_after lists_after }
    ensures draws { (workers : List ℕ) (next : ℕ) (lists : List (List ℕ)) (next_after : ℕ) (lists_after : List (List ℕ)) →
        IsSound next lists → AreDraws workers next lists next_after lists_after → IsSound next_after lists_after }
    ensures reached { (workers : List ℕ) (next : ℕ) (lists : List (List ℕ)) (next_after : ℕ) (lists_after : List (List ℕ)) →
        IsInitial next lists → AreDraws workers next lists next_after lists_after
        → (next_after ≡ length workers) × IsSound next_after lists_after }
{}
