//! Laws of the definitions, for proofs in other crates.
ghost use Rattle.std.specs.Prelude.{ℕ};
ghost use Rattle.cq_common.specs.Spelling.{TestIsSpelling};

/// A list passes the test of a pattern exactly if the pattern spells it.
#[tactic(auto, using(crate::proofs::SpellingLaw::spelling_law))]
pub fn patterns_are_tested_by_splits()
    ensures { TestIsSpelling ℕ }
{}
