//! Laws of generated archives, for proofs in other crates.
ghost use Rattle.std.specs.Prelude.{ℕ, ◌*◌, ◌≤◌, length};
ghost use Rattle.std.specs.List.{AllByRecursion};
ghost use Rattle.pgn_export.specs.Export.{export_text};
ghost use Rattle.pgn_export.specs.NormalGames.{IsNormal, IsReadAs};
ghost use Rattle.cq_maker.specs.GeneratedArchive as made;

/// Each game of an archive of at most 100,000 games has at most 4,096 bytes.
#[tactic(auto, using(crate::proofs::Short::each_short))]
pub fn games_are_short()
    ensures { (seed games : ℕ) → games ≤ 100000
        → AllByRecursion (λ g. length (export_text g) ≤ 4096) (made.generated_games 1 games seed) }
{}

/// An archive of at most 100,000 games has at most 4,096 bytes a game.
#[tactic(auto, using(crate::proofs::Short::made_short))]
pub fn archives_are_short()
    ensures { (seed games : ℕ) → games ≤ 100000 → length (made.generated_archive seed games) ≤ 4096 * games }
{}

/// Each game of an archive of at most 100,000 games, with all tags that are written, is normal. It is read back from
/// the game's text.
#[tactic(auto, using(crate::proofs::Back::archive_back))]
pub fn games_are_read_back()
    ensures { (seed games : ℕ) → games ≤ 100000
        → AllByRecursion (λ g. IsNormal (made.as_read g) × IsReadAs (export_text g) (made.as_read g)) (made.generated_games 1 games seed) }
{}
