//! Visits of the batches of an archive, one after the other.
ghost use Rattle.std.specs.Prelude.{◌≡◌, ◌++◌, ◌≤◌, ◌^◌, [], length};
ghost use Rattle.pgn_batches.specs.Games.{games_of, number_of};
ghost use Rattle.pgn_batches.specs.KeptGames.{KeptGames};
ghost use Rattle.pgn_batches.specs.Visits.{HasVisitCause, HasVisited, Moment, IsVisitResult, moment};

use crate::batch::Batch;
use crate::laws::archives_come_in_batches;
use crate::state::{BatchFault, Batches};
use cq_common::Refusal;
use cq_outside::Source;
use std::alloc::Global;

/// A visitor of the batches of an archive, one after the other, which writes to two sinks.
pub trait BatchVisitor<O, E> {
    /// The reason to stop at a batch.
    type Stop;

    /// From the first moment to the second, these games were visited, from an archive's first one on.
    ghost has_taken: { Moment Self O E → Moment Self O E → KeptGames → Type 0 };

    /// From the first moment to the second, games were visited, from an archive's first one on. The visitor stopped at
    /// the games of the next batch.
    ghost has_stopped: { Moment Self O E → Moment Self O E → KeptGames → KeptGames → Self.Stop → Type 0 };

    /// Visits the next batch. Returns a reason to stop, or nothing.
    fn visit(&mut self, batch: &Batch, out: &mut O, err: &mut E) -> Option<Self::Stop>
        requires { (was : Moment Self O E) × (games : KeptGames) × has_taken was (moment self.old out.old err.old) games
            × (number_of batch.now ≡ length games) }
        ensures { (was : Moment Self O E) (games : KeptGames) → has_taken was (moment self.old out.old err.old) games
            → number_of batch.now ≡ length games
            → HasVisited (has_taken was (moment self.new out.new err.new)) (has_stopped was (moment self.new out.new err.new))
            games (games_of batch.now) result };
}

/// The end of a visit of an archive.
pub enum VisitEnd<X> {
    /// All batches were visited; the archive has this number of games.
    All(u64),
    /// The visitor stopped at a batch, for this reason.
    Early(X),
}

/// Visits the batches of the rest of the archive `source` with `visitor`. The limit of bytes must be from 1 to 2^40. The
/// next batch is read after the visit of the one before, and nothing more is read for it than it needs.
///
/// Returns:
/// - `All`: the archive was read to its end, and all its games were visited.
/// - `Early`: the visitor stopped.
///
/// # Errors
///
/// - `ReadFault`: a read failed. All full batches of the bytes read were visited.
/// - `ArchiveTooLong`: one byte more than the limit was read. All full batches of the bytes read were visited.
/// - `NoMemory`: out of memory for the next batch.
pub fn visit_batches<S: Source, O, E, T: BatchVisitor<O, E>>(
    alloc: Global,
    limit: u64,
    source: &mut S,
    visitor: &mut T,
    out: &mut O,
    err: &mut E,
) -> Result<VisitEnd<T::Stop>, Refusal<BatchFault>>
    requires limit { (1 ≤ limit) × (limit ≤ 2 ^ 40) }
    requires nothing { T.has_taken (moment visitor.old out.old err.old) (moment visitor.old out.old err.old) [] }
    ensures says { IsVisitResult limit (S.left source.old) (S.left source.new)
        (T.has_taken (moment visitor.old out.old err.old) (moment visitor.new out.new err.new))
        (T.has_stopped (moment visitor.old out.old err.old) (moment visitor.new out.new err.new)) result }
    ensures cause { HasVisitCause (S.faults source.old) (S.faults source.new) result }
    ensures next { S.follows source.old source.new }
{
    archives_come_in_batches();
    let mut batches = Batches::new(alloc, limit);
    let mut games = 0u64;
    'rounds: loop {
        let batch = match batches.next(source) {
            Ok(Some(batch)) => batch,
            Ok(None) => return Ok(VisitEnd::All(games)),
            Err(refusal) => return Err(refusal),
        };
        if let Some(stop) = visitor.visit(&batch, out, err) {
            return Ok(VisitEnd::Early(stop));
        }
        games += u64::from(batch.len());
    }
}
