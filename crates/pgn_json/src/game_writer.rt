//! The writer of the games of each batch.
ghost use Rattle.std.specs.Prelude.{◌≡◌, ◌≤◌, length};
ghost use Rattle.std.specs.Thread.{IsSync};
ghost use Rattle.pgn_batches.specs.Games.{games_of, number_of};
ghost use Rattle.pgn_batches.specs.KeptGames.{KeptGames};
ghost use Rattle.pgn_json.specs.Internal.Texts.{AnswersBatch, HasStopped, HasTaken};
ghost use Rattle.pgn_json.specs.Writing.{Sinks, sinks_of};

use crate::part_texts::{GameTextTask, PART};
use crate::writing::write_part;
use cq_outside::Sink;
use cq_program::Status;
use pgn_batches::{Batch, BatchVisitor};
use std::alloc::Global;
use std::thread::Threads;

/// Writes the games of batches, made by so many workers, and counts the faulty ones.
#[derive(Drop)]
pub(crate) struct GameWriter<'a, R> {
    pub(crate) rt: &'a R,
    pub(crate) alloc: Global,
    pub(crate) mark: &'a [u8],
    pub(crate) workers: u32,
    pub(crate) faulty: u64,
    ghost range: { (1 ≤ workers) × (workers ≤ 64) },
}

impl<'a, R: Threads + Sync, O: Sink, E: Sink> BatchVisitor<O, E> for GameWriter<'a, R> {
    type Stop = Status;

    // The bound that threads may share the runtime is repeated here, since `take` does not know the bounds of its block.
    ghost has_taken = { λ was now games. (IsSync R.row × (now.visitor.mark ≡ was.visitor.mark)) × HasTaken was.visitor.mark.now
        (sinks_of O.taken O.faults E.taken E.faults was.out was.err) (sinks_of O.taken O.faults E.taken E.faults now.out now.err)
        now.visitor.faulty games };

    ghost has_stopped = { λ was now games batch status. HasStopped was.visitor.mark.now
        (sinks_of O.taken O.faults E.taken E.faults was.out was.err) (sinks_of O.taken O.faults E.taken E.faults now.out now.err)
        games batch status };

    fn visit(&mut self, batch: &Batch, out: &mut O, err: &mut E) -> Option<Status> {
        write_batch(self, batch, out, err)
    }
}

// Writes the texts of a batch, a part at a time, so that few of them are held at once.
fn write_batch<R: Threads + Sync, O: Sink, E: Sink>(
    writer: &mut GameWriter<'_, R>,
    batch: &Batch,
    out: &mut O,
    err: &mut E,
) -> Option<Status>
    requires { (was : Sinks) × (games : KeptGames) × (number_of batch.now ≡ length games)
        × HasTaken writer.old.mark.now was (sinks_of O.taken O.faults E.taken E.faults out.old err.old) writer.old.faulty games }
    ensures same { writer.new.mark ≡ writer.old.mark }
    ensures answers { (was : Sinks) (games : KeptGames) → number_of batch.now ≡ length games
        → HasTaken writer.old.mark.now was (sinks_of O.taken O.faults E.taken E.faults out.old err.old) writer.old.faulty games
        → AnswersBatch writer.old.mark.now was (sinks_of O.taken O.faults E.taken E.faults out.new err.new) writer.new.faulty games
        (games_of batch.now) result }
{
    let mut first = 0;
    while first < u64::from(batch.len()) {
        let task = GameTextTask {
            mark: writer.mark,
            batch,
            first,
        };
        match write_part(writer.rt, writer.alloc, &task, writer.workers, out, err) {
            Ok(faulty) => writer.faulty += faulty,
            Err(status) => return Some(status),
        }
        first += PART;
    }
    None
}
