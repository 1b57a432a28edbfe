//! The cut of the archive that a source has left, and the table of its pieces.
ghost use Rattle.std.specs.Prelude.{◌≡◌, ◌+◌, ◌<◌, ◌≤◌, ◌^◌, ℕ, List, Option, length, IfOk, IfErr};
ghost use Rattle.std.specs.Io.KnownBytes.{IsAtEnd};
ghost use Rattle.pgn_pieces.specs.State.{Stands};
ghost use Rattle.pgn_pieces.specs.declared.piece.Piece.{Piece as APiece};
ghost use Rattle.pgn_pieces.specs.Cutting.{HasCut, Pipe, Says, pipe};

use crate::job::BYTES_LIMIT;
use crate::state::Pieces;
use cq_common::Bytes;
use cq_outside::{Sink, Source, read_piece, write_all_of};
use cq_program::Status;
use std::alloc::Global;

/// The bytes of a buffer for one read.
const ROOM: usize = 65_536;

// Reads once, and writes the lines of the pieces that are full with it. Returns the number of bytes read, which is zero only at the end.
fn turn<S: Source, O: Sink>(
    alloc: Global,
    source: &mut S,
    buffer: &mut [u8],
    pieces: &mut Pieces,
    out: &mut O,
) -> Result<usize, Status>
    requires stands { (front : List ℕ) × (before : List APiece) × Stands pieces.old front before
        × (length front + length buffer.old < 2 ^ 62) }
    requires room { length buffer.old ≤ 65536 }
    ensures bound { IfOk result (λ n. n ≤ length buffer.old) }
    ensures end { IfOk result (λ n. n ≡ 0 → 0 < length buffer.old → IsAtEnd (S.left source.new)) }
    ensures goes_on { IfOk result (λ n. (least count : ℕ) (was : Pipe)
        → HasCut least count was (pipe S.left S.faults O.taken O.faults source.old out.old) pieces.old
        → HasCut least (count + n) was (pipe S.left S.faults O.taken O.faults source.new out.new) pieces.new) }
    ensures stops { IfErr result (λ status. (least count : ℕ) (was : Pipe)
        → HasCut least count was (pipe S.left S.faults O.taken O.faults source.old out.old) pieces.old
        → Says status least was (pipe S.left S.faults O.taken O.faults source.new out.new)) }
    ensures next { S.follows source.old source.new }
{
    let n = match read_piece(source, buffer) {
        Ok(n) => n,
        Err(_) => return Err(Status::ReadFault),
    };
    let mut text = Bytes::new(alloc);
    match pieces.feed(&buffer[..n], &mut text) {
        Ok(()) => {}
        Err(_) => return Err(Status::NoMemory),
    }
    match write_all_of(out, text.as_slice()) {
        Ok(()) => Ok(n),
        Err(_) => Err(Status::WriteFault),
    }
}

// Writes the lines of the last pieces, at the archive's end.
fn end<O: Sink>(alloc: Global, pieces: Pieces, out: &mut O) -> Status
    requires { (front : List ℕ) × (before : List APiece) × Stands pieces front before × (length front < 2 ^ 62) }
    ensures { (least count faults : ℕ) (left : Option (List ℕ)) (was : Pipe) → IsAtEnd left → count ≤ 2 ^ 40
        → HasCut least count was
        (record { left = left; read_faults = faults; taken = O.taken out.old; write_faults = O.faults out.old }) pieces
        → Says result least was (record { left = left; read_faults = faults; taken = O.taken out.new; write_faults = O.faults out.new }) }
{
    let mut text = Bytes::new(alloc);
    match pieces.finish(&mut text) {
        Ok(()) => {}
        Err(_) => return Status::NoMemory,
    }
    match write_all_of(out, text.as_slice()) {
        Ok(()) => Status::Done,
        Err(_) => Status::WriteFault,
    }
}

/// Writes the table of the pieces of the archive that `source` has left. Each piece but the last has at least `least` bytes, from 1 to
/// 2^40. The lines of a piece are written once it is long enough. None of the archive's bytes are kept.
///
/// Returns:
/// - `Done`: the archive was read to its end, and the whole table is written.
/// - `ReadFault`: a read failed, and no write. The lines of the pieces that are long enough by then are written.
/// - `WriteFault`: a write failed, and no read. A prefix of the table is written.
/// - `NoMemory`: out of memory, and nothing failed. A prefix of the table is written.
/// - `ArchiveTooLong`: more than 2^40 bytes were read, at most 65,536 more, and nothing failed. The lines of the pieces that are long
///   enough are written.
pub(crate) fn cut<S: Source, O: Sink>(
    alloc: Global,
    source: &mut S,
    out: &mut O,
    least: u64,
) -> Status
    requires { (1 ≤ least) × (least ≤ 2 ^ 40) }
    ensures says { Says result least (pipe S.left S.faults O.taken O.faults source.old out.old)
        (pipe S.left S.faults O.taken O.faults source.new out.new) }
    ensures next { S.follows source.old source.new }
{
    let mut pieces = Pieces::new(alloc, least);
    let mut buffer = match vec![in alloc; 0u8; ROOM] {
        Ok(buffer) => buffer,
        Err(_) => return Status::NoMemory,
    };
    let mut count = 0;
    while count <= BYTES_LIMIT {
        match turn(alloc, source, buffer.as_mut_slice(), &mut pieces, out) {
            Ok(0) => return end(alloc, pieces, out),
            Ok(n) => count += n as u64,
            Err(status) => return status,
        }
    }
    Status::ArchiveTooLong
}
