//! Reading one piece, reading all of an input up to a limit, and writing all of a text.
ghost use Rattle.std.specs.Prelude.{◌≡◌, ◌+◌, ◌++◌, ◌^◌, ◌<◌, ◌≤◌, List, ℕ, length, take, IfOk, IfErr, OnOk, OnErr};
ghost use Rattle.std.specs.Io.KnownBytes.{ReadConsumes, Consumes, IsAtEnd};
ghost use Rattle.cq_outside.specs.Faults.{HasCause, HasRefusalCause};
ghost use Rattle.cq_outside.specs.Flow.{Grew, TakesAtMost, most_taken};

use crate::sink::Sink;
use crate::source::Source;
use cq_common::{Bytes, Failed, Refusal};
use std::alloc::Global;

/// The longest buffer of one read, in bytes.
const PIECE: usize = 65_536;

/// Reads once.
///
/// # Errors
///
/// Returns `Failed` if the read fails.
pub fn read_piece<S: Source>(source: &mut S, buf: &mut [u8]) -> Result<usize, Failed>
    ensures bound { IfOk result (λ n. n ≤ length buf.old) }
    ensures bytes { ReadConsumes (S.left source.old) (S.left source.new) result buf.new }
    ensures cause { HasCause (S.faults source.old) (S.faults source.new) result }
    ensures next { S.follows source.old source.new }
{
    source.read(buf)
}

/// Reads until the end, or until one byte more than `limit` was taken. If the result has at most `limit` bytes, nothing is left. `limit` is
/// below 2^62 bytes.
///
/// # Errors
///
/// Returns the fault of the first read that fails, after at most `limit` bytes were taken. Returns `Refusal::NoMemory` if memory runs out,
/// after at most `limit` + 1 bytes.
pub fn read_up_to<S: Source>(
    source: &mut S,
    alloc: Global,
    limit: usize,
) -> Result<Bytes, Refusal<Failed>>
    requires { limit < 2 ^ 62 }
    ensures bytes { IfOk result (Consumes (S.left source.old) (S.left source.new)) }
    ensures most { IfOk result (λ bytes. length bytes ≤ limit + 1) }
    ensures whole { IfOk result (λ bytes. length bytes ≤ limit → IsAtEnd (S.left source.new)) }
    ensures taken { IfErr result (λ refusal. TakesAtMost (most_taken refusal limit (limit + 1)) (S.left source.old) (S.left source.new)) }
    ensures cause { HasRefusalCause (S.faults source.old) (S.faults source.new) result }
    ensures next { S.follows source.old source.new }
{
    let mut buffer = vec![in alloc; 0u8; PIECE.min(limit + 1)]?;
    let mut bytes = Bytes::new(alloc);
    while bytes.len() <= limit {
        let room = PIECE.min(limit + 1 - bytes.len());
        match append_piece(source, &mut buffer[..room], &mut bytes) {
            Ok(0) => return Ok(bytes),
            Ok(_) => {}
            Err(refusal) => return Err(refusal),
        }
    }
    Ok(bytes)
}

// Reads once into `buffer`, and adds the bytes read to `bytes`. Returns their number.
fn append_piece<S: Source>(
    source: &mut S,
    buffer: &mut [u8],
    bytes: &mut Bytes,
) -> Result<usize, Refusal<Failed>>
    ensures bound { IfOk result (λ n. n ≤ length buffer.old) }
    ensures added { IfOk result (λ n. (piece : List ℕ) × (length piece ≡ n) × (bytes.new ≡ bytes.old ++ piece)
        × Consumes (S.left source.old) (S.left source.new) piece) }
    ensures end { IfOk result (λ n. n ≡ 0 → 0 < length buffer.old → IsAtEnd (S.left source.new)) }
    ensures taken { IfErr result (λ refusal.
        TakesAtMost (most_taken refusal 0 (length buffer.old)) (S.left source.old) (S.left source.new)) }
    ensures cause { HasRefusalCause (S.faults source.old) (S.faults source.new) result }
    ensures next { S.follows source.old source.new }
{
    match read_piece(source, buffer) {
        Ok(n) => {
            bytes.push_all(&buffer[..n])?;
            Ok(n)
        }
        Err(failed) => Err(Refusal::Fault(failed)),
    }
}

/// Writes until all of `bytes` is taken or a write fails.
///
/// # Errors
///
/// Returns `Failed` if a write fails. The sink has then taken a prefix of `bytes`.
pub fn write_all_of<S: Sink>(sink: &mut S, bytes: &[u8]) -> Result<(), Failed>
    ensures ok { OnOk result (Grew (S.taken sink.old) (S.taken sink.new) bytes.now) }
    ensures err { OnErr result ((k : ℕ) × Grew (S.taken sink.old) (S.taken sink.new) (take k bytes.now)) }
    ensures cause { HasCause (S.faults sink.old) (S.faults sink.new) result }
{
    let mut done = 0;
    while done < bytes.len() {
        done += sink.write(&bytes[done..])?;
    }
    Ok(())
}
