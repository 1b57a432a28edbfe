//! The cut of an archive and the reading of its games.
use crate::fault::SpeedFault;
use crate::rate::{a_second, nanos_each};
use pgn_cut::{Span, cut_whole};
use pgn_reader::read_game;
use std::alloc::Global;
use std::io::Print;
use std::time::CpuClock;

/// The number of bytes that no archive reaches.
const LIMIT: usize = 1 << 40;

/// Measures the bytes that are cut in a second, and the time for each position of the games that are read.
pub(crate) fn measure(
    rt: &(impl CpuClock + Print),
    alloc: Global,
    archive: &[u8],
) -> Result<(), SpeedFault> {
    if archive.len() >= LIMIT {
        return Err(SpeedFault::TooLong);
    }
    let start = rt.process_cpu_time()?;
    let spans = cut_whole(alloc, archive)?;
    let cut = rt.process_cpu_time()?.saturating_sub(start);
    let start = rt.process_cpu_time()?;
    let positions = read_all(alloc, archive, spans.as_slice());
    let read = rt.process_cpu_time()?.saturating_sub(start);
    println!(rt; "games: {}, positions: {positions}", spans.len())?;
    println!(rt;
        "bytes cut a second: {}",
        a_second(archive.len() as u64, cut)
    )?;
    println!(rt;
        "nanoseconds to read a position: {}",
        nanos_each(positions, read)
    )?;
    Ok(())
}

// Returns the number of positions of the games; a faulty game has none.
fn read_all(alloc: Global, archive: &[u8], spans: &[Span]) -> u64 {
    let mut positions = 0u64;
    for span in spans {
        positions = positions.saturating_add(positions_of(alloc, archive, span));
    }
    positions
}

fn positions_of(alloc: Global, archive: &[u8], span: &Span) -> u64 {
    let (start, end) = (span.start as usize, span.end as usize);
    match archive.get(start..end) {
        Some(bytes) => match read_game(alloc, bytes, 0, span.first) {
            Ok(game) => u64::from(game.len()),
            Err(_) => 0,
        },
        None => 0,
    }
}
