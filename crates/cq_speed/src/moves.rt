//! Moves of positions: lists, texts and perft.
use crate::fault::SpeedFault;
use crate::rate::a_second;
use cq_moves::{is_legal, legal_moves, play};
use cq_position::{Position, read_fen};
use cq_san::{read_san, san_text};
use std::alloc::Global;
use std::io::Print;
use std::str;
use std::time::CpuClock;

// Returns the number of lines of so many legal moves from a position.
fn perft(position: &Position, depth: u32) -> u64 {
    let moves = legal_moves(position);
    if depth <= 1 {
        return moves.len() as u64;
    }
    let mut count = 0u64;
    for m in moves.as_slice() {
        if is_legal(position, *m) {
            count = count.saturating_add(perft(&play(position, *m), depth - 1));
        }
    }
    count
}

fn list_all(positions: &[Position], rounds: u32) -> u64 {
    let mut moves = 0u64;
    for _round in 0..rounds {
        for position in positions {
            moves = moves.saturating_add(legal_moves(position).len() as u64);
        }
    }
    moves
}

fn read_all(owners: &[Position], texts: &[&str], rounds: u32) -> u64 {
    let mut moves = 0u64;
    for _round in 0..rounds {
        for (position, text) in owners.iter().zip(texts) {
            if read_san(position, text.as_bytes()).is_ok() {
                moves = moves.saturating_add(1);
            }
        }
    }
    moves
}

fn write_all(position: &Position, rounds: u32) -> u64 {
    let moves = legal_moves(position);
    let mut texts = 0u64;
    for _round in 0..rounds {
        for m in moves.as_slice() {
            if is_legal(position, *m) && !san_text(position, *m).is_empty() {
                texts = texts.saturating_add(1);
            }
        }
    }
    texts
}

// Returns the position and the moves of a line. A line is a position, a bar and the texts of its legal moves, a space between two.
fn parts_of(line: &str) -> Result<(&str, &str), SpeedFault> {
    match line.split_once("|") {
        Some(parts) => Ok(parts),
        None => Err(SpeedFault::Position),
    }
}

fn position_of(fen: &str) -> Result<Position, SpeedFault> {
    match read_fen(fen.as_bytes()) {
        Ok(position) => Ok(position),
        Err(_) => Err(SpeedFault::Position),
    }
}

// Returns the positions of a text, one a line.
fn positions_of(alloc: Global, text: &str) -> Result<Vec<Position>, SpeedFault> {
    let mut positions = Vec::new(alloc);
    for line in text.lines() {
        let (fen, _moves) = parts_of(line)?;
        positions.push(position_of(fen)?)?;
    }
    Ok(positions)
}

/// The texts of the moves of positions, and the position of each.
#[derive(Drop)]
struct MoveTexts<'a> {
    owners: Vec<Position>,
    texts: Vec<&'a str>,
}

fn texts_of<'a>(alloc: Global, text: &'a str) -> Result<MoveTexts<'a>, SpeedFault> {
    let mut found = MoveTexts {
        owners: Vec::new(alloc),
        texts: Vec::new(alloc),
    };
    for line in text.lines() {
        add_texts(line, &mut found)?;
    }
    Ok(found)
}

fn add_texts<'a>(line: &'a str, found: &mut MoveTexts<'a>) -> Result<(), SpeedFault> {
    let (fen, moves) = parts_of(line)?;
    for san in moves.split(" ") {
        found.owners.push(position_of(fen)?)?;
        found.texts.push(san)?;
    }
    Ok(())
}

/// Measures lists of legal moves, texts read and written, and perft, of the positions of a text, so many times over. With no round nothing
/// is measured.
pub(crate) fn measure(
    rt: &(impl CpuClock + Print),
    alloc: Global,
    bytes: &[u8],
    rounds: u32,
) -> Result<(), SpeedFault> {
    let Ok(text) = str::from_utf8(bytes) else {
        return Err(SpeedFault::Position);
    };
    let positions = positions_of(alloc, text)?;
    let texts = texts_of(alloc, text)?;
    measure_lists(rt, positions.as_slice(), rounds)?;
    measure_reading(rt, &texts, rounds / 10)?;
    measure_writing(rt, positions.as_slice(), rounds / 10)?;
    if rounds == 0 {
        return Ok(());
    }
    for (position, depth) in positions.as_slice().iter().zip([5, 4]) {
        measure_perft(rt, position, depth)?;
    }
    Ok(())
}

fn measure_lists(
    rt: &(impl CpuClock + Print),
    positions: &[Position],
    rounds: u32,
) -> Result<(), SpeedFault> {
    let start = rt.process_cpu_time()?;
    let moves = list_all(positions, rounds);
    let time = rt.process_cpu_time()?.saturating_sub(start);
    let lists = (positions.len() as u64).saturating_mul(u64::from(rounds));
    println!(rt; "legal lists a second: {}", a_second(lists, time))?;
    println!(rt; "legal moves a second: {}", a_second(moves, time))?;
    Ok(())
}

fn measure_reading(
    rt: &(impl CpuClock + Print),
    texts: &MoveTexts<'_>,
    rounds: u32,
) -> Result<(), SpeedFault> {
    let start = rt.process_cpu_time()?;
    let read = read_all(texts.owners.as_slice(), texts.texts.as_slice(), rounds);
    let time = rt.process_cpu_time()?.saturating_sub(start);
    println!(rt; "SAN texts read a second: {}", a_second(read, time))?;
    Ok(())
}

fn measure_writing(
    rt: &(impl CpuClock + Print),
    positions: &[Position],
    rounds: u32,
) -> Result<(), SpeedFault> {
    let start = rt.process_cpu_time()?;
    let mut written = 0u64;
    for position in positions {
        written = written.saturating_add(write_all(position, rounds));
    }
    let time = rt.process_cpu_time()?.saturating_sub(start);
    println!(rt;
        "SAN texts written a second, each after the test of its move: {}",
        a_second(written, time)
    )?;
    Ok(())
}

fn measure_perft(
    rt: &(impl CpuClock + Print),
    position: &Position,
    depth: u32,
) -> Result<(), SpeedFault> {
    let start = rt.process_cpu_time()?;
    let nodes = perft(position, depth);
    let time = rt.process_cpu_time()?.saturating_sub(start);
    println!(rt;
        "perft {depth}: {nodes} nodes, {} a second",
        a_second(nodes, time)
    )?;
    Ok(())
}
