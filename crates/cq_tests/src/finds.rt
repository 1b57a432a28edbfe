//! Numbers that are found in turn.
use cq_common::NoMemory;
use cq_first::FirstBoard;
use std::alloc::Global;

// Finds 3 at the second of two seats. Returns true if the first sees at 4 that a number below was found, and the least number found.
fn seen_and_found(alloc: Global) -> Result<(bool, u64), NoMemory> {
    let (board, mut seats) = FirstBoard::make(alloc, 5, 2)?;
    let mut second = seats.pop().unwrap();
    let mut first = seats.pop().unwrap();
    board.lower(&mut second, 3);
    let seen = board.look(&mut first, 4);
    seats.push(first)?;
    seats.push(second)?;
    Ok((seen, board.close(seats)?))
}

// No clause says that a look sees a number that another seat found.
#[test]
fn a_seat_sees_what_another_found(rt: HostRuntime) -> Result<(), NoMemory> {
    let (seen, least) = seen_and_found(rt.alloc())?;
    assert!(rt; seen);
    assert!(rt; least == 3);
    Ok(())
}
