//! Measures by processor time the rate at which positions list, read and write moves, and games are cut and read. The claims that take no
//! time here are proved of the libraries. Of this program it is proved that it ends and does nothing undefined.
#![tactic(auto)]

mod fault;
mod games;
mod moves;
mod rate;

use fault::SpeedFault;
use std::alloc::Global;
use std::env;
use std::io::Read;
use std::process::ExitCode;
use std::rt::Env;

/// The measurement of a call.
#[derive(Clone, Copy)]
enum SpeedJob {
    /// Lists of moves, texts of moves and perft, of positions, so many times over.
    Moves(u32),
    /// Cutting and reading an archive.
    Games,
}

// Returns the job of the words `moves ROUNDS` or `games`, after the program's name.
fn read_job(rt: &(impl Env + AllocGlobal)) -> Result<SpeedJob, SpeedFault> {
    let mut args = env::args(rt)?.skip(1);
    let Some(word) = args.next() else {
        return Err(SpeedFault::Words);
    };
    match (word.as_str(), args.next()) {
        ("games", None) => Ok(SpeedJob::Games),
        ("moves", Some(rounds)) => match rounds.as_str().parse::<u32>() {
            Ok(rounds) => Ok(SpeedJob::Moves(rounds)),
            Err(_) => Err(SpeedFault::Words),
        },
        _ => Err(SpeedFault::Words),
    }
}

fn input_of(alloc: Global, input: &mut impl Read) -> Result<Vec<u8>, SpeedFault> {
    let mut bytes = Vec::new(alloc);
    input.read_to_end(&mut bytes)?;
    Ok(bytes)
}

fn measure(rt: &HostRuntime) -> Result<(), SpeedFault> {
    let job = read_job(rt)?;
    let mut input = rt.stdin();
    let bytes = input_of(rt.alloc(), &mut input)?;
    match job {
        SpeedJob::Moves(rounds) => moves::measure(rt, rt.alloc(), bytes.as_slice(), rounds),
        SpeedJob::Games => games::measure(rt, rt.alloc(), bytes.as_slice()),
    }
}

fn main(rt: HostRuntime) -> ExitCode {
    match measure(&rt) {
        Ok(()) => ExitCode::SUCCESS,
        Err(fault) => {
            let _ = eprintln!(rt; "cq_speed: {fault}");
            ExitCode::FAILURE
        }
    }
}
