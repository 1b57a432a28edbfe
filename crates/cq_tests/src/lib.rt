//! Tests of the crates of chess and of PGN, and of those that know neither: vectors from outside, calls that no program makes, and laws.
#![tactic(auto)]

#[cfg(test)]
mod calls;
#[cfg(test)]
mod faults;
#[cfg(test)]
mod finds;
#[cfg(test)]
mod laws;
#[cfg(test)]
mod lexer;
#[cfg(test)]
mod maker;
#[cfg(test)]
mod moves;
#[cfg(test)]
mod sent;
#[cfg(test)]
mod trees;
