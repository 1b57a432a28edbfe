//! Tests of the crates of queries: trees and plans that no program tells, a column beside the plain evaluator, workers at the gate, and two
//! calls. The calls are `answer` and `answer_many`, over a source. A large value is dropped by a call, whose proof is shorter than that of
//! the end of its scope.
#![tactic(auto)]

#[cfg(test)]
mod answers;
#[cfg(test)]
mod many;
#[cfg(test)]
mod plain;
#[cfg(test)]
mod plans;
#[cfg(test)]
mod syntax;
#[cfg(test)]
mod workers;
