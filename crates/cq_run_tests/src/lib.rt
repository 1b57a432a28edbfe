//! Tests of the top call: workers at the gate, and failures of the outside at each place.
#![tactic(auto)]

#[cfg(test)]
mod calls;
#[cfg(test)]
mod failing;
#[cfg(test)]
mod prefixes;
#[cfg(test)]
mod workers;
