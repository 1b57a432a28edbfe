//! Patterns without lists. A sequence is its first part and the rest.
ghost use Rattle.std.specs.Prelude.{◌≡◌, IfOk};
ghost use Rattle.cq_common.specs.Spelling.{joined};
ghost use Rattle.cql_lines.specs.PatternTrees.{pattern_tree, pattern_trees, patterns_in};
ghost use Rattle.cql_lines.specs.Internal.BinaryPatterns.{plain_tree};

use crate::pattern::{Pattern, Patterns};
use cq_common::NoMemory;
use std::alloc::Global;

/// A pattern without lists.
#[cycle(plain)]
#[derive(Drop)]
pub enum BinaryPattern {
    Atom(u32),
    Empty,
    Both(Box<BinaryPattern>, Box<BinaryPattern>),
    Star(Box<BinaryPattern>),
    Plus(Box<BinaryPattern>),
    Times(u32, u32, Box<BinaryPattern>),
}

/// Returns the pattern without lists that spells the same paths.
///
/// # Errors
///
/// `NoMemory` if out of memory.
#[tactic(auto, using(crate::proofs::Lists::sequence_tree))]
#[cycle(plain_of)]
pub fn plain_of(alloc: Global, pattern: &Pattern) -> Result<BinaryPattern, NoMemory>
    ensures { IfOk result (λ plain. plain_tree plain ≡ pattern_tree pattern.now) }
{
    match pattern {
        Pattern::Atom(atom) => Ok(BinaryPattern::Atom(*atom)),
        Pattern::Sequence(parts) => plain_sequence(alloc, parts),
        Pattern::Star(part) => Ok(BinaryPattern::Star(boxed(alloc, part)?)),
        Pattern::Plus(part) => Ok(BinaryPattern::Plus(boxed(alloc, part)?)),
        Pattern::Maybe(part) => Ok(BinaryPattern::Times(0, 1, boxed(alloc, part)?)),
        Pattern::Times(least, most, part) => {
            Ok(BinaryPattern::Times(*least, *most, boxed(alloc, part)?))
        }
    }
}

// The same in a box, as a part of another pattern.
#[cycle(plain_of)]
fn boxed(alloc: Global, pattern: &Pattern) -> Result<Box<BinaryPattern>, NoMemory>
    ensures { IfOk result (λ plain. plain_tree plain.value ≡ pattern_tree pattern.now) }
{
    let plain = plain_of(alloc, pattern)?;
    Ok(Box::new(alloc, plain)?)
}

#[tactic(auto, using(crate::proofs::Lists::from_end, crate::proofs::Lists::from_none, crate::proofs::Lists::from_start))]
#[cycle(plain_of)]
fn plain_sequence(alloc: Global, parts: &Patterns) -> Result<BinaryPattern, NoMemory>
    ensures { IfOk result (λ plain. plain_tree plain ≡ pattern_trees (patterns_in parts.now)) }
{
    let items = parts.as_slice();
    let mut rest = BinaryPattern::Empty;
    for turn in 0..items.len() {
        let part = plain_of(alloc, &items[items.len() - 1 - turn])?;
        rest = both(alloc, part, rest)?;
    }
    Ok(rest)
}

fn both(alloc: Global, first: BinaryPattern, rest: BinaryPattern) -> Result<BinaryPattern, NoMemory>
    ensures { IfOk result (λ plain. plain_tree plain ≡ joined (plain_tree first) (plain_tree rest)) }
{
    let first = Box::new(alloc, first)?;
    Ok(BinaryPattern::Both(first, Box::new(alloc, rest)?))
}
