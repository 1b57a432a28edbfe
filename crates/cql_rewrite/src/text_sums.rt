//! The text of a sum in one pass: first the parentheses of its pairs, and then the terms, each of which ends its pair.
ghost use Rattle.std.specs.Prelude.{◌≡◌, ◌++◌, IfOk, OnOk};
ghost use Rattle.cql_syntax.specs.TreeOf.{term_trees};
ghost use Rattle.cql_rewrite.specs.Internal.Sums as spec;

use crate::text_pieces::push_both;
use cq_common::{Bytes, NoMemory};
use cql_syntax::Term;
use std::alloc::Global;

/// The text before the terms of a sum. Without terms it is the whole text.
pub(crate) fn sum_start(alloc: Global, terms: &[Term]) -> Result<Bytes, NoMemory>
    ensures { IfOk result (λ t. t ≡ spec.sum_start (term_trees terms.now)) }
{
    match terms {
        [] => Bytes::from_slice(alloc, b"(+)"),
        [first, rest @ ..] => {
            let mut text = openings(alloc, rest)?;
            text.push_all(before_first(first.minus))?;
            Ok(text)
        }
    }
}

// The openings of the terms' pairs, the last pair's first.
#[tactic(auto, using(crate::proofs::Pairs::opened))]
fn openings(alloc: Global, terms: &[Term]) -> Result<Bytes, NoMemory>
    ensures { IfOk result (λ t. t ≡ spec.openings (term_trees terms.now)) }
{
    let mut text = Bytes::new(alloc);
    for k in (0..terms.len()).rev() {
        text.push_all(opening(terms[k].minus))?;
    }
    Ok(text)
}

fn opening(minus: bool) -> &'static [u8]
    ensures { result.now ≡ spec.opening minus }
{
    if minus { b"(- " } else { b"(+ " }
}

fn before_first(minus: bool) -> &'static [u8]
    ensures { result.now ≡ spec.before_first minus }
{
    if minus { b"(- 0" } else { b"" }
}

/// Adds a term, which ends its pair; a lone one begins the first pair.
pub(crate) fn push_term(text: &mut Bytes, lone: bool, term: &Bytes) -> Result<(), NoMemory>
    ensures { OnOk result (text.new ≡ text.old ++ spec.term_text lone term.now) }
{
    if lone {
        return text.push_all(term.as_slice());
    }
    push_both(text, b" ", term.as_slice())?;
    text.push_all(b")")
}
