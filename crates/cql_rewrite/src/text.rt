//! The text of a flat query: a line for each item.
ghost use Rattle.std.specs.Prelude.{◌≡◌, ◌∷◌, IfOk, None, unwrap_or, false, []};
ghost use Rattle.std.specs.Fmt.{decimal};
ghost use Rattle.cql_syntax.specs.TreeOf.{filter_tree, filters_tree, terms_tree, line_tree, played_tree, written_tree, parts_tree, body_tree};
ghost use Rattle.cql_rewrite.specs.FlatText as spec;

use crate::text_pieces::{
    comment, designator, elo, in_move, in_parens, line_start, marked, number, outcome, push_each,
    quoted, tagged,
};
use crate::text_sums::{push_term, sum_start};
use crate::text_words::{any_word, chain_word, pair_word, sort_word, square_word};
use cq_common::{Bytes, NoMemory};
use cql_syntax::{Body, Constituents, Filter, Filters, FlatQuery, Form, Line, Played, Terms, Word};
use std::alloc::Global;

/// Returns the text of a flat query: the texts of its items, with one LF between two of them and none at
/// the end.
///
/// # Errors
///
/// Returns `NoMemory` if memory runs out.
pub fn flat_text(alloc: Global, query: &FlatQuery) -> Result<Bytes, NoMemory>
    ensures { IfOk result (λ t. t ≡ spec.items_text (filters_tree query.now.items)) }
{
    let texts = texts_of(alloc, &query.items)?;
    on_lines(alloc, texts.as_slice())
}

// Texts with one LF between two of them.
fn on_lines(alloc: Global, texts: &[Bytes]) -> Result<Bytes, NoMemory>
    ensures { IfOk result (λ t. t ≡ spec.on_lines texts.now) }
{
    match texts {
        [] => Ok(Bytes::new(alloc)),
        [first, rest @ ..] => {
            let mut text = Bytes::from_slice(alloc, first.as_slice())?;
            push_each(&mut text, b"\n", rest)?;
            Ok(text)
        }
    }
}

/// The text of a filter.
#[cycle(text)]
#[tactic(auto, unfolding(crate::specs::FlatText::text))]
pub(crate) fn text_of(alloc: Global, f: &Filter) -> Result<Bytes, NoMemory>
    ensures { IfOk result (λ t. t ≡ spec.text (filter_tree f.now)) }
{
    match &f.form {
        Form::Squares(d) => designator(alloc, d),
        Form::Number(n) => number(alloc, *n),
        Form::Name(name) => Bytes::from_slice(alloc, name.as_slice()),
        Form::Plain(word) => Bytes::from_slice(alloc, Word::Plain(*word).text()),
        Form::Tagged(field, value) => tagged(alloc, *field, value),
        Form::Outcome(result) => outcome(alloc, *result),
        Form::Elo(of) => elo(alloc, *of),
        Form::Unary(word, a) => part_of(alloc, Word::Unary(*word).text(), a),
        Form::Steps(way, m, n, a) => steps_of(alloc, Word::Way(*way).text(), *m, *n, a),
        Form::Chain(chain, parts) => parts_of(alloc, chain_word(*chain), parts),
        Form::Sum(terms) => sum_of(alloc, terms),
        Form::Pair(pair, a, b) => {
            let first = text_of(alloc, a)?;
            let second = text_of(alloc, b)?;
            in_parens(alloc, pair_word(*pair), &[first, second])
        }
        Form::If(a, b, c) => {
            let condition = text_of(alloc, a)?;
            let then = text_of(alloc, b)?;
            let otherwise = text_of(alloc, c)?;
            in_parens(alloc, Word::If.text(), &[condition, then, otherwise])
        }
        Form::Square(every, name, a, b) => {
            let word = square_word(alloc, *every)?;
            let bound = Bytes::from_slice(alloc, name.as_slice())?;
            let squares = text_of(alloc, a)?;
            let asked = text_of(alloc, b)?;
            in_parens(alloc, word.as_slice(), &[bound, squares, asked])
        }
        Form::Line(line) => line_of(alloc, line),
        Form::Played(played) => played_of(alloc, played),
        Form::Transform(family, a) => part_of(alloc, Word::Family(*family).text(), a),
        Form::Sort(least, name, a) => sort_of(alloc, *least, name, a),
        Form::Comment(note) => comment(alloc, note),
        Form::Any(kind, parts) => parts_of(alloc, any_word(*kind), parts),
    }
}

#[cycle(text)]
fn part_of(alloc: Global, word: &[u8], a: &Filter) -> Result<Bytes, NoMemory>
    ensures { IfOk result (λ t. t ≡ spec.in_parens word.now (spec.text (filter_tree a.now) ∷ [])) }
{
    let part = text_of(alloc, a)?;
    in_parens(alloc, word, &[part])
}

#[cycle(text)]
fn parts_of(alloc: Global, word: &[u8], parts: &Filters) -> Result<Bytes, NoMemory>
    ensures { IfOk result (λ t. t ≡ spec.in_parens word.now (spec.texts (filters_tree parts.now))) }
{
    let texts = texts_of(alloc, parts)?;
    in_parens(alloc, word, texts.as_slice())
}

#[cycle(text)]
fn steps_of(alloc: Global, way: &[u8], m: u32, n: u32, a: &Filter) -> Result<Bytes, NoMemory>
    ensures { IfOk result (λ t. t ≡ spec.in_parens way.now (decimal m ∷ decimal n ∷ spec.text (filter_tree a.now) ∷ [])) }
{
    let least = number(alloc, m)?;
    let most = number(alloc, n)?;
    let part = text_of(alloc, a)?;
    in_parens(alloc, way, &[least, most, part])
}

#[cycle(text)]
fn sort_of(alloc: Global, least: bool, name: &Bytes, a: &Filter) -> Result<Bytes, NoMemory>
    ensures { IfOk result (λ t. t
        ≡ spec.in_parens (spec.sort_word least) (spec.quoted name.now ∷ spec.text (filter_tree a.now) ∷ [])) }
{
    let word = sort_word(alloc, least)?;
    let title = quoted(alloc, name)?;
    let part = text_of(alloc, a)?;
    in_parens(alloc, word.as_slice(), &[title, part])
}

#[cycle(text)]
#[tactic(auto, unfolding(crate::specs::FlatText::text))]
fn texts_of(alloc: Global, filters: &Filters) -> Result<Vec<Bytes>, NoMemory>
    ensures { IfOk result (λ ts. ts.items ≡ spec.texts (filters_tree filters.now)) }
{
    let mut texts = Vec::new(alloc);
    for filter in filters.as_slice() {
        let text = text_of(alloc, filter)?;
        texts.push(text)?;
    }
    Ok(texts)
}

// The text of a sum: pairs from the left, in one pass.
#[cycle(text)]
#[tactic(auto, unfolding(crate::specs::FlatText::text), using(crate::proofs::Pairs::sum_is))]
fn sum_of(alloc: Global, terms: &Terms) -> Result<Bytes, NoMemory>
    ensures { IfOk result (λ t. t ≡ unwrap_or (spec.sum_after None (terms_tree terms.now)) (spec.in_parens (spec.sign_word false) [])) }
{
    let mut text = sum_start(alloc, terms.as_slice())?;
    let mut first = true;
    for term in terms.as_slice() {
        let part = text_of(alloc, &term.filter)?;
        push_term(&mut text, first && !term.minus, &part)?;
        first = false;
    }
    Ok(text)
}

#[cycle(text)]
#[tactic(auto, unfolding(crate::specs::FlatText::text))]
fn line_of(alloc: Global, line: &Line) -> Result<Bytes, NoMemory>
    ensures { IfOk result (λ t. t ≡ spec.line_text (line_tree line.now)) }
{
    let start = line_start(alloc, line.primary, &line.extent, line.back)?;
    let texts = part_texts(alloc, &line.parts)?;
    in_parens(alloc, start.as_slice(), texts.as_slice())
}

#[cycle(text)]
#[tactic(auto, unfolding(crate::specs::FlatText::text))]
fn part_texts(alloc: Global, parts: &Constituents) -> Result<Vec<Bytes>, NoMemory>
    ensures { IfOk result (λ ts. ts.items ≡ spec.part_texts (parts_tree parts.now)) }
{
    let mut texts = Vec::new(alloc);
    for part in parts.as_slice() {
        let body = body_of(alloc, &part.body)?;
        let text = marked(alloc, part.mark, body)?;
        texts.push(text)?;
    }
    Ok(texts)
}

#[cycle(text)]
#[tactic(auto, unfolding(crate::specs::FlatText::text))]
fn body_of(alloc: Global, body: &Body) -> Result<Bytes, NoMemory>
    ensures { IfOk result (λ t. t ≡ spec.body_text (body_tree body.now)) }
{
    match body {
        Body::Atom(filter) => text_of(alloc, filter),
        Body::Group(parts) => {
            let texts = part_texts(alloc, parts)?;
            in_parens(alloc, b"seq", texts.as_slice())
        }
    }
}

#[cycle(text)]
#[tactic(auto, unfolding(crate::specs::FlatText::text))]
fn played_of(alloc: Global, played: &Played) -> Result<Bytes, NoMemory>
    ensures { IfOk result (λ t. t ≡ spec.played_text (played_tree played.now)) }
{
    let origin = written_of(alloc, &played.origin)?;
    let goal = written_of(alloc, &played.goal)?;
    let taken = written_of(alloc, &played.taken)?;
    let promoted = written_of(alloc, &played.promoted)?;
    in_move(alloc, origin, goal, taken, promoted)
}

// The text of a part, if it is written.
#[cycle(text)]
#[tactic(auto, unfolding(crate::specs::FlatText::text))]
fn written_of(alloc: Global, written: &Option<Box<Filter>>) -> Result<Option<Bytes>, NoMemory>
    ensures { IfOk result (λ t. t ≡ spec.written_text (written_tree written.now)) }
{
    match written {
        Some(filter) => Ok(Some(text_of(alloc, filter)?)),
        None => Ok(None),
    }
}
