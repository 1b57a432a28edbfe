//! Filters that are cheap to evaluate node by node.

use cql_syntax::{Chain, Filter, Filters, Form, Kind, Plain, Played, Unary};
use cql_values::filter_forms::is_name_part;

/// Returns true if a filter is cheap to evaluate node by node. With `upwards` it may search the nodes above each node.
///
/// Filters that are the same at all nodes, as a tag, and those that take many steps, as a direction, are left to columns.
#[cycle(is_cheap)]
pub(crate) fn is_cheap(f: &Filter, upwards: bool) -> bool {
    match &f.form {
        Form::Squares(_) | Form::Number(_) | Form::Name(_) | Form::Comment(_) => true,
        Form::Plain(word) => is_cheap_word(*word),
        Form::Unary(word, part) => {
            is_cheap_mark(*word, upwards) && is_cheap(part, upwards && !goes_up(*word))
        }
        Form::Chain(chain, parts) => is_cheap_chain(*chain) && are_cheap(parts, upwards),
        Form::Pair(_, first, second) => is_cheap(first, upwards) && is_cheap(second, upwards),
        Form::If(condition, then, otherwise) => {
            is_cheap(condition, upwards) && is_cheap(then, upwards) && is_cheap(otherwise, upwards)
        }
        Form::Square(every, name, squares, asked) => {
            is_cheap(squares, upwards)
                && is_cheap(asked, upwards && is_moved(*every, name.as_slice(), asked))
        }
        Form::Played(played) => is_cheap_move(played, upwards),
        Form::Sort(.., part) => is_cheap(part, upwards),
        Form::Any(kind, parts) => is_cheap_kind(*kind) && are_cheap(parts, upwards),
        Form::Tagged(..) | Form::Outcome(_) | Form::Elo(_) | Form::Steps(..) => false,
        Form::Sum(_) | Form::Line(_) | Form::Transform(..) => false,
    }
}

#[cycle(is_cheap)]
fn are_cheap(parts: &Filters, upwards: bool) -> bool {
    for part in parts.as_slice() {
        if !is_cheap(part, upwards) {
            return false;
        }
    }
    true
}

#[cycle(is_cheap)]
fn is_cheap_move(played: &Played, upwards: bool) -> bool {
    is_cheap_part(&played.origin, upwards)
        && is_cheap_part(&played.goal, upwards)
        && is_cheap_part(&played.taken, upwards)
        && is_cheap_part(&played.promoted, upwards)
}

#[cycle(is_cheap)]
fn is_cheap_part(part: &Option<Box<Filter>>, upwards: bool) -> bool {
    match part {
        Some(part) => is_cheap(part, upwards),
        None => true,
    }
}

/// Returns true if a condition on some square plainly holds only for squares of a move: its origin, its goal or the square of its capture.
/// With `every` the result is false.
#[cycle(is_moved)]
pub(crate) fn is_moved(every: bool, name: &[u8], asked: &Filter) -> bool {
    match &asked.form {
        Form::Chain(Chain::And | Chain::All, parts) => !every && is_moved_in_some(name, parts),
        Form::Square(_, inner, _, part) => {
            !every && inner.as_slice() != name && is_moved(false, name, part)
        }
        Form::Played(played) => {
            !every
                && (is_name_part(name, &played.origin)
                    || is_name_part(name, &played.goal)
                    || is_name_part(name, &played.taken))
        }
        _ => false,
    }
}

#[cycle(is_moved)]
fn is_moved_in_some(name: &[u8], parts: &Filters) -> bool {
    for part in parts.as_slice() {
        if is_moved(false, name, part) {
            return true;
        }
    }
    false
}

// True for a word that takes no search for legal moves or of the nodes above or below.
fn is_cheap_word(word: Plain) -> bool {
    match word {
        Plain::Mate | Plain::Stalemate | Plain::Terminal | Plain::Ply | Plain::Depth => false,
        Plain::Check | Plain::Wtm | Plain::Btm | Plain::Initial | Plain::Mainline => true,
        Plain::Variation | Plain::HasComment | Plain::MoveNumber | Plain::Year => true,
    }
}

fn is_cheap_mark(word: Unary, upwards: bool) -> bool {
    match word {
        Unary::Find => false,
        Unary::FindUp => upwards,
        _ => true,
    }
}

// True for the mark that searches the nodes above. A second search upwards from each of those nodes is not cheap.
fn goes_up(word: Unary) -> bool {
    match word {
        Unary::FindUp => true,
        _ => false,
    }
}

fn is_cheap_chain(chain: Chain) -> bool {
    match chain {
        Chain::Product | Chain::Max | Chain::Min => false,
        _ => true,
    }
}

fn is_cheap_kind(kind: Kind) -> bool {
    match kind {
        Kind::Number => false,
        _ => true,
    }
}
