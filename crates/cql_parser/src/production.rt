//! The forms that the rules of the grammar produce.
ghost use Rattle.std.specs.Prelude.{◌≡◌};
ghost use Rattle.cql_parser.specs.Productions.{production as production_by, word_production, sign_production};

use crate::rule_state::RuleState;
use cq_symmetry::Family;
use cql_syntax::{
    Chain, Designator, Field, Of, Plain, QueryTokenKind, Sign, Unary, Way, Word, sign_of, word_of,
};

/// The form that a rule of the grammar produces from its parts.
#[derive(Clone, Copy)]
pub enum Production {
    Designator(Designator),
    Number(u32),
    Name,
    Plain(Plain),
    Outcome,
    Tagged(Field),
    Elo,
    Comment,
    Unary(Unary),
    Direction(Way),
    Family(Family),
    If,
    Square,
    Sort,
    Between,
    List(Chain),
    /// The filter itself.
    Parens,
    Line,
    /// Parts of a line in parentheses.
    Group,
    Move,
}

// The production of a word's rule.
fn word_production(word: Option<Word>) -> Production
    ensures { result ≡ word_production word }
{
    match word {
        Some(word) => match word {
            Word::Plain(plain) => Production::Plain(plain),
            Word::Unary(unary) => Production::Unary(unary),
            Word::Way(way) => Production::Direction(way),
            Word::Family(family) => Production::Family(family),
            Word::Result => Production::Outcome,
            Word::Player => Production::Tagged(Field::Player(Of::Either)),
            Word::Event => Production::Tagged(Field::Event),
            Word::Site => Production::Tagged(Field::Site),
            Word::Elo => Production::Elo,
            Word::Comment => Production::Comment,
            Word::If => Production::If,
            Word::Square => Production::Square,
            Word::Sort => Production::Sort,
            Word::Between => Production::Between,
            Word::Max => Production::List(Chain::Max),
            Word::Min => Production::List(Chain::Min),
            Word::Line => Production::Line,
            Word::Move => Production::Move,
            _ => Production::Parens,
        },
        None => Production::Parens,
    }
}

// The production of a mark's rule, by the state after it.
fn sign_production(sign: Option<Sign>, place: RuleState) -> Production
    ensures { result ≡ sign_production sign place }
{
    match sign {
        Some(Sign::Tilde) => Production::Unary(Unary::Complement),
        Some(Sign::Hash) => Production::Unary(Unary::Count),
        Some(Sign::OpenBrace) => Production::List(Chain::All),
        _ => match place {
            RuleState::Part(..) => Production::Group,
            _ => Production::Parens,
        },
    }
}

/// Returns the production of the rule whose first token leads to a state.
#[tactic(auto, unfolding(crate::specs::Productions::production))]
pub fn production_of(kind: &QueryTokenKind, place: RuleState) -> Production
    ensures { result ≡ production_by kind.now place }
{
    match kind {
        QueryTokenKind::Squares(designator) => Production::Designator(*designator),
        QueryTokenKind::Number(number) => Production::Number(*number),
        QueryTokenKind::Name(_) => Production::Name,
        QueryTokenKind::Word(number) => word_production(word_of(*number)),
        QueryTokenKind::Mark(number) => sign_production(sign_of(*number), place),
        _ => Production::Parens,
    }
}
