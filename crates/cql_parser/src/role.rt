//! The role of a token in the grammar.
ghost use Rattle.std.specs.Prelude.{◌≡◌, ◌≤◌};
ghost use Rattle.cql_parser.specs.RuleStates.{role, word_role, sign_role, joint, infix_level, chain_level, pair_level, takes, joins};

use cql_syntax::{Chain, LONGEST_PATH, Pair, QueryTokenKind, Sign, Word, sign_of, word_of};

/// The operation of a token between two filters.
#[derive(Clone, Copy)]
pub enum InfixOperator {
    Chained(Chain),
    /// A sum; true if the filter after the token is subtracted.
    Added(bool),
    Paired(Pair),
}

/// The role of a token in the grammar.
#[derive(Clone, Copy)]
pub enum Role {
    Word(Word),
    Sign(Sign),
    /// A number; true if it may be the length of a path, from 1 to `LONGEST_PATH`.
    Number(bool),
    Name,
    Text,
    FileName,
    Outcome,
    Designator,
    End,
    /// A token that no query has, such as a reserved name.
    Other,
}

// The role of a word.
fn word_role(word: Option<Word>) -> Role
    ensures { result ≡ word_role word }
{
    match word {
        Some(word) => Role::Word(word),
        None => Role::Other,
    }
}

// The role of a mark.
fn sign_role(sign: Option<Sign>) -> Role
    ensures { result ≡ sign_role sign }
{
    match sign {
        Some(sign) => Role::Sign(sign),
        None => Role::Other,
    }
}

/// Returns the role of a token.
#[tactic(auto, unfolding(crate::specs::RuleStates::role))]
pub fn role_of(kind: &QueryTokenKind) -> Role
    ensures { result ≡ role kind.now }
{
    match kind {
        QueryTokenKind::Word(number) => word_role(word_of(*number)),
        QueryTokenKind::Reserved(_) => Role::Other,
        QueryTokenKind::Name(_) => Role::Name,
        QueryTokenKind::Squares(_) => Role::Designator,
        QueryTokenKind::Number(number) => Role::Number(1 <= *number && *number <= LONGEST_PATH),
        QueryTokenKind::Text(_) => Role::Text,
        QueryTokenKind::FileName(_) => Role::FileName,
        QueryTokenKind::Outcome(_) => Role::Outcome,
        QueryTokenKind::Mark(number) => sign_role(sign_of(*number)),
        QueryTokenKind::End => Role::End,
    }
}

fn chain_level(chain: Chain) -> u8
    ensures value { result ≡ chain_level chain }
    ensures few { result ≤ 10 }
{
    match chain {
        Chain::Or => 0,
        Chain::And => 1,
        Chain::Product => 5,
        Chain::Union => 6,
        Chain::Intersect => 7,
        Chain::All | Chain::Max | Chain::Min => 9,
    }
}

fn pair_level(pair: Pair) -> u8
    ensures value { result ≡ pair_level pair }
    ensures few { result ≤ 10 }
{
    match pair {
        Pair::Less | Pair::AtMost | Pair::Equal | Pair::AtLeast | Pair::Greater => 3,
        Pair::Attacks | Pair::AttackedBy => 8,
        Pair::Between => 9,
    }
}

/// Returns the level of a row of filters with such tokens between them.
#[tactic(auto, unfolding(crate::specs::RuleStates::infix_level))]
pub fn infix_level(joint: InfixOperator) -> u8
    ensures value { result ≡ infix_level joint }
    ensures few { result ≤ 10 }
{
    match joint {
        InfixOperator::Chained(chain) => chain_level(chain),
        InfixOperator::Added(_) => 4,
        InfixOperator::Paired(pair) => pair_level(pair),
    }
}

/// Returns true if a filter of a level may come before the token.
#[tactic(auto, unfolding(crate::specs::RuleStates::takes))]
pub fn takes(joint: InfixOperator, level: u8) -> bool
    ensures { result ≡ takes joint level }
{
    match joint {
        InfixOperator::Chained(chain) => chain_level(chain) <= level,
        InfixOperator::Added(_) => 4 <= level,
        InfixOperator::Paired(pair) => pair_level(pair) < level,
    }
}

/// Returns the operation of a token between two filters, or `None` for any other token.
#[tactic(auto, unfolding(crate::specs::RuleStates::joint))]
pub fn infix_operator_of(role: Role) -> Option<InfixOperator>
    ensures { result ≡ joint role }
{
    match role {
        Role::Word(word) => match word {
            Word::Or => Some(InfixOperator::Chained(Chain::Or)),
            Word::And => Some(InfixOperator::Chained(Chain::And)),
            Word::Attacks => Some(InfixOperator::Paired(Pair::Attacks)),
            Word::AttackedBy => Some(InfixOperator::Paired(Pair::AttackedBy)),
            _ => None,
        },
        Role::Sign(sign) => match sign {
            Sign::Less => Some(InfixOperator::Paired(Pair::Less)),
            Sign::AtMost => Some(InfixOperator::Paired(Pair::AtMost)),
            Sign::Equal => Some(InfixOperator::Paired(Pair::Equal)),
            Sign::AtLeast => Some(InfixOperator::Paired(Pair::AtLeast)),
            Sign::Greater => Some(InfixOperator::Paired(Pair::Greater)),
            Sign::Plus => Some(InfixOperator::Added(false)),
            Sign::Minus => Some(InfixOperator::Added(true)),
            Sign::Star => Some(InfixOperator::Chained(Chain::Product)),
            Sign::Bar => Some(InfixOperator::Chained(Chain::Union)),
            Sign::Ampersand => Some(InfixOperator::Chained(Chain::Intersect)),
            _ => None,
        },
        _ => None,
    }
}

/// Returns true if a token joins filters to a row of at least this level.
pub fn joins(level: u8, role: Role) -> bool
    ensures { result ≡ joins level role }
{
    match infix_operator_of(role) {
        Some(joint) => level <= infix_level(joint),
        None => false,
    }
}
