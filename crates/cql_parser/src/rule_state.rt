//! The states of the grammar's rules. A state is a place in a rule.
ghost use Rattle.std.specs.Prelude.{◌≡◌, ◌≤◌};
ghost use Rattle.cql_parser.specs.declared.rule_state.RuleState.TheVariants.{Bare, Counted};
ghost use Rattle.cql_parser.specs.declared.role.Role.TheVariants.{Word as WordRole, Sign as SignRole, Number as NumberRole, Text as TextRole};
ghost use Rattle.cql_parser.specs.RuleStates.{heads, unary_state, begin, opens, arrow_state, part_end_state, goes, context, least, next, whole, level_of, depth_of};

use crate::role::Role;
use cql_syntax::{Sign, Unary, Word};

/// The state of a rule: a place between its tokens and parts.
#[derive(Clone, Copy)]
pub enum RuleState {
    /// After a filter without parts.
    Leaf,
    /// After `result`.
    ResultDue,
    /// After `player`.
    PlayerDue,
    /// Before the text of a filter.
    TextDue,
    /// After `elo`.
    EloDue,
    /// Before the last part of a filter that takes all that binds tighter than `and`.
    Pre,
    /// After this part.
    PreDone,
    /// After `find`.
    FindDue,
    /// After `if`.
    Condition,
    /// After a condition.
    ThenDue,
    /// After `then`.
    Consequence,
    /// Before `else`.
    ElseDue,
    /// After `square`.
    AllDue,
    /// After `square all`.
    NameDue,
    /// After the name that `square` binds.
    InDue,
    /// After `in`.
    SquaresDue,
    /// After `sort`.
    MinDue,
    /// After `sort min`.
    SortText,
    /// Before the part of `~`, `#`, `power`, `light` or `dark`.
    Tight,
    /// After such a part.
    TightDone,
    /// After a direction.
    Direction,
    /// After a direction and a number.
    OneNumber,
    /// After a direction and two numbers.
    TwoNumbers,
    /// After `between`.
    BetweenOpen,
    /// Before the first part of `between`.
    BetweenFirst,
    /// Before the second part of `between`.
    BetweenSecond,
    /// After the second part of `between`.
    BetweenClose,
    /// After `max` or `min`.
    ListOpen,
    /// Before the first part of `max` or `min`.
    ListFirst,
    /// Before the second part of `max` or `min`.
    ListSecond,
    /// After two parts or more of `max` or `min`.
    ListMore,
    /// After a parenthesis.
    Parens,
    /// After a filter in parentheses.
    ParensClose,
    /// After a brace.
    Braces,
    /// After an item in braces.
    BracesMore,
    /// After a closing parenthesis or brace.
    Closed,
    /// After `line`.
    LineStart,
    /// After `line primary`.
    LineExtent,
    /// After the first number of an extent.
    LineMost,
    /// After an extent.
    LineArrow,
    /// After `move`.
    Move,
    /// After `from`.
    Origin,
    /// After the part of `from`.
    MovedFrom,
    /// After `to`.
    Goal,
    /// After the part of `to`.
    MovedTo,
    /// After `capture`.
    Taken,
    /// After the part of `capture`.
    MovedTaking,
    /// After `promote`.
    Promoted,
    /// Before a part of a line. The first flag is true in a group, the second if the line goes up.
    Part(bool, bool),
    /// After a part without a mark. The first flag is true in a group, the second if the line goes
    /// up.
    Bare(bool, bool),
    /// After the brace of a mark. The first flag is true in a group, the second if the line goes
    /// up.
    Count(bool, bool),
    /// After the first number of a mark. The first flag is true in a group, the second if the line
    /// goes up.
    Counted(bool, bool),
    /// After the comma of a mark. The first flag is true in a group, the second if the line goes
    /// up.
    UpTo(bool, bool),
    /// After the second number of a mark. The first flag is true in a group, the second if the line
    /// goes up.
    UpEnd(bool, bool),
    /// After a part with its mark. The first flag is true in a group, the second if the line goes
    /// up.
    Marked(bool, bool),
}

/// The state of a query's head, `cql ( {param} )`.
#[derive(Clone, Copy)]
pub enum HeadState {
    /// Before `cql`.
    Start,
    /// After `cql`.
    ListDue,
    /// Among the parameters.
    Params,
    /// After `input` or `output`.
    FileDue,
    /// After `matchstring`.
    MatchDue,
    /// After the head.
    Over,
}

/// The context of a filter that is due.
#[derive(Clone, Copy)]
pub enum OperandContext {
    Within,
    /// The filter begins with no number.
    NoNumber,
    /// A part of a line is due; true if the line goes up.
    LinePart(bool),
    /// No filter is due.
    NoOperand,
}

/// Returns the state of the head after a token, or `None` if the head has no such token there.
#[tactic(auto, unfolding(crate::specs::RuleStates::heads))]
pub fn heads(heading: HeadState, role: Role) -> Option<HeadState>
    ensures { result ≡ heads heading role }
{
    match heading {
        HeadState::Start => match role {
            Role::Word(Word::Cql) => Some(HeadState::ListDue),
            _ => None,
        },
        HeadState::ListDue => match role {
            Role::Sign(Sign::Open) => Some(HeadState::Params),
            _ => None,
        },
        HeadState::Params => match role {
            Role::Word(Word::Input | Word::Output) => Some(HeadState::FileDue),
            Role::Word(Word::MatchString) => Some(HeadState::MatchDue),
            Role::Word(Word::Variations) => Some(HeadState::Params),
            Role::Sign(Sign::Close) => Some(HeadState::Over),
            _ => None,
        },
        HeadState::FileDue => match role {
            Role::FileName | Role::Text => Some(HeadState::Params),
            _ => None,
        },
        HeadState::MatchDue => match role {
            Role::Text => Some(HeadState::Params),
            _ => None,
        },
        HeadState::Over => None,
    }
}

// The state after a word before one filter.
fn unary_state(unary: Unary) -> RuleState
    ensures { result ≡ unary_state unary }
{
    match unary {
        Unary::Not => RuleState::Pre,
        Unary::Complement => RuleState::Tight,
        Unary::Count => RuleState::Tight,
        Unary::Power => RuleState::Tight,
        Unary::Light => RuleState::Tight,
        Unary::Dark => RuleState::Tight,
        Unary::Find => RuleState::FindDue,
        Unary::FindUp => RuleState::Pre,
        Unary::Child => RuleState::Pre,
        Unary::Parent => RuleState::Pre,
    }
}

// The state after the first token of a filter.
fn begin(role: Role) -> Option<RuleState>
    ensures { result ≡ begin role }
{
    match role {
        Role::Designator | Role::Number(_) | Role::Name => Some(RuleState::Leaf),
        Role::Word(word) => match word {
            Word::Plain(_) => Some(RuleState::Leaf),
            Word::Unary(unary) => Some(unary_state(unary)),
            Word::Way(_) => Some(RuleState::Direction),
            Word::Family(_) => Some(RuleState::Pre),
            Word::If => Some(RuleState::Condition),
            Word::Square => Some(RuleState::AllDue),
            Word::Line => Some(RuleState::LineStart),
            Word::Move => Some(RuleState::Move),
            Word::Sort => Some(RuleState::MinDue),
            Word::Result => Some(RuleState::ResultDue),
            Word::Player => Some(RuleState::PlayerDue),
            Word::Event => Some(RuleState::TextDue),
            Word::Site => Some(RuleState::TextDue),
            Word::Elo => Some(RuleState::EloDue),
            Word::Comment => Some(RuleState::TextDue),
            Word::Between => Some(RuleState::BetweenOpen),
            Word::Max => Some(RuleState::ListOpen),
            Word::Min => Some(RuleState::ListOpen),
            _ => None,
        },
        Role::Sign(sign) => match sign {
            Sign::Tilde => Some(RuleState::Tight),
            Sign::Hash => Some(RuleState::Tight),
            Sign::Open => Some(RuleState::Parens),
            Sign::OpenBrace => Some(RuleState::Braces),
            _ => None,
        },
        _ => None,
    }
}

/// Returns the state after the first token of a filter that is due, or `None` if no such filter
/// begins with it.
#[tactic(auto, unfolding(crate::specs::RuleStates::opens))]
pub fn opens(context: OperandContext, role: Role) -> Option<RuleState>
    ensures { result ≡ opens context role }
{
    match context {
        OperandContext::NoOperand => None,
        OperandContext::NoNumber => match role {
            Role::Number(_) => None,
            _ => begin(role),
        },
        OperandContext::LinePart(back) => match role {
            Role::Sign(Sign::Open) => Some(RuleState::Part(true, back)),
            _ => begin(role),
        },
        OperandContext::Within => begin(role),
    }
}

// The state after the arrow of a line that goes this way.
fn arrow_state(group: bool, back: bool, sign: Sign) -> Option<RuleState>
    ensures { result ≡ arrow_state group back sign }
{
    match sign {
        Sign::Arrow if !back => Some(RuleState::Part(group, false)),
        Sign::BackArrow if back => Some(RuleState::Part(group, true)),
        _ => None,
    }
}

// The state after a mark that follows a part of a line.
fn part_end_state(group: bool, back: bool, sign: Sign) -> Option<RuleState>
    ensures { result ≡ part_end_state group back (SignRole sign) }
{
    match sign {
        Sign::Close if group => Some(RuleState::Closed),
        sign => arrow_state(group, back, sign),
    }
}

// The state after a mark that follows a part of a line without a mark.
#[tactic(auto, unfolding(crate::specs::RuleStates::goes))]
fn unmarked_part_state(group: bool, back: bool, sign: Sign) -> Option<RuleState>
    ensures { result ≡ goes (Bare group back) (SignRole sign) }
{
    match sign {
        Sign::Star | Sign::Plus | Sign::Question => Some(RuleState::Marked(group, back)),
        Sign::OpenBrace => Some(RuleState::Count(group, back)),
        sign => part_end_state(group, back, sign),
    }
}

// The state after a mark that follows the first number of a part's mark.
#[tactic(auto, unfolding(crate::specs::RuleStates::goes))]
fn count_mark_state(group: bool, back: bool, sign: Sign) -> Option<RuleState>
    ensures { result ≡ goes (Counted group back) (SignRole sign) }
{
    match sign {
        Sign::CloseBrace => Some(RuleState::Marked(group, back)),
        Sign::Comma => Some(RuleState::UpTo(group, back)),
        _ => None,
    }
}

// The state after a word.
#[tactic(auto, unfolding(crate::specs::RuleStates::goes))]
fn word_state(place: RuleState, word: Word) -> Option<RuleState>
    ensures { result ≡ goes place (WordRole word) }
{
    match (place, word) {
        (RuleState::PlayerDue, Word::White | Word::Black) => Some(RuleState::TextDue),
        (RuleState::EloDue, Word::White | Word::Black) => Some(RuleState::Leaf),
        (RuleState::ThenDue, Word::Then) => Some(RuleState::Consequence),
        (RuleState::ElseDue, Word::Else) => Some(RuleState::Pre),
        (RuleState::AllDue, Word::All) => Some(RuleState::NameDue),
        (RuleState::InDue, Word::In) => Some(RuleState::SquaresDue),
        (RuleState::MinDue, Word::Min) => Some(RuleState::SortText),
        (RuleState::LineStart, Word::Primary) => Some(RuleState::LineExtent),
        (RuleState::Move, Word::From) => Some(RuleState::Origin),
        (RuleState::Move | RuleState::MovedFrom, Word::To) => Some(RuleState::Goal),
        (RuleState::Move | RuleState::MovedFrom | RuleState::MovedTo, Word::Capture) => Some(
            RuleState::Taken,
        ),
        (
            RuleState::Move | RuleState::MovedFrom | RuleState::MovedTo | RuleState::MovedTaking,
            Word::Promote,
        ) => Some(RuleState::Promoted),
        _ => None,
    }
}

// The state after a mark.
#[tactic(auto, unfolding(crate::specs::RuleStates::goes))]
fn sign_state(place: RuleState, sign: Sign) -> Option<RuleState>
    ensures { result ≡ goes place (SignRole sign) }
{
    match (place, sign) {
        (RuleState::FindDue, Sign::BackArrow) => Some(RuleState::Pre),
        (RuleState::BetweenOpen, Sign::Open) => Some(RuleState::BetweenFirst),
        (RuleState::ListOpen, Sign::Open) => Some(RuleState::ListFirst),
        (RuleState::BetweenClose | RuleState::ListMore | RuleState::ParensClose, Sign::Close) =>
            Some(RuleState::Closed),
        (RuleState::BracesMore, Sign::CloseBrace) => Some(RuleState::Closed),
        (RuleState::LineStart | RuleState::LineExtent | RuleState::LineArrow, Sign::Arrow) => Some(
            RuleState::Part(false, false),
        ),
        (RuleState::LineStart | RuleState::LineExtent | RuleState::LineArrow, Sign::BackArrow) =>
            Some(RuleState::Part(false, true)),
        (RuleState::Bare(group, back), sign) => unmarked_part_state(group, back, sign),
        (RuleState::Counted(group, back), sign) => count_mark_state(group, back, sign),
        (RuleState::UpEnd(group, back), Sign::CloseBrace) => Some(RuleState::Marked(group, back)),
        (RuleState::Marked(group, back), sign) => part_end_state(group, back, sign),
        _ => None,
    }
}

// The state after a number, which may be the length of a path if the flag is true.
#[tactic(auto, unfolding(crate::specs::RuleStates::goes))]
fn number_state(place: RuleState, allowed: bool) -> Option<RuleState>
    ensures { result ≡ goes place (NumberRole allowed) }
{
    match place {
        RuleState::Direction => Some(RuleState::OneNumber),
        RuleState::OneNumber => Some(RuleState::TwoNumbers),
        RuleState::LineStart | RuleState::LineExtent if allowed => Some(RuleState::LineMost),
        RuleState::LineMost if allowed => Some(RuleState::LineArrow),
        RuleState::Count(group, back) => Some(RuleState::Counted(group, back)),
        RuleState::UpTo(group, back) => Some(RuleState::UpEnd(group, back)),
        _ => None,
    }
}

// The state after a text.
#[tactic(auto, unfolding(crate::specs::RuleStates::goes))]
fn text_state(place: RuleState) -> Option<RuleState>
    ensures { result ≡ goes place TextRole }
{
    match place {
        RuleState::PlayerDue | RuleState::TextDue => Some(RuleState::Leaf),
        RuleState::MinDue | RuleState::SortText => Some(RuleState::Pre),
        _ => None,
    }
}

/// Returns the state after a token, or `None` if the rule doesn't go on with it.
#[tactic(auto, unfolding(crate::specs::RuleStates::goes))]
pub fn goes(place: RuleState, role: Role) -> Option<RuleState>
    ensures { result ≡ goes place role }
{
    match role {
        Role::Word(word) => word_state(place, word),
        Role::Sign(sign) => sign_state(place, sign),
        Role::Number(allowed) => number_state(place, allowed),
        Role::Text => text_state(place),
        Role::Outcome => match place {
            RuleState::ResultDue => Some(RuleState::Leaf),
            _ => None,
        },
        Role::Name => match place {
            RuleState::AllDue | RuleState::NameDue => Some(RuleState::InDue),
            _ => None,
        },
        Role::FileName | Role::Designator | Role::End | Role::Other => None,
    }
}

impl RuleState {
    /// Returns the context of the filter that is due.
    #[tactic(auto, unfolding(crate::specs::RuleStates::context, crate::specs::RuleStates::spot))]
    pub fn context(self) -> OperandContext
        ensures { result ≡ context self }
    {
        match self {
            RuleState::Pre
            | RuleState::FindDue
            | RuleState::Condition
            | RuleState::Consequence
            | RuleState::SquaresDue
            | RuleState::Tight
            | RuleState::Direction
            | RuleState::OneNumber
            | RuleState::BetweenFirst
            | RuleState::BetweenSecond
            | RuleState::ListFirst
            | RuleState::ListSecond
            | RuleState::ListMore
            | RuleState::Parens
            | RuleState::Braces
            | RuleState::BracesMore
            | RuleState::Origin
            | RuleState::Goal
            | RuleState::Taken
            | RuleState::Promoted => OperandContext::Within,
            RuleState::TwoNumbers => OperandContext::NoNumber,
            RuleState::Part(_, back) => OperandContext::LinePart(back),
            _ => OperandContext::NoOperand,
        }
    }

    /// Returns the least level of the filter that is due, from 0 to 10.
    #[tactic(auto, unfolding(crate::specs::RuleStates::least, crate::specs::RuleStates::spot))]
    pub fn least(self) -> u8
        ensures value { result ≡ least self }
        ensures few { result ≤ 10 }
    {
        match self {
            RuleState::Pre | RuleState::FindDue => 2,
            RuleState::Condition
            | RuleState::Consequence
            | RuleState::BetweenFirst
            | RuleState::BetweenSecond
            | RuleState::ListFirst
            | RuleState::ListSecond
            | RuleState::ListMore
            | RuleState::Parens
            | RuleState::Braces
            | RuleState::BracesMore => 0,
            RuleState::SquaresDue => 6,
            RuleState::Tight
            | RuleState::Direction
            | RuleState::OneNumber
            | RuleState::TwoNumbers
            | RuleState::Origin
            | RuleState::Goal
            | RuleState::Taken
            | RuleState::Promoted => 9,
            _ => 10,
        }
    }

    /// Returns the state after the filter that is due.
    #[tactic(auto, unfolding(crate::specs::RuleStates::next, crate::specs::RuleStates::spot))]
    pub fn next(self) -> RuleState
        ensures { result ≡ next self }
    {
        match self {
            RuleState::Pre | RuleState::FindDue | RuleState::Promoted => RuleState::PreDone,
            RuleState::Condition => RuleState::ThenDue,
            RuleState::Consequence => RuleState::ElseDue,
            RuleState::SquaresDue => RuleState::Pre,
            RuleState::Tight
            | RuleState::Direction
            | RuleState::OneNumber
            | RuleState::TwoNumbers => RuleState::TightDone,
            RuleState::BetweenFirst => RuleState::BetweenSecond,
            RuleState::BetweenSecond => RuleState::BetweenClose,
            RuleState::ListFirst => RuleState::ListSecond,
            RuleState::ListSecond | RuleState::ListMore => RuleState::ListMore,
            RuleState::Parens => RuleState::ParensClose,
            RuleState::Braces | RuleState::BracesMore => RuleState::BracesMore,
            RuleState::Origin => RuleState::MovedFrom,
            RuleState::Goal => RuleState::MovedTo,
            RuleState::Taken => RuleState::MovedTaking,
            RuleState::Part(group, back) => RuleState::Bare(group, back),
            _ => RuleState::Closed,
        }
    }

    /// Returns true if the rule may be at its end.
    #[tactic(auto, unfolding(crate::specs::RuleStates::whole, crate::specs::RuleStates::spot))]
    pub fn is_whole(self) -> bool
        ensures { result ≡ whole self }
    {
        match self {
            RuleState::Leaf
            | RuleState::EloDue
            | RuleState::PreDone
            | RuleState::TightDone
            | RuleState::Closed
            | RuleState::Move
            | RuleState::MovedFrom
            | RuleState::MovedTo
            | RuleState::MovedTaking => true,
            RuleState::Bare(group, _) | RuleState::Marked(group, _) => !group,
            _ => false,
        }
    }

    /// Returns the level of the filter whose first token leads to this state, from 0 to 10.
    #[tactic(auto, unfolding(crate::specs::RuleStates::level_of, crate::specs::RuleStates::spot))]
    pub fn level(self) -> u8
        ensures value { result ≡ level_of self }
        ensures few { result ≤ 10 }
    {
        match self {
            RuleState::Pre
            | RuleState::FindDue
            | RuleState::Condition
            | RuleState::AllDue
            | RuleState::MinDue
            | RuleState::LineStart
            | RuleState::Move => 2,
            RuleState::Tight | RuleState::Direction => 9,
            _ => 10,
        }
    }

    /// Returns the number of levels, 0 or 1, by which the filter's parts are deeper.
    #[tactic(auto, unfolding(crate::specs::RuleStates::depth_of, crate::specs::RuleStates::spot))]
    pub fn depth(self) -> u32
        ensures value { result ≡ depth_of self }
        ensures few { result ≤ 1 }
    {
        match self {
            RuleState::Pre
            | RuleState::FindDue
            | RuleState::Condition
            | RuleState::AllDue
            | RuleState::MinDue
            | RuleState::LineStart
            | RuleState::Move
            | RuleState::Tight
            | RuleState::Direction
            | RuleState::BetweenOpen
            | RuleState::ListOpen
            | RuleState::Parens
            | RuleState::Braces
            | RuleState::Part(..) => 1,
            _ => 0,
        }
    }
}
