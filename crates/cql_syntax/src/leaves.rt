//! The values in a query tree that have no tree below them.
ghost use Rattle.std.specs.Prelude.{◌≡◌};
ghost use Rattle.cql_syntax.specs.Kinds.{plain_kind, unary_kind, chain_kind, pair_kind};

use cq_symmetry::SquarePart;

/// The kind of a filter's value at a position of a game.
#[derive(Clone, Copy, Debug, PartialEq, Eq)]
pub enum Kind {
    /// A truth value.
    Position,
    /// A set of squares.
    Set,
    /// A number, or no value.
    Number,
}

/// A filter that is one word.
#[derive(Clone, Copy, Debug, PartialEq, Eq)]
pub enum Plain {
    Check,
    Mate,
    Stalemate,
    /// White is to move.
    Wtm,
    /// Black is to move.
    Btm,
    Initial,
    Terminal,
    Mainline,
    Variation,
    HasComment,
    Ply,
    MoveNumber,
    Depth,
    Year,
}

impl Plain {
    /// Returns the kind of the filter's value.
    pub fn kind(self) -> Kind
        ensures { result ≡ plain_kind self }
    {
        match self {
            Plain::Check | Plain::Mate | Plain::Stalemate => Kind::Position,
            Plain::Wtm | Plain::Btm | Plain::Initial | Plain::Terminal => Kind::Position,
            Plain::Mainline | Plain::Variation | Plain::HasComment => Kind::Position,
            Plain::Ply | Plain::MoveNumber | Plain::Depth | Plain::Year => Kind::Number,
        }
    }
}

/// The player whose tag or rating is meant.
#[derive(Clone, Copy, Debug, PartialEq, Eq)]
pub enum Of {
    Either,
    White,
    Black,
}

/// A tag of the game in whose value a text is searched for.
#[derive(Clone, Copy, Debug, PartialEq, Eq)]
pub enum Field {
    Player(Of),
    Event,
    Site,
}

/// The result of a game, by its marker: `1-0`, `0-1`, `1/2-1/2` and `*`.
#[derive(Clone, Copy, Debug, PartialEq, Eq)]
pub enum Outcome {
    White,
    Black,
    Draw,
    Unfinished,
}

/// A direction on the board, or several of them.
#[derive(Clone, Copy, Debug, PartialEq, Eq)]
pub enum Way {
    Up,
    Down,
    Left,
    Right,
    Northeast,
    Northwest,
    Southeast,
    Southwest,
    /// The four diagonal directions.
    Diagonal,
    /// Up, down, left and right.
    Orthogonal,
    /// All eight directions.
    AnyDirection,
}

/// A filter's word or mark before its one part.
#[derive(Clone, Copy, Debug, PartialEq, Eq)]
pub enum Unary {
    Not,
    /// `~`, the squares that are not in the part.
    Complement,
    /// `#`, the number of squares.
    Count,
    Power,
    Light,
    Dark,
    Find,
    /// `find <--`, towards the root.
    FindUp,
    Child,
    Parent,
}

impl Unary {
    /// Returns the kind of the filter's value.
    pub fn kind(self) -> Kind
        ensures { result ≡ unary_kind self }
    {
        match self {
            Unary::Complement | Unary::Light | Unary::Dark => Kind::Set,
            Unary::Count | Unary::Power => Kind::Number,
            Unary::Not | Unary::Find | Unary::FindUp | Unary::Child | Unary::Parent =>
                Kind::Position,
        }
    }
}

/// A filter of any number of parts in a row, other than a sum.
#[derive(Clone, Copy, Debug, PartialEq, Eq)]
pub enum Chain {
    Or,
    And,
    /// Braces: all items hold.
    All,
    Union,
    Intersect,
    Product,
    Max,
    Min,
}

impl Chain {
    /// Returns the kind of the filter's value.
    pub fn kind(self) -> Kind
        ensures { result ≡ chain_kind self }
    {
        match self {
            Chain::Or | Chain::And | Chain::All => Kind::Position,
            Chain::Union | Chain::Intersect => Kind::Set,
            Chain::Product | Chain::Max | Chain::Min => Kind::Number,
        }
    }
}

/// A filter of two parts.
#[derive(Clone, Copy, Debug, PartialEq, Eq)]
pub enum Pair {
    Attacks,
    AttackedBy,
    Between,
    Less,
    AtMost,
    Equal,
    AtLeast,
    Greater,
}

impl Pair {
    /// Returns the kind of the filter's value.
    pub fn kind(self) -> Kind
        ensures { result ≡ pair_kind self }
    {
        match self {
            Pair::Attacks | Pair::AttackedBy | Pair::Between => Kind::Set,
            Pair::Less | Pair::AtMost | Pair::Equal | Pair::AtLeast | Pair::Greater =>
                Kind::Position,
        }
    }
}

/// The number of times that a part of a line occurs.
#[derive(Clone, Copy, Debug, PartialEq, Eq)]
pub enum Mark {
    Once,
    /// Any number of times.
    Star,
    /// At least once.
    Plus,
    /// At most once.
    Maybe,
    /// From the first number of times to the second.
    Times(u32, u32),
}

/// Men on squares.
#[derive(Clone, Copy, Debug, PartialEq, Eq)]
pub struct Designator {
    /// Bit k is man k of: white king, queen, rook, bishop, knight, pawn, the same in black, the empty square.
    pub men: u16,
    pub part: SquarePart,
}
