//! The state at a place of an archive that comes in pieces.
ghost use Rattle.std.specs.Prelude.{◌≡◌, ◌≤◌, ◌&&◌, ◌==◌, ℕ, true, false, take, nat_lt, codes, slice_index, length};
ghost use Rattle.std.specs.List.{AllByRecursion};
ghost use Rattle.pgn_cut.specs.States.{begins_further, results_from, results_after, are_spelled, takes, finishes, after, begun, is_in_mark, Stays, kind_at_end, kind_with_last, is_marker_at_end};
ghost use Rattle.pgn_cut.specs.declared.state.State.TheVariants.{Between};

use pgn_lexer::{LexemeKind, TokenKind, continues_symbol, place_of, plain_len};

/// The markers of a result that begin with the bytes of a symbol.
#[derive(Clone, Copy)]
pub(crate) struct ResultMarkers {
    white: bool,
    black: bool,
    draw: bool,
}

/// The state at a place: a part of a byte order mark at the archive's start, nothing, or a lexeme without its end so
/// far.
#[derive(Clone, Copy)]
pub(crate) enum State {
    AtStart,
    OneOfMark,
    TwoOfMark,
    Between,
    InComment,
    InLine,
    /// True if a backslash takes the next byte with it.
    InText(bool),
    InSymbol(ResultMarkers),
    InNumber,
    InSuffix,
    InNull,
}

// True if a byte continues a marker, of which `len` bytes are read.
fn begins_further(marker: &[u8], len: u64, b: u8) -> bool
    ensures { result ≡ begins_further marker.now len b }
{
    len < marker.len() as u64 && b == marker[len as usize]
}

impl ResultMarkers {
    // The markers that begin with a byte.
    fn from(b: u8) -> ResultMarkers
        ensures { result ≡ results_from b }
    {
        ResultMarkers {
            white: b == b'1',
            black: b == b'0',
            draw: b == b'1',
        }
    }

    // The markers of these that a byte continues after `len` bytes.
    fn after(self, len: u64, b: u8) -> ResultMarkers
        ensures { result ≡ results_after self len b }
    {
        ResultMarkers {
            white: self.white && begins_further(b"1-0", len, b),
            black: self.black && begins_further(b"0-1", len, b),
            draw: self.draw && begins_further(b"1/2-1/2", len, b),
        }
    }

    // True if one of them has `len` bytes.
    fn are_spelled(self, len: u64) -> bool
        ensures { result ≡ are_spelled self len }
    {
        ((self.white || self.black) && len == 3) || (self.draw && len == 7)
    }
}

impl State {
    /// Returns the state after the first byte of a lexeme. `first` is true if the byte is in the first column. None if
    /// the byte is a lexeme by itself.
    pub(crate) fn begun(first: bool, b: u8) -> Option<State>
        ensures { result ≡ begun first b }
    {
        match b {
            _ if b.is_ascii_alphanumeric() => Some(State::InSymbol(ResultMarkers::from(b))),
            b'{' => Some(State::InComment),
            b';' => Some(State::InLine),
            b'%' if first => Some(State::InLine),
            b'"' => Some(State::InText(false)),
            b'$' => Some(State::InNumber),
            b'!' => Some(State::InSuffix),
            b'?' => Some(State::InSuffix),
            b'-' => Some(State::InNull),
            _ => None,
        }
    }

    /// Returns true if nothing is open.
    pub(crate) fn is_between(self) -> bool
        ensures yes { result ≡ true → self ≡ Between }
        ensures no { result ≡ false → self ≡ Between → ⊥ }
    {
        matches!(self, State::Between)
    }

    /// Returns true if a part of a byte order mark is open.
    pub(crate) fn is_in_mark(self) -> bool
        ensures { result ≡ is_in_mark self }
    {
        matches!(self, State::AtStart | State::OneOfMark | State::TwoOfMark)
    }

    /// Returns true if a byte belongs to what is open.
    pub(crate) fn takes(self, b: u8) -> bool
        ensures { result ≡ takes self b }
    {
        match self {
            State::AtStart => b == 0xef,
            State::OneOfMark => b == 0xbb,
            State::TwoOfMark => b == 0xbf,
            State::Between | State::InComment => true,
            State::InLine | State::InText(_) => b != b'\n',
            State::InSymbol(_) => continues_symbol(b),
            State::InNumber => b.is_ascii_digit(),
            State::InSuffix => b == b'!' || b == b'?',
            State::InNull => b == b'-',
        }
    }

    /// Returns true if a byte that belongs to the open lexeme is its last, whatever follows.
    pub(crate) fn finishes(self, b: u8) -> bool
        ensures { result ≡ finishes self b }
    {
        match self {
            State::InComment => b == b'}',
            State::InText(escaped) => b == b'"' && !escaped,
            State::InSuffix | State::InNull => true,
            _ => false,
        }
    }

    /// Returns the state of the open lexeme, of which `len` bytes are read, after one more that isn't its last.
    pub(crate) fn after(self, len: u64, b: u8) -> State
        ensures { result ≡ after self len b }
    {
        match self {
            State::InText(escaped) => State::InText(b == b'\\' && !escaped),
            State::InSymbol(results) => State::InSymbol(results.after(len, b)),
            _ => self,
        }
    }

    /// Returns the kind of the open lexeme if no more bytes belong to it, as far as a cut distinguishes kinds.
    pub(crate) fn kind_at_end(self) -> LexemeKind
        ensures { result ≡ kind_at_end self }
    {
        let kind = match self {
            State::InComment => TokenKind::UnclosedComment,
            State::InLine => TokenKind::LineComment,
            State::InText(_) => TokenKind::UnclosedText,
            State::InSymbol(_) => TokenKind::Symbol,
            _ => TokenKind::BadByte,
        };
        LexemeKind::Token(kind)
    }

    /// Returns its kind with its last byte.
    pub(crate) fn kind_with_last(self) -> LexemeKind
        ensures { result ≡ kind_with_last self }
    {
        let kind = match self {
            State::InComment => TokenKind::Comment,
            State::InText(_) => TokenKind::Text,
            _ => TokenKind::Null,
        };
        LexemeKind::Token(kind)
    }

    /// Returns true if the open lexeme marks a result if it has `len` bytes and no more belong to it.
    pub(crate) fn is_marker_at_end(self, len: u64) -> bool
        ensures { result ≡ is_marker_at_end self len }
    {
        match self {
            State::InSymbol(results) => results.are_spelled(len),
            _ => false,
        }
    }

    /// Returns a number of bytes at the start of some that surely leave the state as it is. They are those of a
    /// comment, a line or a string before the first that may end it.
    pub(crate) fn run_len(self, bytes: &[u8]) -> usize
        ensures within { result ≤ length bytes.now }
        ensures stays { AllByRecursion (Stays self) (take result bytes.now) }
    {
        match self {
            State::InComment => place_of(b'}', bytes),
            State::InLine => place_of(b'\n', bytes),
            State::InText(false) => plain_len(bytes),
            _ => 0,
        }
    }
}
