//! An archive that comes in pieces, cut into its games.
ghost use Rattle.std.specs.Prelude.{◌≡◌, ◌+◌, ◌*◌, ◌<◌, ◌≤◌, ◌^◌, ◌++◌, ◌==◌, ℕ, Bool, true, false, List, [], ◌∷◌, None, Some, length, slice_index, take, drop, OnOk, OnErr, IfOk, ◌-◌};
ghost use Rattle.std.specs.List.{AllByRecursion};
ghost use Rattle.std.specs.Option.{option_to_list};
ghost use Rattle.pgn_lexer.specs.Bytes.{ends_line};
ghost use Rattle.pgn_lexer.specs.Lexemes.{Lexeme as ALexeme};
ghost use Rattle.pgn_lexer.specs.declared.token.LexemeKind.TheVariants.{Token};
ghost use Rattle.pgn_lexer.specs.declared.token.TokenKind.TheVariants.{BadByte};
ghost use Rattle.pgn_cut.specs.Cut.{cut, closed};
ghost use Rattle.pgn_cut.specs.OpenGames.{IsOpenAt, open_place};
ghost use Rattle.pgn_cut.specs.Progress.{begins_at, progress_of, IsStepOfCut, IsViewOf};
ghost use Rattle.pgn_cut.specs.States.{takes, is_in_mark, Stays};
ghost use Rattle.pgn_cut.specs.Internal.PairRuns.{IsQuietRun};
ghost use Rattle.pgn_cut.specs.Internal.SettledLexemes.{IsSettledLexeme};
ghost use Rattle.pgn_cut.specs.Streams.{IsBetween, IsSound, IsInMark, IsInText, Stands, IsEnded, IsReady, HasTaken, StandsWith, HasGained};
ghost use Rattle.pgn_cut.specs.declared.span.Span.{Span as ASpan};
ghost use Rattle.pgn_cut.specs.declared.game.LexemeView.{LexemeView as ALook};
ghost use Rattle.pgn_cut.specs.declared.state.State.TheVariants.{Between};

use crate::game::{LexemeView, OpenGame};
use crate::laws::open_lexemes_settle;
use crate::pair_runs::pair_len;
use crate::settled_lexeme::{SettledLexeme, settled_lexeme};
use crate::span::Span;
use crate::state::State;
use crate::word_runs::words_len;
use cq_common::{NoMemory, Shared, is_white};
use pgn_lexer::{
    LexemeKind, TokenKind, lexemes_follow, lexemes_stand_apart, longest_reading,
    readings_are_longest, readings_grow, white_space_is_passed,
};

/// Cuts an archive that comes in pieces. It keeps none of the archive's bytes. It keeps what is open at its place, the
/// place where that begins, and the progress of the open game.
#[derive(Clone, Copy)]
pub struct Cutter {
    state: State,
    game: OpenGame,
    at: u64,
    first: bool,
    place: u64,
    column: bool,
}

impl Shared for Cutter {}

// A bad byte: a byte of an incomplete byte order mark.
fn bad_byte(at: u64) -> LexemeView
    requires { at < 2 ^ 62 }
    ensures { result ≡ record { at = at; end = at + 1; first = at == 0; kind = Token BadByte; marker = false } }
{
    LexemeView {
        at,
        end: at + 1,
        first: at == 0,
        kind: LexemeKind::Token(TokenKind::BadByte),
        marker: false,
    }
}

// Appends up to two spans, or leaves them as they are.
fn append(spans: &mut Vec<Span>, first: Option<Span>, second: Option<Span>) -> Result<(), NoMemory>
    ensures ok { OnOk result (spans.new.items ≡ spans.old.items ++ (option_to_list first ++ option_to_list second)) }
    ensures err { OnErr result (spans.new.items ≡ spans.old.items) }
{
    let before = spans.len();
    if let Some(span) = first {
        spans.push(span)?;
    }
    if let Some(span) = second {
        if spans.push(span).is_err() {
            spans.truncate(before);
            return Err(NoMemory);
        }
    }
    Ok(())
}

impl Cutter {
    /// Returns a cutter that was fed nothing.
    pub fn new() -> Cutter
        ensures { Stands result [] }
    {
        Cutter::in_mark(State::AtStart, 0)
    }

    // The cutter in a byte order mark, of which `place` bytes are read.
    fn in_mark(state: State, place: u64) -> Cutter
        ensures place { (result.state ≡ state) × (result.at ≡ 0) × (result.place ≡ place) }
        ensures game { result.game ≡ progress_of [] }
        ensures flat { result.game.depth ≡ 0 }
    {
        Cutter {
            state,
            game: OpenGame::new(),
            at: 0,
            first: true,
            place,
            column: false,
        }
    }

    // The cutter between lexemes at a place.
    fn between(game: OpenGame, place: u64, column: bool) -> Cutter
        ensures { result ≡ record { state = Between; game = game; at = place; first = column; place = place; column = column } }
    {
        Cutter {
            state: State::Between,
            game,
            at: place,
            first: column,
            place,
            column,
        }
    }

    // The cutter after a lexeme, from its place to another, and the game that the lexeme closes, if any.
    fn after_lexeme(
        self,
        end: u64,
        column: bool,
        kind: LexemeKind,
        marker: bool,
    ) -> (Cutter, Option<Span>)
        requires depth { self.game.depth < 2 ^ 63 }
        ensures deeper { result.0.game.depth ≤ self.game.depth + 1 }
        ensures rest { IsBetween result.0 end column }
        ensures cuts { (game : List ALexeme) (l : ALexeme)
            → IsViewOf (record { at = self.at; end = end; first = self.first; kind = kind; marker = marker }) l
            → self.game ≡ progress_of game → IsStepOfCut result.0.game result.1 l game }
    {
        let look = LexemeView {
            at: self.at,
            end,
            first: self.first,
            kind,
            marker,
        };
        let mut game = self.game;
        let closed = game.meet(look);
        (Cutter::between(game, end, column), closed)
    }

    // The cutter after a part of a byte order mark without its rest, so that its bytes are lexemes.
    fn without_mark(self) -> Cutter
        requires { is_in_mark self.state ≡ true }
        ensures counts { (result.game.depth ≤ 2) × (result.at ≤ 2) × (result.place ≡ result.at) }
        ensures ends { (fed : List ℕ) → IsInMark self fed → IsEnded result None self.state fed }
    {
        open_lexemes_settle();
        match self.state {
            State::AtStart => Cutter::between(OpenGame::new(), 0, true),
            State::OneOfMark => Cutter::between(OpenGame::new().with(bad_byte(0)), 1, false),
            _ => Cutter::between(
                OpenGame::new().with(bad_byte(0)).with(bad_byte(1)),
                2,
                false,
            ),
        }
    }

    // The cutter after the end of what is open, at its place, and the game that is closed by that, if any.
    fn ended(self) -> (Cutter, Option<Span>)
        requires depth { self.game.depth + 1 < 2 ^ 63 }
        requires place { self.place < 2 ^ 62 }
        requires at { self.at ≤ self.place }
        ensures counts { (result.0.game.depth < 2 ^ 63) × (result.0.place < 2 ^ 62) × (result.0.at ≤ result.0.place) }
        ensures ends { (fed : List ℕ) → Stands self fed → IsEnded result.0 result.1 self.state fed }
    {
        open_lexemes_settle();
        match self.state {
            State::AtStart | State::OneOfMark | State::TwoOfMark => (self.without_mark(), None),
            State::Between => (self, None),
            _ => {
                let kind = self.state.kind_at_end();
                let marker = self.state.is_marker_at_end(self.place - self.at);
                self.after_lexeme(self.place, self.column, kind, marker)
            }
        }
    }

    // The cutter after one more byte of a byte order mark.
    fn marked(self, b: u8) -> Cutter
        requires { is_in_mark self.state ≡ true }
        ensures { (fed : List ℕ) → IsInMark self fed → takes self.state b ≡ true → StandsWith result (fed ++ b ∷ []) (closed fed) }
    {
        open_lexemes_settle();
        match self.state {
            State::AtStart => Cutter::in_mark(State::OneOfMark, 1),
            State::OneOfMark => Cutter::in_mark(State::TwoOfMark, 2),
            _ => Cutter::between(OpenGame::new(), 3, true),
        }
    }

    // The cutter after a byte that leaves a lexeme open.
    fn with_open(self, state: State, column: bool) -> Cutter
        requires { self.place < 2 ^ 62 }
        ensures { result ≡ record {
          state = state;
          game = self.game;
          at = self.at;
          first = self.first;
          place = self.place + 1;
          column = column;
        } }
    {
        Cutter {
            state,
            game: self.game,
            at: self.at,
            first: self.first,
            place: self.place + 1,
            column,
        }
    }

    // The cutter after a byte at a place where nothing is open, and the game that the byte closes, if any.
    fn begun(self, b: u8) -> (Cutter, Option<Span>)
        requires state { self.state ≡ Between }
        requires depth { self.game.depth < 2 ^ 63 }
        requires place { self.place < 2 ^ 62 }
        ensures { (fed : List ℕ) (games : List ASpan) → IsReady self fed b games →
            HasTaken result.0 (fed ++ b ∷ []) (games ++ option_to_list result.1) }
    {
        open_lexemes_settle();
        let column = b == b'\n';
        if is_white(b) {
            return (Cutter::between(self.game, self.place + 1, column), None);
        }
        match State::begun(self.first, b) {
            Some(state) => (self.with_open(state, column), None),
            None => {
                let kind = longest_reading(b, &[], self.first).kind;
                self.after_lexeme(self.place + 1, column, kind, b == b'*')
            }
        }
    }

    // The cutter after a byte that belongs to what is open, and the game that the byte closes, if any.
    fn taken(self, b: u8) -> (Cutter, Option<Span>)
        requires depth { self.game.depth < 2 ^ 63 }
        requires place { self.place < 2 ^ 62 }
        requires at { self.at ≤ self.place }
        ensures { (fed : List ℕ) (games : List ASpan) → IsReady self fed b games →
            HasTaken result.0 (fed ++ b ∷ []) (games ++ option_to_list result.1) }
    {
        if self.state.is_between() {
            return self.begun(b);
        }
        open_lexemes_settle();
        let column = b == b'\n';
        if self.state.finishes(b) {
            let kind = self.state.kind_with_last();
            return self.after_lexeme(self.place + 1, column, kind, false);
        }
        let state = self.state.after(self.place - self.at, b);
        (self.with_open(state, column), None)
    }

    // The cutter after one more byte, the game that is closed before that byte and the one that is closed by it, if
    // any.
    fn step(self, b: u8) -> (Cutter, Option<Span>, Option<Span>)
        requires depth { self.game.depth + 1 < 2 ^ 63 }
        requires place { self.place < 2 ^ 62 }
        requires at { self.at ≤ self.place }
        ensures { (fed : List ℕ) → Stands self fed →
            StandsWith result.0 (fed ++ b ∷ []) (closed fed ++ (option_to_list result.1 ++ option_to_list result.2)) }
    {
        if !self.state.takes(b) {
            let (cutter, before) = self.ended();
            let (cutter, closed) = cutter.taken(b);
            return (cutter, before, closed);
        }
        if self.state.is_in_mark() {
            return (self.marked(b), None, None);
        }
        let (cutter, closed) = self.taken(b);
        (cutter, None, closed)
    }

    // The cutter after bytes that leave the open lexeme as it is.
    fn pass(&mut self, run: &[u8])
        requires some { 0 < length run.now }
        requires place { self.old.place + length run.now < 2 ^ 63 }
        ensures { (fed : List ℕ) → Stands self.old fed → AllByRecursion (Stays self.old.state) run.now →
            StandsWith self.new (fed ++ run.now) (closed fed) }
    {
        open_lexemes_settle();
        self.place += run.len() as u64;
        self.column = run[run.len() - 1] == b'\n';
    }

    // Moves on over some bytes after which nothing is open.
    fn go_on(&mut self, run: &[u8])
        requires some { 0 < length run.now }
        requires place { self.old.place + length run.now < 2 ^ 62 }
        ensures game { self.new.game ≡ self.old.game }
        ensures rest { self.old.state ≡ Between → IsBetween self.new (self.old.place + length run.now)
            (ends_line (slice_index run.now (length run.now - 1))) }
    {
        self.place += run.len() as u64;
        self.at = self.place;
        self.column = run[run.len() - 1] == b'\n';
        self.first = self.column;
    }

    // The number of bytes at the start of some that leave the progress of the open game as it is: white space, words,
    // or a tag pair.
    fn quiet_len(&self, rest: &[u8]) -> usize
        requires { 0 < length rest.now }
        ensures within { result ≤ length rest.now }
        ensures quiet { IsQuietRun self.now.game (take result rest.now) }
    {
        if self.game.passes_words() {
            return words_len(rest);
        }
        if rest[0] == b'[' && self.game.passes_pairs() {
            return pair_len(rest).unwrap_or(0);
        }
        usize::from(is_white(rest[0]))
    }

    // Moves on over bytes that leave the progress of the open game as it is.
    fn pass_quiet(&mut self, run: &[u8])
        requires state { self.old.state ≡ Between }
        requires some { 0 < length run.now }
        requires place { self.old.place + length run.now < 2 ^ 62 }
        requires quiet { IsQuietRun self.old.game run.now }
        ensures { (fed : List ℕ) → Stands self.old fed → StandsWith self.new (fed ++ run.now) (closed fed) }
    {
        open_lexemes_settle();
        self.go_on(run);
    }

    // Moves on over a lexeme that nothing follows but white space. Returns the game that it closes, if any.
    fn pass_lexeme(&mut self, run: &[u8], found: SettledLexeme) -> Option<Span>
        requires state { self.old.state ≡ Between }
        requires some { 0 < length run.now }
        requires depth { self.old.game.depth < 2 ^ 63 }
        requires place { self.old.place + length run.now < 2 ^ 62 }
        requires fits { found.len ≤ length run.now }
        requires found { IsSettledLexeme self.old.first run.now found }
        ensures { (fed : List ℕ) → Stands self.old fed → StandsWith self.new (fed ++ run.now) (closed fed ++ option_to_list result) }
    {
        open_lexemes_settle();
        let look = LexemeView {
            at: self.at,
            end: self.place + found.len as u64,
            first: self.first,
            kind: found.kind,
            marker: found.marker,
        };
        let closed = self.game.meet(look);
        self.go_on(run);
        closed
    }

    // Takes the first of the remaining bytes, and appends the games that are closed by that. Returns the number of
    // bytes taken.
    fn take_byte(&mut self, rest: &[u8], spans: &mut Vec<Span>) -> Result<usize, NoMemory>
        requires some { 0 < length rest.now }
        requires depth { self.old.game.depth + 1 < 2 ^ 63 }
        requires place { self.old.place + length rest.now < 2 ^ 62 }
        requires at { self.old.at ≤ self.old.place }
        ensures took { IfOk result (λ n. (0 < n) × (n ≤ length rest.now)) }
        ensures gained { IfOk result (λ n. HasGained self.old self.new (take n rest.now) spans.old.items spans.new.items) }
        ensures err { OnErr result (spans.new.items ≡ spans.old.items) }
    {
        let (cutter, before, closed) = self.step(rest[0]);
        append(spans, before, closed)?;
        *self = cutter;
        Ok(1)
    }

    // Takes a lexeme, if it is settled, or one byte. Nothing is open.
    fn take_lexeme(&mut self, rest: &[u8], spans: &mut Vec<Span>) -> Result<usize, NoMemory>
        requires state { self.old.state ≡ Between }
        requires some { 0 < length rest.now }
        requires depth { self.old.game.depth + 1 < 2 ^ 63 }
        requires place { self.old.place + length rest.now < 2 ^ 62 }
        requires at { self.old.at ≤ self.old.place }
        ensures took { IfOk result (λ n. (0 < n) × (n ≤ length rest.now)) }
        ensures gained { IfOk result (λ n. HasGained self.old self.new (take n rest.now) spans.old.items spans.new.items) }
        ensures err { OnErr result (spans.new.items ≡ spans.old.items) }
    {
        match settled_lexeme(self.first, rest) {
            Some(found) => {
                let closed = self.pass_lexeme(&rest[..found.taken], found);
                append(spans, None, closed)?;
                Ok(found.taken)
            }
            None => self.take_byte(rest, spans),
        }
    }

    // Takes bytes that leave all as it is, if there are some, or else a lexeme or one byte.
    fn turn(&mut self, rest: &[u8], spans: &mut Vec<Span>) -> Result<usize, NoMemory>
        requires some { 0 < length rest.now }
        requires depth { self.old.game.depth + 1 < 2 ^ 63 }
        requires place { self.old.place + length rest.now < 2 ^ 62 }
        requires at { self.old.at ≤ self.old.place }
        ensures took { IfOk result (λ n. (0 < n) × (n ≤ length rest.now)) }
        ensures gained { IfOk result (λ n. HasGained self.old self.new (take n rest.now) spans.old.items spans.new.items) }
        ensures err { OnErr result (spans.new.items ≡ spans.old.items) }
    {
        if self.state.is_between() {
            let quiet = self.quiet_len(rest);
            if quiet > 0 {
                self.pass_quiet(&rest[..quiet]);
                return Ok(quiet);
            }
            return self.take_lexeme(rest, spans);
        }
        let run = self.state.run_len(rest);
        if run > 0 {
            self.pass(&rest[..run]);
            return Ok(run);
        }
        self.take_byte(rest, spans)
    }

    /// Takes the next bytes of the archive, and appends the games that they close. All bytes together are fewer than
    /// 2^62.
    ///
    /// # Errors
    ///
    /// Fails only if out of memory, and then leaves the cutter and the spans as they are.
    pub fn feed(&mut self, piece: &[u8], spans: &mut Vec<Span>) -> Result<(), NoMemory>
        requires { (fed : List ℕ) × Stands self.old fed × (length fed + length piece.now < 2 ^ 62) }
        ensures stands { OnOk result ((fed : List ℕ) → Stands self.old fed → Stands self.new (fed ++ piece.now)) }
        ensures games { OnOk result ((fed : List ℕ) → Stands self.old fed →
            spans.new.items ≡ spans.old.items ++ drop (length (closed fed)) (closed (fed ++ piece.now))) }
        ensures unchanged { OnErr result ((self.new ≡ self.old) × (spans.new.items ≡ spans.old.items)) }
    {
        let before = spans.len();
        let mut cutter = *self;
        let mut at = 0;
        while at < piece.len() {
            match cutter.turn(&piece[at..], spans) {
                Ok(taken) => at += taken,
                Err(refusal) => {
                    spans.truncate(before);
                    return Err(refusal);
                }
            }
        }
        *self = cutter;
        Ok(())
    }

    // The place of the open game's first lexeme, or else of the open lexeme.
    fn open_place(&self) -> Option<u64>
        ensures { result ≡ open_place (begins_at self.now.game.start) self.now.state self.now.at }
    {
        let begun = self.game.begins_at();
        if begun.is_some() {
            return begun;
        }
        match self.state {
            State::AtStart | State::Between => None,
            State::OneOfMark | State::TwoOfMark => Some(0),
            _ => Some(self.at),
        }
    }

    /// Returns the place where the open game begins, or None if none is open. The bytes before it need not be kept. The
    /// games after it begin at the end of the bytes that were fed, or later.
    pub fn open_at(&self) -> Option<u64>
        ensures { (fed : List ℕ) → Stands self.now fed → IsOpenAt result fed }
    {
        open_lexemes_settle();
        lexemes_stand_apart();
        lexemes_follow();
        readings_grow();
        readings_are_longest();
        self.open_place()
    }

    /// Appends the last game, if there is one, at the archive's end. The cutter stays as it is, so a second call
    /// appends that game again.
    ///
    /// # Errors
    ///
    /// Fails only if out of memory, and then leaves the spans as they are too.
    pub fn finish(&mut self, spans: &mut Vec<Span>) -> Result<(), NoMemory>
        requires { (fed : List ℕ) × Stands self.old fed × (length fed < 2 ^ 62) }
        ensures games { OnOk result ((fed : List ℕ) → Stands self.old fed →
            spans.new.items ≡ spans.old.items ++ drop (length (closed fed)) (cut fed)) }
        ensures cutter { self.new ≡ self.old }
        ensures unchanged { OnErr result (spans.new.items ≡ spans.old.items) }
    {
        white_space_is_passed();
        let (cutter, closed) = self.ended();
        append(spans, closed, cutter.game.last(cutter.place))
    }
}
