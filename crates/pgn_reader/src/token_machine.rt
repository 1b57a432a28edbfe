//! The reading of a game token by token.
ghost use Rattle.std.specs.Prelude.{◌≡◌, ◌≢◌, ◌≤◌, ◌<◌, ◌+◌, ◌^◌, ◌==◌, nat_lt, [], length, reverse, Ok, Some, None, OnOk, IfOk};
ghost use Rattle.std.specs.List.{All};
ghost use Rattle.cq_position.specs.Board.{Board};
ghost use Rattle.cq_position.specs.Legal.{Leads};
ghost use Rattle.cq_position.specs.Games.{with_tag};
ghost use Rattle.cq_san.specs.San.{san};
ghost use Rattle.pgn_lexer.specs.declared.token.TokenKind.{TokenKind as TokenKindValue};
ghost use Rattle.pgn_reader.specs.Words.{plays, remarks, ends, opens, closes, means_nothing, out_of_place, sense_of, sense_of_symbol, sense_of_glyph, body_of, line_body_of};
ghost use Rattle.pgn_tree.specs.Words.{without_braces};
ghost use Rattle.pgn_reader.specs.Tags.{start_of, value_of, unescaped};
ghost use Rattle.pgn_reader.specs.Limits.{most_moves};
ghost use Rattle.pgn_reader.specs.Line.{position_after};
ghost use Rattle.pgn_reader.specs.ReadingPlace.{fault_at, movetext_fault, move_fault, variation_fault, end_of_variation_fault, misplaced_fault, tag_reason, name_fault, value_fault, closing_fault, marker_fault, san_reason};
ghost use Rattle.pgn_reader.specs.Internal.Machine.{first, feed, on_name, on_value, on_closing, on_move, on_marker, on_opening, on_end, on_bracket, on_sense};
ghost use Rattle.pgn_reader.specs.Internal.GameAssembly.{reading_place_of};
ghost use Rattle.pgn_reader.specs.Internal.ReaderView.{state_of, moves_in, IsSenseStep, Steps, IsLow};

use crate::fault::Reason;
use crate::line::Line;
use crate::tag_section::TagSection;
use crate::text::{after_first, are_digits, inside, result_of_text, value_of};
use cq_common::{NoMemory, Refusal};
use cq_moves::{pass, play};
use cq_position::{GameResult, Move, Position};
use cq_san::{SanFault, read_san};
use pgn_lexer::TokenKind;
use std::alloc::Global;
use std::mem;

/// The largest number of open variations.
const MOST_LEVELS: usize = 100;

/// The greatest number of a glyph.
const GREATEST_GLYPH: u32 = 255;

/// The largest number of moves of a game, as it has at most 65,536 positions.
const MOST_MOVES: u32 = 65535;

/// The phase of reading: in the movetext, after the bracket, the name or the value of a tag pair, or after the marker.
#[derive(Clone, Copy)]
pub enum Phase {
    Movetext,
    AfterBracket,
    AfterName,
    AfterValue,
    AfterResult(GameResult),
}

/// The part of a game that was read.
#[derive(Drop)]
pub struct Reader {
    /// The tags, and the position in which the game begins by them.
    pub tag_section: TagSection,
    /// The name of the tag pair that is open.
    pub name: Vec<u8>,
    /// True if tag pairs may still come.
    pub heading: bool,
    /// The number of moves that were read.
    pub moves: u32,
    /// The innermost line, and those around it, the outermost first.
    pub line: Line,
    pub around: Vec<Line>,
    pub phase: Phase,
}

// The position to which a move leads.
#[tactic(auto)]
fn position_after(position: &Position, step: &Move) -> Position
    requires { (q : Board) × Leads position.now step.now q }
    ensures { result ≡ position_after position.now step.now }
{
    if step.null {
        pass(position).unwrap_or(*position)
    } else {
        play(position, *step)
    }
}

// The reason of the fault of a text that means no move.
fn reason_of(fault: SanFault) -> Reason
    ensures { result ≡ san_reason fault }
{
    match fault {
        SanFault::NotAMove => Reason::NotAMove,
        SanFault::IllegalMove => Reason::IllegalMove,
        SanFault::AmbiguousMove => Reason::AmbiguousMove,
    }
}

// The reason at a token that isn't the next one of its tag pair.
fn tag_reason(kind: TokenKind) -> Reason
    ensures { result ≡ tag_reason kind }
{
    match kind {
        TokenKind::BadByte => Reason::BadByte,
        TokenKind::UnclosedComment => Reason::UnclosedComment,
        TokenKind::UnclosedText => Reason::UnclosedString,
        _ => Reason::BadTag,
    }
}

// The reason at a token after the marker.
fn marker_reason(kind: TokenKind) -> Reason
    ensures { marker_fault kind ≡ Some result }
{
    match kind {
        TokenKind::Nag(glyph) if glyph > GREATEST_GLYPH => Reason::NagRange,
        _ => tag_reason(kind),
    }
}

impl Reader {
    /// Returns a reader that has read nothing.
    pub fn new(alloc: Global) -> Reader
        ensures { state_of result ≡ first }
    {
        let tag_section = TagSection::new(alloc);
        let start = *tag_section.start();
        Reader {
            tag_section,
            name: Vec::new(alloc),
            heading: true,
            moves: 0,
            line: Line::of_game(alloc, start),
            around: Vec::new(alloc),
            phase: Phase::Movetext,
        }
    }

    // Reads a move.
    fn read_move(&mut self, alloc: Global, text: &[u8]) -> Result<(), Refusal<Reason>>
        requires next { self.old.line.next ≤ self.old.moves }
        requires phase { self.old.phase ≡ Phase.Movetext }
        ensures { (kind : TokenKindValue) → IsSenseStep self.old kind (plays text.now) self.new result }
    {
        let step = match read_san(self.line.reached(), text) {
            Ok(step) => step,
            Err(fault) => return Err(Refusal::Fault(reason_of(fault))),
        };
        if self.moves >= MOST_MOVES {
            return Err(Refusal::Fault(Reason::TooManyPositions));
        }
        let position = position_after(self.line.reached(), &step);
        self.line.advance(alloc, step, position)?;
        self.heading = false;
        self.moves += 1;
        Ok(())
    }

    // Reads a glyph.
    #[tactic(auto, unfolding(crate::specs::Words::sense_of_glyph))]
    fn read_glyph(&mut self, glyph: u32) -> Result<(), Refusal<Reason>>
        requires phase { self.old.phase ≡ Phase.Movetext }
        requires few { self.old.moves ≤ most_moves }
        ensures { IsSenseStep self.old (TokenKind.Nag glyph) (sense_of_glyph glyph) self.new result }
    {
        if glyph > GREATEST_GLYPH {
            return Err(Refusal::Fault(Reason::NagRange));
        }
        self.line.add_nag(glyph as u8)?;
        self.heading = false;
        Ok(())
    }

    // Reads a comment.
    fn read_comment(&mut self, body: &[u8]) -> Result<(), Refusal<Reason>>
        requires phase { self.old.phase ≡ Phase.Movetext }
        requires few { self.old.moves ≤ most_moves }
        ensures { (kind : TokenKindValue) → IsSenseStep self.old kind (remarks (without_braces body.now)) self.new result }
    {
        self.line.add_comment(body)?;
        Ok(())
    }

    // Reads a result: within a variation it means nothing, else the game ends with it.
    fn read_result(&mut self, ending: GameResult) -> Result<(), Refusal<Reason>>
        requires phase { self.old.phase ≡ Phase.Movetext }
        requires few { self.old.moves ≤ most_moves }
        ensures { (kind : TokenKindValue) → IsSenseStep self.old kind (ends ending) self.new result }
    {
        if self.around.is_empty() {
            self.phase = Phase::AfterResult(ending);
        } else {
            self.heading = false;
        }
        Ok(())
    }

    // Reads a token that means nothing.
    fn pass_over(&mut self) -> Result<(), Refusal<Reason>>
        requires phase { self.old.phase ≡ Phase.Movetext }
        requires few { self.old.moves ≤ most_moves }
        ensures { (kind : TokenKindValue) → IsSenseStep self.old kind means_nothing self.new result }
    {
        self.heading = false;
        Ok(())
    }

    // Reads the parenthesis that opens a variation.
    fn open_variation(&mut self, alloc: Global) -> Result<(), Refusal<Reason>>
        requires phase { self.old.phase ≡ Phase.Movetext }
        requires few { self.old.moves ≤ most_moves }
        ensures { (kind : TokenKindValue) → IsSenseStep self.old kind opens self.new result }
    {
        let Some(before) = self.line.before() else {
            return Err(Refusal::Fault(Reason::VariationWithoutMove));
        };
        if self.around.len() >= MOST_LEVELS {
            return Err(Refusal::Fault(Reason::TooDeep));
        }
        let inner = Line::new(alloc, self.line.level(), before);
        let outer = mem::replace(&mut self.line, inner);
        self.around.push(outer)?;
        self.heading = false;
        Ok(())
    }

    // Reads the parenthesis that ends a variation.
    fn end_variation(&mut self) -> Result<(), Refusal<Reason>>
        requires phase { self.old.phase ≡ Phase.Movetext }
        requires few { self.old.moves ≤ most_moves }
        ensures { (kind : TokenKindValue) → IsSenseStep self.old kind closes self.new result }
    {
        if self.around.is_empty() {
            return Err(Refusal::Fault(Reason::UnopenedVariation));
        }
        if self.line.before().is_none() {
            return Err(Refusal::Fault(Reason::EmptyVariation));
        }
        match self.around.pop() {
            Some(outer) => {
                let inner = mem::replace(&mut self.line, outer);
                self.line.add_variation(inner)?;
                self.heading = false;
                Ok(())
            }
            None => Err(Refusal::Fault(Reason::UnopenedVariation)),
        }
    }

    // Reads a symbol: digits number a move, a marker ends the game, and any other is a move.
    #[tactic(auto, unfolding(crate::specs::Words::sense_of_symbol))]
    fn read_symbol(&mut self, alloc: Global, text: &[u8]) -> Result<(), Refusal<Reason>>
        requires next { self.old.line.next ≤ self.old.moves }
        requires phase { self.old.phase ≡ Phase.Movetext }
        requires few { self.old.moves ≤ most_moves }
        ensures { IsSenseStep self.old TokenKind.Symbol (sense_of_symbol text.now) self.new result }
    {
        if are_digits(text) {
            return self.pass_over();
        }
        match result_of_text(text) {
            Some(ending) => self.read_result(ending),
            None => self.read_move(alloc, text),
        }
    }

    // Reads a token that is out of place in the movetext, except a bracket that may open a tag pair.
    fn read_misplaced(&mut self, kind: TokenKind, reason: Reason) -> Result<(), Refusal<Reason>>
        requires phase { self.old.phase ≡ Phase.Movetext }
        ensures { IsSenseStep self.old kind (out_of_place reason) self.new result }
    {
        match kind {
            TokenKind::Open if self.heading => {
                self.phase = Phase::AfterBracket;
                Ok(())
            }
            _ => Err(Refusal::Fault(reason)),
        }
    }

    // Reads a token of the movetext, or a bracket that opens a tag pair.
    #[tactic(auto, unfolding(crate::specs::Words::body_of, crate::specs::Words::line_body_of))]
    fn read_movetext(
        &mut self,
        alloc: Global,
        kind: TokenKind,
        text: &[u8],
    ) -> Result<(), Refusal<Reason>>
        requires next { self.old.line.next ≤ self.old.moves }
        requires phase { self.old.phase ≡ Phase.Movetext }
        requires few { self.old.moves ≤ most_moves }
        ensures { IsSenseStep self.old kind (sense_of kind text.now) self.new result }
    {
        match kind {
            TokenKind::Symbol => self.read_symbol(alloc, text),
            TokenKind::Null => self.read_move(alloc, text),
            TokenKind::Period => self.pass_over(),
            TokenKind::Star => self.read_result(GameResult::Open),
            TokenKind::LeftParen => self.open_variation(alloc),
            TokenKind::RightParen => self.end_variation(),
            TokenKind::Nag(glyph) => self.read_glyph(glyph),
            TokenKind::Comment => self.read_comment(inside(text)),
            TokenKind::LineComment => self.read_comment(after_first(text)),
            TokenKind::Open | TokenKind::Close | TokenKind::Text => {
                self.read_misplaced(kind, Reason::BadTag)
            }
            TokenKind::BadByte => self.read_misplaced(kind, Reason::BadByte),
            TokenKind::UnclosedComment => self.read_misplaced(kind, Reason::UnclosedComment),
            TokenKind::UnclosedText => self.read_misplaced(kind, Reason::UnclosedString),
        }
    }

    // Reads the name of a tag pair.
    fn read_name(
        &mut self,
        alloc: Global,
        kind: TokenKind,
        text: &[u8],
    ) -> Result<(), Refusal<Reason>>
        requires phase { self.old.phase ≡ Phase.AfterBracket }
        ensures { Steps (on_name self.old.tag_section.tags kind text.now) (name_fault kind) (state_of self.new) result }
    {
        match kind {
            TokenKind::Symbol => {
                self.name = Vec::from_slice(alloc, text)?;
                self.phase = Phase::AfterName;
                Ok(())
            }
            _ => Err(Refusal::Fault(tag_reason(kind))),
        }
    }

    // Reads the value of a tag pair.
    fn read_value(
        &mut self,
        alloc: Global,
        kind: TokenKind,
        text: &[u8],
    ) -> Result<(), Refusal<Reason>>
        requires phase { self.old.phase ≡ Phase.AfterName }
        ensures { Steps (on_value (with_tag self.old.tag_section.tags self.old.name.items (value_of text.now)) kind)
            (value_fault kind (start_of (with_tag self.old.tag_section.tags self.old.name.items (value_of text.now)))) (state_of self.new) result }
    {
        match kind {
            TokenKind::Text => {
                let value = value_of(alloc, text)?;
                let name = mem::replace(&mut self.name, Vec::new(alloc));
                match self.tag_section.add(name, value) {
                    Ok(()) => {
                        self.phase = Phase::AfterValue;
                        Ok(())
                    }
                    Err(Refusal::Fault(_)) => Err(Refusal::Fault(Reason::BadFen)),
                    Err(Refusal::NoMemory) => Err(Refusal::NoMemory),
                }
            }
            _ => Err(Refusal::Fault(tag_reason(kind))),
        }
    }

    // Reads the bracket that closes a tag pair. The comments before it are dropped.
    fn read_closing(&mut self, alloc: Global, kind: TokenKind) -> Result<(), Refusal<Reason>>
        requires phase { self.old.phase ≡ Phase.AfterValue }
        ensures { Steps (on_closing self.old.tag_section.tags self.old.tag_section.start kind) (closing_fault kind) (state_of self.new) result }
    {
        match kind {
            TokenKind::Close => {
                self.heading = true;
                self.moves = 0;
                self.line = Line::of_game(alloc, *self.tag_section.start());
                self.around = Vec::new(alloc);
                self.phase = Phase::Movetext;
                Ok(())
            }
            _ => Err(Refusal::Fault(tag_reason(kind))),
        }
    }

    /// Reads a token.
    ///
    /// # Errors
    ///
    /// - A [`Reason`]: no game continues with the token, or its move makes one position too many.
    /// - `NoMemory`: out of memory.
    #[tactic(auto, unfolding(crate::specs::Internal::Machine::feed, crate::specs::Words::sense))]
    pub fn feed(
        &mut self,
        alloc: Global,
        kind: TokenKind,
        text: &[u8],
    ) -> Result<(), Refusal<Reason>>
        requires low { IsLow (state_of self.old) }
        requires few { moves_in (state_of self.old) ≤ most_moves }
        ensures { Steps (feed (state_of self.old) (record { kind = kind; text = text.now }))
            (fault_at (reading_place_of (state_of self.old)) (record { kind = kind; text = text.now })) (state_of self.new) result }
    {
        match self.phase {
            Phase::Movetext => self.read_movetext(alloc, kind, text),
            Phase::AfterBracket => self.read_name(alloc, kind, text),
            Phase::AfterName => self.read_value(alloc, kind, text),
            Phase::AfterValue => self.read_closing(alloc, kind),
            Phase::AfterResult(_) => Err(Refusal::Fault(marker_reason(kind))),
        }
    }
}
