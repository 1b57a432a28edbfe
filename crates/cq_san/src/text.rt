//! Writing a move in Standard Algebraic Notation.
ghost use Rattle.std.specs.Prelude.{◌≡◌, Ok, ◌++◌, ◌+◌, ◌≤◌, ◌<◌, ◌&&◌, ◌||◌, not, [], length, ℕ, if◌then◌else◌, Some, None, true, false, IfSome, codes};
ghost use Rattle.std.specs.List.{list_any};
ghost use Rattle.cq_position.specs.Board.{Board};
ghost use Rattle.cq_position.specs.Attacks as attack;
ghost use Rattle.cq_position.specs.Position.{IsPosition};
ghost use Rattle.cq_geometry.specs.Squares as squares;
ghost use Rattle.cq_position.specs.Legal.{Leads, Legal, is_castling};
ghost use Rattle.cq_position.specs.Board.{is_pawn, man_at};
ghost use Rattle.cq_moves.specs.LegalMoves.{legal_list};
ghost use Rattle.cq_position.specs.declared.moves.Move.{Move as MoveValue};
ghost use Rattle.cq_san.specs.San.{san};
ghost use Rattle.cq_san.specs.Writing as writing;
ghost use Rattle.cq_san.specs.Internal.Rivals as rival;
ghost use Rattle.cq_san.specs.Spelling.{Spells};
ghost use Rattle.cq_san.specs.Reading.{IsMeant};

use crate::fit::goes_right;
use crate::origins::{is_sole_origin, origins};
use crate::parts::{Parts, PieceMove};
use arrayvec::ArrayString;
use cq_geometry::{Square, file, rank};
use cq_moves::{is_castling, is_en_passant_capture, is_mate, play};
use cq_position::position::is_pawn;
use cq_position::{Man, Move, Piece, Position, Promotion, in_check};

// The piece of a man.
fn piece_of_man(man: Man) -> Piece
    ensures { result ≡ writing.piece_of_man man }
{
    match man {
        Man::K | Man::BlackK => Piece::King,
        Man::Q | Man::BlackQ => Piece::Queen,
        Man::R | Man::BlackR => Piece::Rook,
        Man::B | Man::BlackB => Piece::Bishop,
        Man::N | Man::BlackN => Piece::Knight,
        Man::P | Man::BlackP | Man::Empty => Piece::Pawn,
    }
}

// Returns true if a man is captured, en passant included.
fn is_capture(position: &Position, m: &Move) -> bool
    ensures { result ≡ writing.is_capture position.now m.now }
{
    position.at(m.to) != Man::Empty || is_en_passant_capture(position, m)
}

// Facts about the rivals of a move, the legal moves of other men of the same kind to the same square.
#[derive(Clone, Copy)]
struct Rivals {
    any: bool,
    on_file: bool,
    on_rank: bool,
}

impl Rivals {
    // The file of the origin if there are rivals, unless some share it and none shares the rank.
    fn file_of(&self, from: Square) -> Option<u8>
        ensures { result ≡ (if self.now.any && (not self.now.on_file || self.now.on_rank) then Some (squares.file_of from) else None) }
    {
        if self.any && (!self.on_file || self.on_rank) {
            Some(file(from))
        } else {
            None
        }
    }

    // The rank of the origin if some rival shares the file.
    fn rank_of(&self, from: Square) -> Option<u8>
        ensures { result ≡ (if self.now.any && self.now.on_file then Some (squares.rank_of from) else None) }
    {
        if self.any && self.on_file {
            Some(rank(from))
        } else {
            None
        }
    }
}

// The rivals of a plain move.
fn rivals_of(position: &Position, m: &Move) -> Rivals
    requires legal { (q : Board) × Legal position.now m.now q }
    requires piece { is_pawn (man_at position.now.men m.now.from) ≡ false }
    requires plain { is_castling position.now m.now ≡ false }
    ensures any { result.any ≡ list_any (writing.is_rival position.now m.now) (legal_list position.now) }
    ensures on_file { result.on_file ≡ list_any (rival.on_file position.now m.now) (legal_list position.now) }
    ensures on_rank { result.on_rank ≡ list_any (rival.on_rank position.now m.now) (legal_list position.now) }
{
    prove!(position.is_position());
    let parts = without_origin(position, m);
    if is_sole_origin(position, &parts, m.from) {
        return Rivals {
            any: false,
            on_file: false,
            on_rank: false,
        };
    }
    let origins = origins(position, &parts);
    Rivals {
        any: is_any_elsewhere(&origins, m.from),
        on_file: is_any_on_file(&origins, m.from),
        on_rank: is_any_on_rank(&origins, m.from),
    }
}

// The parts of a move without its origin.
fn without_origin(position: &Position, m: &Move) -> PieceMove
    ensures { result ≡ rival.without_origin position.now m.now }
{
    PieceMove {
        piece: piece_of_man(position.at(m.from)),
        file: None,
        rank: None,
        goal: m.to,
        promotion: m.promotion,
    }
}

fn is_any_elsewhere(origins: &[Square], from: Square) -> bool
    ensures { result ≡ list_any (rival.is_elsewhere from) origins.now }
{
    origins.iter().any(|other| *other != from)
}

fn is_any_on_file(origins: &[Square], from: Square) -> bool
    ensures { result ≡ list_any (rival.is_elsewhere_on_file from) origins.now }
{
    origins
        .iter()
        .any(|other| *other != from && file(from) == file(*other))
}

fn is_any_on_rank(origins: &[Square], from: Square) -> bool
    ensures { result ≡ list_any (rival.is_elsewhere_on_rank from) origins.now }
{
    origins
        .iter()
        .any(|other| *other != from && rank(from) == rank(*other))
}

// The written file and rank of the origin of a plain move.
fn given_origin(position: &Position, m: &Move) -> (Option<u8>, Option<u8>)
    requires legal { (q : Board) × Legal position.now m.now q }
    requires plain { is_castling position.now m.now ≡ false }
    ensures file { result.0 ≡ writing.given_file position.now m.now }
    ensures rank { result.1 ≡ writing.given_rank position.now m.now }
{
    if is_pawn(position.at(m.from)) {
        return (given(is_capture(position, m), file(m.from)), None);
    }
    let rivals = rivals_of(position, m);
    (rivals.file_of(m.from), rivals.rank_of(m.from))
}

fn given(is_given: bool, part: u8) -> Option<u8>
    ensures { result ≡ (if is_given then Some part else None) }
{
    if is_given { Some(part) } else { None }
}

// The written parts of a plain move.
fn piece_parts(position: &Position, m: &Move) -> PieceMove
    requires legal { (q : Board) × Legal position.now m.now q }
    requires plain { is_castling position.now m.now ≡ false }
    ensures { result ≡ writing.piece_parts position.now m.now }
{
    let (file, rank) = given_origin(position, m);
    PieceMove {
        piece: piece_of_man(position.at(m.from)),
        file,
        rank,
        goal: m.to,
        promotion: m.promotion,
    }
}

// The written parts of a legal move.
#[tactic(auto, unfolding(crate::specs::Writing::san_parts))]
fn san_parts(position: &Position, m: &Move) -> Parts
    requires legal { (q : Board) × Legal position.now m.now q }
    requires null { m.now.null ≡ false }
    ensures { result ≡ writing.san_parts position.now m.now }
{
    if is_castling(position, m) {
        Parts::Castling {
            kingside: goes_right(m),
        }
    } else {
        Parts::Moved(piece_parts(position, m))
    }
}

// Adds text at the end.
fn push(text: &mut ArrayString<8>, more: &str)
    requires { length text.old.bytes + length more.now ≤ 8 }
    ensures { text.new.bytes ≡ text.old.bytes ++ more.now }
{
    text.push_str(more);
}

fn push_coordinate(text: &mut ArrayString<8>, first: char, part: Option<u8>)
    requires first { first < 98 }
    requires part { IfSome part (λ n. n < 8) }
    requires room { length text.old.bytes + length (writing.coordinate first part) ≤ 8 }
    ensures { text.new.bytes ≡ text.old.bytes ++ writing.coordinate first part }
{
    if let Some(n) = part {
        text.push(char::from(first as u8 + n));
    }
}

fn letter(piece: Piece) -> &'static str
    ensures { result.now ≡ writing.letter piece }
{
    match piece {
        Piece::King => "K",
        Piece::Queen => "Q",
        Piece::Rook => "R",
        Piece::Bishop => "B",
        Piece::Knight => "N",
        Piece::Pawn => "",
    }
}

fn promotion_text(promotion: Promotion) -> &'static str
    ensures { result.now ≡ writing.promotion_text promotion }
{
    match promotion {
        Promotion::None => "",
        Promotion::Q => "=Q",
        Promotion::R => "=R",
        Promotion::B => "=B",
        Promotion::N => "=N",
    }
}

// The sign for a position to which a move leads.
fn sign_of(position: &Position) -> &'static str
    ensures { result.now ≡ writing.sign_of position.now }
{
    let side = position.side();
    if in_check(position, side) {
        check_sign(position)
    } else {
        ""
    }
}

// The sign for a position in check.
fn check_sign(position: &Position) -> &'static str
    requires { attack.in_check position.now.men position.now.side ≡ true }
    ensures { result.now ≡ writing.sign_of position.now }
{
    prove!(position.is_position());
    if is_mate(position) { "#" } else { "+" }
}

// Writes the parts of a move of a piece.
#[tactic(auto, using(crate::proofs::Room::parts_len))]
fn write_move(text: &mut ArrayString<8>, capture: bool, m: &PieceMove)
    requires empty { text.old.bytes ≡ [] }
    requires file { IfSome m.now.file (λ n. n < 8) }
    requires rank { IfSome m.now.rank (λ n. n < 8) }
    requires room { length (writing.parts_text capture (Parts.Moved m.now)) ≤ 7 }
    ensures { text.new.bytes ≡ writing.parts_text capture (Parts.Moved m.now) }
{
    push(text, letter(m.piece));
    push_coordinate(text, 'a', m.file);
    push_coordinate(text, '1', m.rank);
    push(text, if capture { "x" } else { "" });
    push_coordinate(text, 'a', Some(file(m.goal)));
    push_coordinate(text, '1', Some(rank(m.goal)));
    push(text, promotion_text(m.promotion));
}

/// The text of a legal move, or of an allowed null move, in Standard Algebraic Notation. No other move fits the text.
pub fn san_text(position: &Position, m: Move) -> ArrayString<8>
    requires { (q : Board) × Leads position.now m q }
    ensures text { result.bytes ≡ writing.san_text position.now m }
    ensures spelled { Spells result.bytes (writing.san_parts position.now m) }
    ensures alone { IsMeant position.now (writing.san_parts position.now m) m }
    ensures read { san position.now result.bytes ≡ Ok m }
{
    prove!(position.is_position());
    text_of(position, m)
}

/// The same text, given the position after the move, so that the move isn't played again.
pub fn san_text_to(position: &Position, m: Move, after: &Position) -> ArrayString<8>
    requires { Leads position.now m after.now }
    ensures text { result.bytes ≡ writing.san_text position.now m }
    ensures spelled { Spells result.bytes (writing.san_parts position.now m) }
    ensures alone { IsMeant position.now (writing.san_parts position.now m) m }
    ensures read { san position.now result.bytes ≡ Ok m }
{
    prove!(position.is_position());
    text_to(position, &m, after)
}

#[tactic(auto, unfolding(crate::specs::Writing::san_text))]
fn text_of(position: &Position, m: Move) -> ArrayString<8>
    requires { (q : Board) × Leads position.now m q }
    ensures { result.bytes ≡ writing.san_text position.now m }
{
    if m.null {
        null_text()
    } else {
        let after = play(position, m);
        moved_text(position, &m, &after)
    }
}

#[tactic(auto, unfolding(crate::specs::Writing::san_text))]
fn text_to(position: &Position, m: &Move, after: &Position) -> ArrayString<8>
    requires { Leads position.now m.now after.now }
    ensures { result.bytes ≡ writing.san_text position.now m.now }
{
    if m.null {
        null_text()
    } else {
        moved_text(position, m, after)
    }
}

fn null_text() -> ArrayString<8>
    ensures { result.bytes ≡ codes "--" }
{
    let mut text = ArrayString::new();
    push(&mut text, "--");
    text
}

// The text of a legal move, with the sign for the position after it.
#[tactic(auto, unfolding(crate::specs::Writing::san_text))]
fn moved_text(position: &Position, m: &Move, after: &Position) -> ArrayString<8>
    requires legal { Legal position.now m.now after.now }
    requires null { m.now.null ≡ false }
    ensures { result.bytes ≡ writing.san_text position.now m.now }
{
    prove!(position.is_position());
    let mut text = ArrayString::new();
    write_parts(&mut text, is_capture(position, m), &san_parts(position, m));
    push(&mut text, sign_of(after));
    text
}

fn write_parts(text: &mut ArrayString<8>, capture: bool, parts: &Parts)
    requires empty { text.old.bytes ≡ [] }
    requires written { writing.AreOnBoard parts.now }
    requires room { length (writing.parts_text capture parts.now) ≤ 7 }
    ensures { text.new.bytes ≡ writing.parts_text capture parts.now }
{
    match parts {
        Parts::Castling { kingside: true } => push(text, "O-O"),
        Parts::Castling { kingside: false } => push(text, "O-O-O"),
        Parts::Null => push(text, "--"),
        Parts::Moved(m) => write_move(text, capture, m),
    }
}
