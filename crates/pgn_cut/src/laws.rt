//! Laws of the cut, for the crates above. Each is proved for all archives, and a call costs nothing.
ghost use Rattle.std.specs.Prelude.{◌≡◌, ◌+◌, ◌++◌, ◌==◌, ℕ, Bool, true, false, List, [], ◌∷◌, None, All, length};
ghost use Rattle.pgn_lexer.specs.Lexemes.{lexemes, tokens_of};
ghost use Rattle.cq_common.specs.Text.{is_white};
ghost use Rattle.pgn_lexer.specs.Bytes.{ends_line, star};
ghost use Rattle.pgn_lexer.specs.Lexemes.{Lexeme as ALexeme};
ghost use Rattle.pgn_lexer.specs.Locality.{IsUnsettled};
ghost use Rattle.pgn_lexer.specs.Readings.{reading};
ghost use Rattle.pgn_cut.specs.Cut.{cut_from, cut, closed};
ghost use Rattle.pgn_cut.specs.States.{IsOpen, takes, finishes, begun, kind_at_end, kind_with_last, is_marker_at_end, EndsBefore, IsOneLexeme, EndsAs};
ghost use Rattle.pgn_cut.specs.declared.state.State.{State as AState};
ghost use Rattle.pgn_cut.specs.declared.state.State.TheVariants.{Between};
ghost use Rattle.pgn_cut.specs.GameTokens.{HasItsTokens};
ghost use Rattle.pgn_cut.specs.OneGame.{IsGameOfCut, IsGameIn, IsUncut, IsEndedByMarker};
ghost use Rattle.pgn_cut.specs.declared.span.Span.{Span as ASpan};
ghost use Rattle.pgn_cut.specs.Seams.{IsSeam};
ghost use Rattle.pgn_cut.specs.Spans.{EndsBy, AreSpansInOrder, FinishesAt};

use pgn_lexer::{
    fronts_settle, lexemes_are_local, lexemes_are_spelled, lexemes_follow, lexemes_move,
    lexemes_stand_apart, readings_are_longest, readings_grow, white_space_is_passed,
    whole_lexemes_stay,
};

/// The games of a cut are in order in their archive, each with at least one byte, and don't overlap.
pub fn games_stand_apart()
    ensures order { (archive : List ℕ) → AreSpansInOrder 0 (length archive) (cut archive) }
    ensures each { (archive : List ℕ) → All (EndsBy (length archive)) (cut archive) }
{
    lexemes_stand_apart();
}

/// The tokens of each game of a cut are the archive's lexemes within it: cut and tokens read the bytes alike.
pub fn games_have_their_tokens()
    ensures { (archive : List ℕ) → All (HasItsTokens archive) (cut archive) }
{
    lexemes_stand_apart();
    lexemes_are_local();
}

/// The bytes of each game of a cut are one game of a cut. No game ends within such bytes. They have no lexeme after a
/// marker outside variations, and no `[` in the first column after movetext. So they have no token after such a marker.
pub fn games_end_once()
    ensures each { (archive : List ℕ) → All (IsGameIn archive) (cut archive) }
    ensures lexemes { (start : ℕ) (first : Bool) (bytes : List ℕ) →
        IsGameOfCut start first bytes → IsUncut (lexemes start first bytes) }
    ensures tokens { (start : ℕ) (first : Bool) (bytes : List ℕ) →
        IsGameOfCut start first bytes → IsEndedByMarker start bytes (tokens_of start first bytes) }
{
    lexemes_stand_apart();
    lexemes_are_local();
    lexemes_are_spelled();
}

/// The games that a prefix of an archive closes are the archive's first ones. They are the first that any longer prefix
/// closes, whatever follows. A prefix has at most one game besides, which ends with it.
pub fn closed_games_stay()
    ensures stay { (front more : List ℕ) → (rest : List ASpan) × (cut (front ++ more) ≡ closed front ++ rest) }
    ensures whole { (front : List ℕ) → (last : List ASpan) × (cut front ≡ closed front ++ last) × FinishesAt (length front) last }
    ensures grow { (front more : List ℕ) → (rest : List ASpan) × (closed (front ++ more) ≡ closed front ++ rest) }
{
    fronts_settle();
    lexemes_follow();
    readings_grow();
    readings_are_longest();
}

/// An archive splits after each of its games. The bytes before the seam are cut into the games up to that one. Those
/// after it are cut, after one space, into the games after that one. They are the same games with the same tokens,
/// moved.
pub fn archives_split()
    ensures { (archive : List ℕ) (before : List ASpan) (game : ASpan) (after : List ASpan) →
        cut archive ≡ before ++ game ∷ after → IsSeam archive before game after }
{
    lexemes_stand_apart();
    lexemes_are_local();
    lexemes_are_spelled();
    lexemes_follow();
    readings_are_longest();
    white_space_is_passed();
    lexemes_move();
}

/// The reading of an open lexeme and the bytes after it follows from its state and these bytes. It ends before the
/// first that doesn't belong to it, or with its last. A byte that opens none is white space or a lexeme by itself. The
/// cut of any longer archive begins with the games that a prefix closes. It continues, whatever follows, with the
/// lexemes and bytes that the prefix leaves open.
pub fn open_lexemes_settle()
    ensures ends { (first : Bool) (s : AState) (bytes : List ℕ) → IsOpen first s bytes → (s ≡ Between → ⊥) →
        EndsAs first bytes (kind_at_end s) (is_marker_at_end s (length bytes)) (EndsBefore s) }
    ensures with_last { (first : Bool) (s : AState) (bytes : List ℕ) (b : ℕ) → IsOpen first s bytes → takes s b ≡ true →
        finishes s b ≡ true → IsOneLexeme first (bytes ++ b ∷ []) (kind_with_last s) false (λ rest. Unit {0}) }
    ensures alone { (first : Bool) (b : ℕ) → is_white b ≡ false → begun first b ≡ None →
        IsOneLexeme first (b ∷ []) (reading first b []).kind (b == star) (λ rest. Unit {0}) }
    ensures white { (at : ℕ) (first : Bool) (b : ℕ) (bs : List ℕ) → is_white b ≡ true →
        lexemes at first (b ∷ bs) ≡ lexemes (at + 1) (ends_line b) bs }
    ensures closes { (front : List ℕ) (games : List ASpan) (at : ℕ) (first : Bool) (game : List ALexeme) (s : AState) (bytes : List ℕ) →
        IsOpen first s bytes → at + length bytes ≡ length front →
        ((more : List ℕ) → cut (front ++ more) ≡ games ++ cut_from (length front + length more) game (lexemes at first (bytes ++ more))) →
        closed front ≡ games }
{
    lexemes_follow();
    readings_grow();
    readings_are_longest();
    white_space_is_passed();
    whole_lexemes_stay();
}
