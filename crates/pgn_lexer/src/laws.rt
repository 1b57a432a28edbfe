//! Laws of the lexemes of a text, for the crates above. Each is proved for all texts, and a call costs nothing.
ghost use Rattle.std.specs.Prelude.{◌≡◌, ◌+◌, ℕ, Bool, true, false, List, [], ◌∷◌, ◌++◌, All, drop, length, map, slice_range};
ghost use Rattle.std.specs.List.{AllByRecursion, prefix_len};
ghost use Rattle.cq_common.specs.Text.{is_white};
ghost use Rattle.pgn_lexer.specs.Bytes.{ends_line};
ghost use Rattle.pgn_lexer.specs.Lexemes.{lexeme, lexemes, first_at, moved, tokens_of};
ghost use Rattle.pgn_lexer.specs.Readings.{reading};
ghost use Rattle.pgn_lexer.specs.Grammar.{IsLexeme, IsLongest};
ghost use Rattle.pgn_lexer.specs.Locality.{IsUncrossed, AreLexemesInOrder, within, StandsIn, Settles, Grows};
ghost use Rattle.pgn_lexer.specs.Texts.{IsSpelled, IsTokenOf, AreTokensInOrder};
ghost use Rattle.pgn_lexer.specs.SingleLexeme.{goes_on, runs_on, IsEndedBy, IsReadWhole};
ghost use Rattle.pgn_lexer.specs.declared.token.LexemeKind.{LexemeKind as AKind};
ghost use Rattle.pgn_lexer.specs.declared.token.LexemeKind.TheVariants.{Token};
ghost use Rattle.pgn_lexer.specs.declared.token.TokenKind.TheVariants.{BadByte};

/// The reading of a byte and the bytes after it is the longest lexeme there by the grammar. It is the only one of its
/// length, except that any byte may be a bad one.
pub fn readings_are_longest()
    ensures { (first : Bool) (b : ℕ) (rest : List ℕ) → IsLongest first (b ∷ rest) (reading first b rest) }
{}

/// Lexemes are in order in their text, and don't overlap.
pub fn lexemes_stand_apart()
    ensures order { (start : ℕ) (first : Bool) (bytes : List ℕ) → AreLexemesInOrder start (lexemes start first bytes) }
    ensures each { (start : ℕ) (first : Bool) (bytes : List ℕ) →
        AllByRecursion (StandsIn start first bytes) (lexemes start first bytes) }
{}

/// The lexemes of a part of a text are those of the text within that part, if no lexeme crosses the part's ends.
pub fn lexemes_are_local()
    ensures { (start : ℕ) (first : Bool) (bytes : List ℕ) (from to : ℕ) →
        IsUncrossed (start + from) (lexemes start first bytes) → IsUncrossed (start + to) (lexemes start first bytes) →
        lexemes (start + from) (first_at first bytes from) (slice_range bytes from to)
        ≡ within (start + from) (start + to) (lexemes start first bytes) }
{}

/// A byte that is not white space begins a lexeme, and the lexemes of the rest come after it.
pub fn lexemes_follow()
    ensures { (at : ℕ) (first : Bool) (b : ℕ) (bs : List ℕ) → is_white b ≡ false →
        let len = (reading first b bs).len in
        lexemes at first (b ∷ bs) ≡ lexeme at first b bs ∷ lexemes (at + len) (first_at first (b ∷ bs) len) (drop len (b ∷ bs)) }
{}

/// The bytes that follow a text make its first reading longer or leave it as it is.
pub fn readings_grow()
    ensures { (first : Bool) (b : ℕ) (bs more : List ℕ) → Grows first b bs more }
{}

/// Each prefix of a text settles its lexemes, except a last one that reaches the prefix's end and is left open. The
/// settled ones stay, whatever follows.
pub fn fronts_settle()
    ensures { (start : ℕ) (first : Bool) (front : List ℕ) → Settles start first front }
{}

/// The text of each lexeme is the bytes at its place, and one of its kind by the grammar.
pub fn lexemes_are_spelled()
    ensures { (start : ℕ) (first : Bool) (bytes : List ℕ) →
        AllByRecursion (IsSpelled start bytes) (lexemes start first bytes) }
{}

/// Tokens are in order in their text, and don't overlap. The bytes of each are a text of its kind by the grammar.
pub fn tokens_stand_apart()
    ensures order { (start : ℕ) (first : Bool) (bytes : List ℕ) → AreTokensInOrder start (tokens_of start first bytes) }
    ensures each { (start : ℕ) (first : Bool) (bytes : List ℕ) →
        All (IsTokenOf start bytes) (tokens_of start first bytes) }
{}

/// White space gives no lexeme: the lexemes of a text are those of the rest after its white space.
pub fn white_space_is_passed()
    ensures none { (at : ℕ) (first : Bool) → lexemes at first [] ≡ [] }
    ensures one { (at : ℕ) (first : Bool) (b : ℕ) (bs : List ℕ) → is_white b ≡ true →
        lexemes at first (b ∷ bs) ≡ lexemes (at + 1) (ends_line b) bs }
    ensures run { (at : ℕ) (first : Bool) (bytes : List ℕ) → let white = prefix_len is_white bytes in
        lexemes at first bytes ≡ lexemes (at + white) (first_at first bytes white) (drop white bytes) }
{}

/// A text at another place has the same lexemes, moved.
pub fn lexemes_move()
    ensures { (n at : ℕ) (first : Bool) (bytes : List ℕ) → lexemes (at + n) first bytes ≡ map (moved n) (lexemes at first bytes) }
{}

/// A text that is one lexeme, but no bad byte, is read whole if nothing follows. It is also read whole before a
/// byte that does not continue its kind, whatever comes after that byte. White space continues only escape lines, line
/// comments, and comments and strings without their end.
pub fn whole_lexemes_stay()
    ensures alone { (first : Bool) (kind : AKind) (b : ℕ) (bs : List ℕ) →
        IsLexeme first kind (b ∷ bs) → (kind ≡ Token BadByte → ⊥) → IsReadWhole first kind b bs }
    ensures before { (first : Bool) (kind : AKind) (b : ℕ) (bs more : List ℕ) →
        IsReadWhole first kind b bs → IsEndedBy kind more →
        reading first b (bs ++ more) ≡ record { kind = kind; len = length (b ∷ bs) } }
    ensures next { (at : ℕ) (first : Bool) (kind : AKind) (b : ℕ) (bs more : List ℕ) →
        IsReadWhole first kind b bs → IsEndedBy kind more → let len = length (b ∷ bs) in
        lexemes at first (b ∷ bs ++ more) ≡ record { at = at; first = first; text = b ∷ bs; kind = kind }
        ∷ lexemes (at + len) (first_at first (b ∷ bs) len) more }
    ensures white { (kind : AKind) (b : ℕ) → is_white b ≡ true → runs_on kind ≡ false → goes_on kind b ≡ false }
{}
