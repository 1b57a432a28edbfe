//! Laws of Standard Algebraic Notation, for the crates above. Each is proved for all positions, and a call of it costs nothing.
ghost use Rattle.std.specs.Prelude.{◌≡◌, ℕ, List, Ok, length};
ghost use Rattle.cq_position.specs.declared.moves.Move.{Move as MoveValue};
ghost use Rattle.cq_position.specs.Board.{Board};
ghost use Rattle.cq_position.specs.Legal.{Leads};
ghost use Rattle.cq_position.specs.Position.{IsPosition};
ghost use Rattle.cq_san.specs.San.{san, MeansExactly};
ghost use Rattle.cq_san.specs.Signs.{SignsSay};
ghost use Rattle.cq_san.specs.Writing.{san_text, sign_of};

/// `san` returns each result exactly if `read_san` promises it.
pub fn san_means()
    ensures { (p : Board) (text : List ℕ) → length p.men ≡ 64 → MeansExactly p text (san p text) }
{}

/// The text of a move is read as this move.
pub fn written_is_read()
    ensures { (p : Board) (m : MoveValue) (q : Board) → IsPosition p → Leads p m q → san p (san_text p m) ≡ Ok m }
{}

/// The sign after a move's text is right about check and mate.
pub fn signs_mean()
    ensures { (p : Board) → length p.men ≡ 64 → SignsSay p (sign_of p) }
{}
