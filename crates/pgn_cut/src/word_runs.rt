//! The bytes of words, many in one step.
ghost use Rattle.std.specs.Prelude.{◌≡◌, ◌≤◌, length, take};
ghost use Rattle.std.specs.List.{prefix_len};
ghost use Rattle.std.specs.Char.{is_ascii_alphanumeric};
ghost use Rattle.pgn_lexer.specs.Bytes.{continues_symbol};
ghost use Rattle.pgn_cut.specs.Internal.WordRuns.{is_plain, AreWords};

use pgn_lexer::continues_symbol;

/// For each of the 256 bytes, true if it is plain.
const IS_PLAIN: [bool; 256] = [
    false, false, false, false, false, false, false, false, false, true, true, true, true, true,
    false, false, false, false, false, false, false, false, false, false, false, false, false,
    false, false, false, false, false, true, false, false, true, false, false, false, false, false,
    false, false, true, false, false, true, false, true, true, true, true, true, true, true, true,
    true, true, true, false, false, true, false, false, false, true, true, true, true, true, true,
    true, true, true, true, true, true, true, true, true, true, true, true, true, true, true, true,
    true, true, true, true, false, false, false, false, true, false, true, true, true, true, true,
    true, true, true, true, true, true, true, true, true, true, true, true, true, true, true, true,
    true, true, true, true, true, false, false, false, false, false, false, false, false, false,
    false, false, false, false, false, false, false, false, false, false, false, false, false,
    false, false, false, false, false, false, false, false, false, false, false, false, false,
    false, false, false, false, false, false, false, false, false, false, false, false, false,
    false, false, false, false, false, false, false, false, false, false, false, false, false,
    false, false, false, false, false, false, false, false, false, false, false, false, false,
    false, false, false, false, false, false, false, false, false, false, false, false, false,
    false, false, false, false, false, false, false, false, false, false, false, false, false,
    false, false, false, false, false, false, false, false, false, false, false, false, false,
    false, false, false, false, false, false, false, false, false, false, false, false, false,
    false, false, false, false, false, false, false,
];

// True if a byte is plain.
#[inline]
#[tactic(auto, using(crate::proofs::WordRuns::plain_table))]
fn is_plain(b: u8) -> bool
    ensures { result ≡ is_plain b }
{
    IS_PLAIN[b as usize]
}

// The number of plain bytes at the start of some.
fn plain_len(bytes: &[u8]) -> usize
    ensures value { result ≡ prefix_len is_plain bytes.now }
    ensures within { result ≤ length bytes.now }
{
    bytes.iter().take_while(|b| is_plain(**b)).count()
}

// True if a byte continues a symbol and begins none.
fn is_misplaced(b: u8) -> bool {
    continues_symbol(b) && !b.is_ascii_alphanumeric()
}

/// Returns the number of bytes at the start of some that are words. It may be zero if the first byte begins no word,
/// so that a byte is read a few times at most.
pub(crate) fn words_len(bytes: &[u8]) -> usize
    ensures within { result ≤ length bytes.now }
    ensures words { AreWords (take result bytes.now) }
{
    if bytes.is_empty() || is_misplaced(bytes[0]) {
        return 0;
    }
    let mut end = plain_len(bytes);
    while end > 0 && continues_symbol(bytes[end - 1]) {
        end -= 1;
    }
    end
}
