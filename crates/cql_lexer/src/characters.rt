//! Kinds of bytes.
ghost use Rattle.std.specs.Prelude.{◌≡◌, ◌==◌};
ghost use Rattle.std.specs.List.{position, prefix_len};
ghost use Rattle.cql_lexer.specs.Characters.{is_name_byte, is_file_byte};

use memchr::memchr;

/// Returns true for a byte that names are made of: a letter, a digit or `_`.
pub fn is_name_byte(b: u8) -> bool
    ensures { result ≡ is_name_byte b }
{
    b.is_ascii_alphanumeric() || b == b'_'
}

/// Returns true for a byte that names of files are made of.
pub fn is_file_byte(b: u8) -> bool
    ensures { result ≡ is_file_byte b }
{
    b >= 0x21 && !matches!(b, b'"' | b'(' | b')')
}

/// Returns the number of bytes of a name at the front.
pub fn name_len(text: &[u8]) -> usize
    ensures { result ≡ prefix_len is_name_byte text.now }
{
    text.iter().take_while(|b| is_name_byte(**b)).count()
}

/// Returns the number of bytes of a file's name at the front.
pub fn file_name_len(text: &[u8]) -> usize
    ensures { result ≡ prefix_len is_file_byte text.now }
{
    text.iter().take_while(|b| is_file_byte(**b)).count()
}

/// Returns the first place of a byte, from 0.
pub fn find(needle: u8, text: &[u8]) -> Option<usize>
    ensures { result ≡ position (λ b. b == needle) text.now }
{
    memchr(needle, text)
}
