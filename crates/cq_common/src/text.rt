//! White space and decimal digits, the same in PGN and in queries.
ghost use Rattle.std.specs.Prelude.{◌≡◌, ◌≤◌, length, min, take};
ghost use Rattle.std.specs.List.{AllPass, prefix_len};
ghost use Rattle.std.specs.Char.{is_ascii_digit};
ghost use Rattle.std.specs.Str.Parse.{digits_value};
ghost use Rattle.cq_common.specs.Text.{is_white};

/// Returns true if a byte is white space: 0x09 to 0x0D, or the space, 0x20.
pub fn is_white(b: u8) -> bool
    ensures { result ≡ is_white b }
{
    matches!(b, 0x09..=0x0d | b' ')
}

/// The number of bytes of white space at the start of a text.
pub fn white_len(text: &[u8]) -> usize
    ensures value { result ≡ prefix_len is_white text.now }
    ensures within { result ≤ length text.now }
{
    text.iter().take_while(|b| is_white(**b)).count()
}

/// The number of digits at the start of a text.
#[tactic(auto, using(crate::proofs::Digits::front_digits))]
pub fn digits_len(text: &[u8]) -> usize
    ensures value { result ≡ prefix_len is_ascii_digit text.now }
    ensures within { result ≤ length text.now }
    ensures digits { AllPass is_ascii_digit (take result text.now) }
{
    text.iter().take_while(|b| b.is_ascii_digit()).count()
}

/// The number that decimal digits write, or `most` if it is greater. There can be any number of digits, leading zeros among them. No digits
/// write 0.
#[tactic(auto, using(crate::proofs::Digits::number_more, crate::proofs::Digits::digit_is))]
pub fn decimal_up_to(most: u32, digits: &[u8]) -> u32
    requires digits { AllPass is_ascii_digit digits.now }
    ensures { result ≡ min most (digits_value 10 digits.now) }
{
    let most = u64::from(most);
    let mut value = 0;
    for digit in digits {
        value = (10 * value + u64::from(*digit - b'0')).min(most);
    }
    value as u32
}
