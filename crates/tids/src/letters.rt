//! The letters of numbers: base32-sortable (AT Protocol, TID).

ghost use Rattle.std.specs.Prelude.{◌≡◌, ◌<◌};
ghost use Rattle.tids.specs.Tids.{digit as digit_of, letter as letter_of, letters as letters_of, number_from as number_after};

/// The letter of five bits.
fn letter(digit: u64) -> u8
    requires { digit < 32 }
    ensures { result ≡ letter_of digit }
{
    if digit < 6 {
        digit as u8 + b'2'
    } else {
        digit as u8 + 91
    }
}

/// The five bits of a letter, and none for another byte.
fn digit(letter: u8) -> u64
    ensures value { result ≡ digit_of letter }
    ensures small { result < 32 }
{
    match letter {
        b'a'..=b'z' => letter as u64 - 91,
        b'2'..=b'7' => letter as u64 - 50,
        _ => 0,
    }
}

/// The letters of a number, the highest first.
#[tactic(auto, unfolding(crate::specs::Tids::letters))]
pub(crate) fn letters(number: u64) -> [u8; 13]
    ensures { result ≡ letters_of number }
{
    [
        letter(number / 0x1000_0000_0000_0000 % 32),
        letter(number / 0x80_0000_0000_0000 % 32),
        letter(number / 0x4_0000_0000_0000 % 32),
        letter(number / 0x2000_0000_0000 % 32),
        letter(number / 0x100_0000_0000 % 32),
        letter(number / 0x8_0000_0000 % 32),
        letter(number / 0x4000_0000 % 32),
        letter(number / 0x200_0000 % 32),
        letter(number / 0x10_0000 % 32),
        letter(number / 0x8000 % 32),
        letter(number / 0x400 % 32),
        letter(number / 0x20 % 32),
        letter(number % 32),
    ]
}

/// The number of letters behind a number, while it has 64 bits.
pub(crate) fn number_from(number: u64, letters: &[u8]) -> Option<u64>
    ensures { result ≡ number_after number letters.now }
{
    let [letter, rest @ ..] = letters else {
        return Some(number);
    };
    if number >= 0x800_0000_0000_0000 {
        return None;
    }
    number_from(number * 32 + digit(*letter), rest)
}
