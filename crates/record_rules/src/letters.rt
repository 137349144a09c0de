//! Letters of a text.

ghost use Rattle.std.specs.Prelude.{◌≡◌};
ghost use Rattle.std.specs.List.{list_all};
ghost use Rattle.spec.specs.Keys.{is_one_of};

/// Whether the letter is one of these.
pub(crate) fn is_one_of(letters: &[u8], letter: u8) -> bool
    ensures { result ≡ is_one_of letters.now letter }
{
    letters.iter().any(|l| *l == letter)
}

/// Whether each of the bytes is one of these letters.
pub(crate) fn are_all_of(letters: &[u8], bytes: &[u8]) -> bool
    ensures { result ≡ list_all (is_one_of letters.now) bytes.now }
{
    bytes.iter().all(|c| is_one_of(letters, *c))
}
