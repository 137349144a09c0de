//! The words of a line `change KEY BEFORE AFTER`.
ghost use Rattle.std.specs.Prelude.{◌≡◌};
ghost use Rattle.change_commands.specs.Told.{cid_or_none, change_of_words, value_of_word};
ghost use Rattle.spec.specs.Cid.{cid_of_text};

use crate::write_lines::{Cut, cut_at_space};
use change_proofs::KeyChange;
use cid::Cid;

/// The change of three words, which are parted by one space each, or `None` where it is none.
pub(crate) fn change_of(words: &[u8]) -> Option<KeyChange<'_>>
    ensures { result ≡ change_of_words words.now }
{
    let Cut { word: key, rest } = cut_at_space(words);
    let values = cut_at_space(rest);
    let before = value_of(values.word)?;
    let after = value_of(values.rest)?;
    Some(KeyChange { key, before, after })
}

/// The CID of this text, or none where it is `-`; `None` where it is neither.
fn value_of(word: &[u8]) -> Option<Option<Cid>>
    ensures { result ≡ value_of_word word.now }
{
    if word == b"-".as_slice() {
        return Some(None);
    }
    match cid_of(word) {
        Some(cid) => Some(Some(cid)),
        None => None,
    }
}

/// The CID of this text, where it is one.
pub(crate) fn cid_of(text: &[u8]) -> Option<Cid>
    ensures { result ≡ cid_or_none (cid_of_text text.now) }
{
    match Cid::from_text(text) {
        Ok(cid) => Some(cid),
        Err(_) => None,
    }
}
