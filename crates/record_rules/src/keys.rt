//! Record paths.

ghost use Rattle.std.specs.Prelude.{◌≡◌, ◌==◌, ◌≤◌, ◌||◌, length, codes};
ghost use Rattle.std.specs.List.{list_all, position_or_len};
ghost use Rattle.std.specs.Char.{is_ascii_alphanumeric};
ghost use Rattle.spec.specs.Keys.{is_one_of, is_slash, is_collection, is_record_key, is_repository_key};

use crate::letters::is_one_of;

/// Whether these bytes are a collection, a slash and a record key (AT Protocol repository v3, paths): the test of a write's
/// key.
pub fn is_repository_key(key: &[u8]) -> bool
    ensures { result ≡ is_repository_key key.now }
{
    let slash = slash_in(key);
    if slash == key.len() {
        return false;
    }
    is_collection(&key[..slash]) && is_record_key(&key[slash + 1..])
}

/// The place of the first slash, or the length where there is none.
fn slash_in(bytes: &[u8]) -> usize
    ensures place { result ≡ position_or_len is_slash bytes.now }
    ensures within { result ≤ length bytes.now }
{
    bytes.iter().position(|c| *c == b'/').unwrap_or(bytes.len())
}

/// Whether these bytes are a collection.
fn is_collection(name: &[u8]) -> bool
    ensures { result ≡ is_collection name.now }
{
    name.len() > 0 && name.len() <= 317 && are_collection_letters(name)
}

fn are_collection_letters(bytes: &[u8]) -> bool
    ensures { result ≡ list_all (λ x. is_ascii_alphanumeric x || is_one_of (codes ".-") x)
        bytes.now }
{
    bytes
        .iter()
        .all(|c| c.is_ascii_alphanumeric() || is_one_of(b".-", *c))
}

/// Whether these bytes are a record key.
fn is_record_key(name: &[u8]) -> bool
    ensures { result ≡ is_record_key name.now }
{
    name.len() > 0
        && name.len() <= 512
        && are_record_key_letters(name)
        && name != b".".as_slice()
        && name != b"..".as_slice()
}

fn are_record_key_letters(bytes: &[u8]) -> bool
    ensures { result ≡ list_all (λ x. is_ascii_alphanumeric x || is_one_of (codes "._:~-") x)
        bytes.now }
{
    bytes
        .iter()
        .all(|c| c.is_ascii_alphanumeric() || is_one_of(b"._:~-", *c))
}
