//! DIDs and revisions.

ghost use Rattle.std.specs.Prelude.{◌≡◌, ◌==◌, ◌≤◌, ◌||◌, length, codes};
ghost use Rattle.std.specs.List.{list_all, position_or_len};
ghost use Rattle.std.specs.Char.{is_ascii_alphanumeric, is_ascii_lowercase};
ghost use Rattle.spec.specs.Keys.{is_one_of};
ghost use Rattle.spec.specs.Stamps.{is_colon, is_did, is_method_name, is_method_specific_id, is_tid};

use crate::letters::{are_all_of, is_one_of};

/// Whether these bytes are a DID (W3C DID Core, DID syntax) with the letters that the AT Protocol allows, of at most 2,048
/// bytes.
pub fn is_did(did: &[u8]) -> bool
    ensures { result ≡ is_did did.now }
{
    if did.len() > 2048 {
        return false;
    }
    let Some(rest) = did.strip_prefix(b"did:") else {
        return false;
    };
    let colon = colon_in(rest);
    if colon == rest.len() {
        return false;
    }
    is_method_name(&rest[..colon]) && is_method_specific_id(&rest[colon + 1..])
}

/// The place of the first colon, or the length where there is none.
fn colon_in(bytes: &[u8]) -> usize
    ensures place { result ≡ position_or_len is_colon bytes.now }
    ensures within { result ≤ length bytes.now }
{
    bytes.iter().position(|c| *c == b':').unwrap_or(bytes.len())
}

/// Whether these bytes name the method of a DID.
fn is_method_name(name: &[u8]) -> bool
    ensures { result ≡ is_method_name name.now }
{
    name.len() > 0 && are_lowercase(name)
}

fn are_lowercase(bytes: &[u8]) -> bool
    ensures { result ≡ list_all is_ascii_lowercase bytes.now }
{
    bytes.iter().all(|c| c.is_ascii_lowercase())
}

/// Whether these bytes are what the method of a DID identifies.
fn is_method_specific_id(id: &[u8]) -> bool
    ensures { result ≡ is_method_specific_id id.now }
{
    id.len() > 0 && are_id_letters(id) && !is_one_of(b":%", id[id.len() - 1])
}

fn are_id_letters(bytes: &[u8]) -> bool
    ensures { result ≡ list_all (λ x. is_ascii_alphanumeric x || is_one_of (codes "._:%-") x)
        bytes.now }
{
    bytes
        .iter()
        .all(|c| c.is_ascii_alphanumeric() || is_one_of(b"._:%-", *c))
}

/// Whether these bytes are a timestamp identifier (AT Protocol, TID).
pub fn is_tid(rev: &[u8]) -> bool
    ensures { result ≡ is_tid rev.now }
{
    rev.len() == 13
        && are_all_of(b"234567abcdefghijklmnopqrstuvwxyz", rev)
        && are_all_of(b"234567abcdefghij", &rev[..1])
}
