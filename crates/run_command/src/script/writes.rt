//! The writes of a batch.
ghost use Rattle.std.specs.Prelude.{◌≡◌, map, option_map, IfOk};
ghost use Rattle.std.specs.List.{slice_split};
ghost use Rattle.batches.specs.Values.{write_of as view_of_write, writes_of as views_of_writes};
ghost use Rattle.run_command.specs.Script.{delete_of as delete_of_words, is_mark as is_mark_of, record_write as record_write_of, write_of as write_of_tokens, writes_of as writes_of_tokens};

use batches::Write;
use console::bytes_of_hex;
use std::alloc::{AllocError, Global};

/// The writes of these tokens, which semicolons part, or `None` where they are none.
pub(crate) fn writes_of(alloc: Global, tokens: &[&[u8]]) -> Result<Option<Vec<Write>>, AllocError>
    ensures { IfOk result (λ found. option_map (λ ws. views_of_writes ws.items) found
        ≡ writes_of_tokens (map (λ t. t.now) tokens.now)) }
{
    let parts = parts_of(alloc, tokens)?;
    let mut writes = Vec::new(alloc);
    for part in &parts {
        match write_of(alloc, part)? {
            Some(write) => writes.push(write)?,
            None => return Ok(None),
        }
    }
    Ok(Some(writes))
}

/// The tokens of each write.
fn parts_of<'a, 't>(
    alloc: Global,
    tokens: &'a [&'t [u8]],
) -> Result<Vec<&'a [&'t [u8]]>, AllocError>
    ensures { IfOk result (λ parts. map (λ part. map (λ t. t.now) part.now) parts.items
        ≡ slice_split is_mark_of (map (λ t. t.now) tokens.now)) }
{
    tokens.split(|token| is_mark(token)).collect(alloc)
}

/// Whether the token is the one that parts writes.
fn is_mark(token: &[u8]) -> bool
    ensures { result ≡ is_mark_of token.now }
{
    token == b";".as_slice()
}

/// The write of these tokens, or `None` where they are none.
fn write_of(alloc: Global, tokens: &[&[u8]]) -> Result<Option<Write>, AllocError>
    ensures { IfOk result (λ found. option_map view_of_write found
        ≡ write_of_tokens (map (λ t. t.now) tokens.now)) }
{
    match tokens {
        [word, key] => delete_of(alloc, word, key),
        [word, key, digits] => match bytes_of_hex(alloc, digits)? {
            Some(bytes) => record_write(alloc, word, key, bytes),
            None => Ok(None),
        },
        _ => Ok(None),
    }
}

/// The delete of a key, where this is its word.
fn delete_of(alloc: Global, word: &[u8], key: &[u8]) -> Result<Option<Write>, AllocError>
    ensures { IfOk result (λ found. option_map view_of_write found
        ≡ delete_of_words word.now key.now) }
{
    if word == b"delete".as_slice() {
        Ok(Some(Write::Delete(Vec::from_slice(alloc, key)?)))
    } else {
        Ok(None)
    }
}

/// The write of this word that leaves a record under a key, or `None` where the word is another.
fn record_write(
    alloc: Global,
    word: &[u8],
    key: &[u8],
    bytes: Vec<u8>,
) -> Result<Option<Write>, AllocError>
    ensures { IfOk result (λ found. option_map view_of_write found
        ≡ record_write_of word.now key.now bytes.items) }
{
    let key = Vec::from_slice(alloc, key)?;
    if word == b"put".as_slice() {
        Ok(Some(Write::Put(key, bytes)))
    } else if word == b"create".as_slice() {
        Ok(Some(Write::Create(key, bytes)))
    } else if word == b"update".as_slice() {
        Ok(Some(Write::Update(key, bytes)))
    } else {
        Ok(None)
    }
}
