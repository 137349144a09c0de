//! The lines of a batch: `put KEY HEX`, `create KEY HEX`, `update KEY HEX` and `delete KEY`, with JSON in place of HEX in that
//! form.
ghost use Rattle.std.specs.Prelude.{◌≡◌, ◌≤◌, ◌+◌, drop, length, IfOk};
ghost use Rattle.std.specs.List.{list_any, before_first, after_first};
ghost use Rattle.console.specs.Lines.{is_space};
ghost use Rattle.record_forms.specs.Records.{record_of_word as record_of};
ghost use Rattle.repository_commands.specs.Views.{write_read};
ghost use Rattle.change_commands.specs.Stories.{delete_of as delete_of_key, record_write as record_write_of, write_by as write_by_of, write_of_line as write_of_line_of};

use batches::Write;
use console::space_in;
use record_forms::{Form, WordFault, record_of_word};
use std::alloc::{AllocError, Global};

/// A line, cut at its first space.
#[derive(Clone, Copy)]
pub(crate) struct Cut<'t> {
    /// What stands before the space.
    pub(crate) word: &'t [u8],
    /// What stands behind it.
    pub(crate) rest: &'t [u8],
}

/// All of a line before its first space, and all behind it.
pub(crate) fn cut_at_space(line: &[u8]) -> Cut<'_>
    ensures word { result.word.now ≡ before_first is_space line.now }
    ensures rest { result.rest.now ≡ after_first is_space line.now }
{
    let space = space_in(line);
    Cut {
        word: &line[..space],
        rest: behind(line, space),
    }
}

/// What stands behind a place.
fn behind(line: &[u8], place: usize) -> &[u8]
    requires { place ≤ length line.now }
    ensures { result.now ≡ drop (place + 1) line.now }
{
    if place == line.len() {
        return &line[place..];
    }
    &line[place + 1..]
}

/// The write of a line, or why it is none.
pub(crate) fn write_of_line(
    alloc: Global,
    form: Form,
    line: &[u8],
) -> Result<Result<Write, WordFault>, AllocError>
    ensures { IfOk result (λ write. write_read write ≡ write_of_line_of form line.now) }
{
    let Cut { word, rest } = cut_at_space(line);
    if word == b"delete".as_slice() {
        return delete_of(alloc, rest);
    }
    let Cut { word: key, rest } = cut_at_space(rest);
    record_write(alloc, form, word, key, rest)
}

/// The write of a word, a key and the word of a record, or why they are none.
fn record_write(
    alloc: Global,
    form: Form,
    word: &[u8],
    key: &[u8],
    record_word: &[u8],
) -> Result<Result<Write, WordFault>, AllocError>
    ensures { IfOk result (λ write. write_read write
        ≡ record_write_of word.now key.now (record_of form record_word.now)) }
{
    if key.is_empty() {
        return Ok(Err(WordFault::BadWord));
    }
    match record_of_word(alloc, form, record_word)? {
        Ok(bytes) => Ok(write_by(word, Vec::from_slice(alloc, key)?, bytes)),
        Err(fault) => Ok(Err(fault)),
    }
}

/// The write that leaves a record under a key by this word, where it is such a word.
fn write_by(word: &[u8], key: Vec<u8>, bytes: Vec<u8>) -> Result<Write, WordFault>
    ensures { write_read result ≡ write_by_of word.now key.items bytes.items }
{
    if word == b"put".as_slice() {
        return Ok(Write::Put(key, bytes));
    }
    if word == b"create".as_slice() {
        return Ok(Write::Create(key, bytes));
    }
    if word == b"update".as_slice() {
        return Ok(Write::Update(key, bytes));
    }
    Err(WordFault::BadWord)
}

/// The delete of a key without spaces, where it is one.
fn delete_of(alloc: Global, key: &[u8]) -> Result<Result<Write, WordFault>, AllocError>
    ensures { IfOk result (λ write. write_read write ≡ delete_of_key key.now) }
{
    if key.is_empty() || has_space(key) {
        return Ok(Err(WordFault::BadWord));
    }
    Ok(Ok(Write::Delete(Vec::from_slice(alloc, key)?)))
}

/// Whether there is a space in a key.
fn has_space(key: &[u8]) -> bool
    ensures { result ≡ list_any is_space key.now }
{
    key.iter().any(|c| *c == b' ')
}
