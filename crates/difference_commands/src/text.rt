//! The lines of the changes between two files.
ghost use Rattle.std.specs.Prelude.{◌≡◌, ◌++◌, true, IfOk, OnOk, option_map};
ghost use Rattle.std.specs.List.{flat_map};
ghost use Rattle.spec.specs.Blocks.{value_of};
ghost use Rattle.spec.specs.NodeFormat.{is_ascending};
ghost use Rattle.difference.specs.Merged.{changes_told, told_of};
ghost use Rattle.difference_commands.specs.Texts.{change_line, change_line_with, change_words, record_words};
ghost use Rattle.difference_commands.specs.Views.{pairs_in, records_in};

use crate::entry::Entry;
use cid::Cid;
use console::push_value;
use difference::KeyDifference;
use std::alloc::{AllocError, Allocator};

/// The lines of these changes.
pub(crate) fn lines_of<A: Allocator + Copy>(
    alloc: A,
    changes: &[KeyDifference<A>],
) -> Result<Vec<u8, A>, AllocError>
    ensures { IfOk result (λ text. text.items ≡ flat_map change_line (changes_told changes.now)) }
{
    let mut text = Vec::new(alloc);
    push_changes(&mut text, changes)?;
    Ok(text)
}

/// The same, each with both records, which the entries of both files have.
pub(crate) fn lines_with_records<A: Allocator + Copy>(
    alloc: A,
    changes: &[KeyDifference<A>],
    old: &[(Entry<'_>, Cid)],
    new: &[(Entry<'_>, Cid)],
) -> Result<Vec<u8, A>, AllocError>
    requires old { is_ascending (pairs_in old.now) ≡ true }
    requires new { is_ascending (pairs_in new.now) ≡ true }
    ensures { IfOk result (λ text. text.items ≡ flat_map
        (change_line_with (records_in old.now) (records_in new.now)) (changes_told changes.now)) }
{
    let mut text = Vec::new(alloc);
    push_changes_with(alloc, &mut text, changes, old, new)?;
    Ok(text)
}

/// Puts the lines of some changes at the end.
fn push_changes<A: Allocator>(
    text: &mut Vec<u8, A>,
    changes: &[KeyDifference<A>],
) -> Result<(), AllocError>
    ensures { OnOk result
        (text.new.items ≡ text.old.items ++ flat_map change_line (changes_told changes.now)) }
{
    for change in changes {
        push_words(text, change)?;
        text.push(b'\n')?;
    }
    Ok(())
}

/// Puts the lines of some changes at the end, each with both records.
fn push_changes_with<A: Allocator + Copy>(
    alloc: A,
    text: &mut Vec<u8, A>,
    changes: &[KeyDifference<A>],
    old: &[(Entry<'_>, Cid)],
    new: &[(Entry<'_>, Cid)],
) -> Result<(), AllocError>
    requires old { is_ascending (pairs_in old.now) ≡ true }
    requires new { is_ascending (pairs_in new.now) ≡ true }
    ensures { OnOk result (text.new.items ≡ text.old.items
        ++ flat_map (change_line_with (records_in old.now) (records_in new.now))
        (changes_told changes.now)) }
{
    for change in changes {
        push_words(text, change)?;
        push_record(alloc, text, record_of(old, &change.key))?;
        push_record(alloc, text, record_of(new, &change.key))?;
        text.push(b'\n')?;
    }
    Ok(())
}

/// Puts the words of a change at the end: its key, and the CIDs before and after it.
fn push_words<A: Allocator>(
    text: &mut Vec<u8, A>,
    change: &KeyDifference<A>,
) -> Result<(), AllocError>
    ensures { OnOk result
        (text.new.items ≡ text.old.items ++ change_words (told_of change.now)) }
{
    text.extend_from_slice(b"change ")?;
    text.extend_from_slice(&change.key)?;
    push_value(text, &change.before)?;
    push_value(text, &change.after)
}

/// Puts a space and the bytes of a record in hexadecimal at the end, or `-` where there is none.
fn push_record<A: Allocator + Copy>(
    alloc: A,
    text: &mut Vec<u8, A>,
    found: Option<&[u8]>,
) -> Result<(), AllocError>
    ensures { OnOk result (text.new.items
        ≡ text.old.items ++ record_words (option_map (λ bytes. bytes.now) found.entry)) }
{
    match found {
        Some(bytes) => {
            text.push(b' ')?;
            text.extend_from_slice(hex::encode(alloc, bytes)?.as_bytes())?;
        }
        None => text.extend_from_slice(b" -")?,
    }
    Ok(())
}

/// The record of a key among entries whose keys ascend.
pub(crate) fn record_of<'p>(entries: &[(Entry<'p>, Cid)], key: &[u8]) -> Option<&'p [u8]>
    requires { is_ascending (pairs_in entries.now) ≡ true }
    ensures { option_map (λ bytes. bytes.now) result ≡ value_of key.now (records_in entries.now) }
{
    match entries.binary_search_by(|entry| entry.0.key().cmp(key)) {
        Ok(place) => Some(entries[place].0.record()),
        Err(_) => None,
    }
}
