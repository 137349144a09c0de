//! The text of a change, read again.
ghost use Rattle.std.specs.Prelude.{◌≡◌, ◌++◌, ◌∷◌, [], true, false, option_map, Some, IfErr, IfOk, OnOk};
ghost use Rattle.spec.specs.Cid.{cid_of_text};
ghost use Rattle.spec.specs.Reading.{Gives};
ghost use Rattle.key_changes.specs.Keyed.{are_changes};
ghost use Rattle.change_laws.specs.Told.{undone};
ghost use Rattle.console.specs.Lines.{lines};
ghost use Rattle.repository_commands.specs.Faults.{text_fault_of, BadLine, Line};
ghost use Rattle.repository_commands.specs.Refusals.{is_bad_line, is_refusal};
ghost use Rattle.change_commands.specs.Told.{change_of_words, cid_or_none, may_follow as may_follow_of, no_parts, told_in, told_of as told_of_parts, with_after, with_before, with_block, with_change, with_shown, with_told_line};
ghost use Rattle.repository_commands.specs.Views.{blocks_of};
ghost use Rattle.change_commands.specs.Views.{parts_if, parts_of, told_of as view_of_told};

use crate::change_words::{change_of, cid_of};
use crate::write_lines::{Cut, cut_at_space};
use bstr::ByteSlice;
use change_proofs::KeyChange;
use cid::{Cid, Digest};
use console::bytes_of_hex;
use node::is_key;
use repository_commands::{LineFault, TextFault};
use std::alloc::{AllocError, Global};

/// What a text says: both roots, the changes with the numbers of their lines, and the blocks.
#[derive(Drop)]
pub(crate) struct Told<'t> {
    pub(crate) before: Cid,
    pub(crate) after: Cid,
    pub(crate) changes: Vec<KeyChange<'t>>,
    pub(crate) numbers: Vec<u64>,
    pub(crate) blocks: Vec<Vec<u8>>,
}

/// The same of some lines of a text, of which the first two have the roots.
#[derive(Drop)]
pub(crate) struct Parts<'t> {
    before: Option<Cid>,
    after: Option<Cid>,
    changes: Vec<KeyChange<'t>>,
    numbers: Vec<u64>,
    blocks: Vec<Vec<u8>>,
}

impl<'t> Parts<'t> {
    /// Of no line.
    fn none(alloc: Global) -> Parts<'t>
        ensures { parts_of result ≡ no_parts }
    {
        Parts {
            before: None,
            after: None,
            changes: Vec::new(alloc),
            numbers: Vec::new(alloc),
            blocks: Vec::new(alloc),
        }
    }

    /// With one more line, where it is one that may come next. It isn't empty.
    fn add(&mut self, alloc: Global, number: u64, line: &'t [u8]) -> Result<bool, AllocError>
        requires keyed { are_changes (undone self.old.changes.items) ≡ true }
        ensures added { IfOk result (λ is. parts_if is (parts_of self.new)
            ≡ with_told_line (parts_of self.old) number line.now) }
        ensures keyed { OnOk result (are_changes (undone self.new.changes.items) ≡ true) }
    {
        if self.before.is_none() {
            return Ok(self.add_before(line));
        }
        if self.after.is_none() {
            return Ok(self.add_after(line));
        }
        self.add_shown(alloc, number, line)
    }

    /// With the root before, where this is the text of a CID.
    fn add_before(&mut self, text: &[u8]) -> bool
        ensures added { parts_if result (parts_of self.new)
            ≡ with_before (parts_of self.old) (cid_or_none (cid_of_text text.now)) }
        ensures changes { self.new.changes ≡ self.old.changes }
    {
        self.before = cid_of(text);
        self.before.is_some()
    }

    /// With the root after, where this is the text of a CID.
    fn add_after(&mut self, text: &[u8]) -> bool
        ensures added { parts_if result (parts_of self.new)
            ≡ with_after (parts_of self.old) (cid_or_none (cid_of_text text.now)) }
        ensures changes { self.new.changes ≡ self.old.changes }
    {
        self.after = cid_of(text);
        self.after.is_some()
    }

    /// With a change or a block.
    fn add_shown(&mut self, alloc: Global, number: u64, line: &'t [u8]) -> Result<bool, AllocError>
        requires keyed { are_changes (undone self.old.changes.items) ≡ true }
        ensures added { IfOk result (λ is. parts_if is (parts_of self.new)
            ≡ with_shown (parts_of self.old) number line.now) }
        ensures keyed { OnOk result (are_changes (undone self.new.changes.items) ≡ true) }
    {
        let Cut { word, rest } = cut_at_space(line);
        if word == b"change".as_slice() {
            return self.add_change(number, rest);
        }
        self.add_block(bytes_of_hex(alloc, line)?)
    }

    /// With the change of these words, where it is one that may follow.
    fn add_change(&mut self, number: u64, words: &'t [u8]) -> Result<bool, AllocError>
        requires keyed { are_changes (undone self.old.changes.items) ≡ true }
        ensures added { IfOk result (λ is. parts_if is (parts_of self.new)
            ≡ with_change (parts_of self.old) number (change_of_words words.now)) }
        ensures keyed { OnOk result (are_changes (undone self.new.changes.items) ≡ true) }
    {
        let Some(change) = change_of(words) else {
            return Ok(false);
        };
        if !self.may_follow(&change) {
            return Ok(false);
        }
        self.changes.push(change)?;
        self.numbers.push(number)?;
        Ok(true)
    }

    /// Whether no block came, and a change's key has 1 to 1,024 bytes and comes behind those of the others.
    fn may_follow(&self, change: &KeyChange<'_>) -> bool
        requires keyed { are_changes (undone self.now.changes.items) ≡ true }
        ensures { result ≡ may_follow_of (blocks_of self.now.blocks.items)
            (self.now.changes.items ++ change.now ∷ []) }
    {
        self.blocks.is_empty() && comes_last(&self.changes, change)
    }

    /// With a block, where it is one.
    fn add_block(&mut self, block: Option<Vec<u8>>) -> Result<bool, AllocError>
        ensures added { IfOk result (λ is. parts_if is (parts_of self.new)
            ≡ with_block (parts_of self.old) (option_map (λ bytes. bytes.items) block)) }
        ensures changes { self.new.changes ≡ self.old.changes }
    {
        match block {
            Some(block) => {
                self.blocks.push(block)?;
                Ok(true)
            }
            None => Ok(false),
        }
    }

    /// What the text says, where these are all of its lines: where a root is missing, the line of this number is at fault.
    fn told<D: Digest>(self, number: u64) -> Result<Told<'t>, TextFault<D>>
        ensures told { Gives view_of_told text_fault_of result
            (told_of_parts number self.entry.before self.entry.after (parts_of self.entry)) }
        ensures changes { IfOk result (λ told. told.changes ≡ self.entry.changes) }
        ensures line { IfErr result (λ e. is_bad_line e ≡ true) }
    {
        match (self.before, self.after) {
            (Some(before), Some(after)) => Ok(Told {
                before,
                after,
                changes: self.changes,
                numbers: self.numbers,
                blocks: self.blocks,
            }),
            _ => Err(bad_line(number)),
        }
    }
}

/// Whether the key of a change has 1 to 1,024 bytes and comes behind those of others, which ascend.
fn comes_last(changes: &[KeyChange<'_>], change: &KeyChange<'_>) -> bool
    requires keyed { are_changes (undone changes.now) ≡ true }
    ensures { result ≡ are_changes (undone (changes.now ++ change.now ∷ [])) }
{
    if !is_key(change.key) {
        return false;
    }
    let [.., last] = changes else {
        return true;
    };
    change.key.cmp(last.key).is_gt()
}

/// What the lines of a text say, or the first that isn't one that may come there; where a root is missing that is the line behind
/// the last.
pub(crate) fn told_of<'t, D: Digest>(
    alloc: Global,
    text: &'t [u8],
) -> Result<Told<'t>, TextFault<D>>
    ensures told { Gives view_of_told text_fault_of result (told_in (lines text.now)) }
    ensures keyed { IfOk result (λ told. are_changes (undone told.changes.items) ≡ true) }
    ensures refused { IfErr result (λ e. is_refusal e ≡ false) }
{
    let mut parts = Parts::none(alloc);
    let mut number = 0;
    for line in text.lines() {
        number += 1;
        if line.is_empty() {
            continue;
        }
        let is_next = parts.add(alloc, number, line)?;
        if !is_next {
            return Err(bad_line(number));
        }
    }
    parts.told(number + 1)
}

/// That the line of this number is none.
fn bad_line<D: Digest>(number: u64) -> TextFault<D>
    ensures line { text_fault_of result ≡ Some (Line number BadLine) }
    ensures bad { is_bad_line result ≡ true }
{
    let fault = LineFault::BadLine;
    TextFault::Line { number, fault }
}
