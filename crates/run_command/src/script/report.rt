//! The lines of a report.
ghost use Rattle.std.specs.Prelude.{◌≡◌, ◌∷◌, [], ◌++◌, codes, decimal, length, map, OnOk};
ghost use Rattle.notices.specs.Numbering.{of as notices_of};
ghost use Rattle.spec.specs.Cid.{text as text_of};
ghost use Rattle.run_command.specs.Report.{answer_line, answer_lines, block_line, block_lines, found_line, notice_line, notice_lines, refusal_of, refused_line, repository_line, words_line};

use crate::script::words::push_words;
use batches::refusal_name;
use cid::{Cid, Digest};
use host::HostFault;
use itoa::Buffer;
use notices::Notice;
use record_forms::{Form, word_of_record};
use scripts::{Answer, Line};
use std::alloc::{AllocError, Allocator, Global};

/// Adds the answers of these lines, which are as many, with records in this form. Where memory is refused, to this or to the
/// calls below, a beginning may have been added.
pub fn push_answers<D: Digest>(
    text: &mut Vec<u8>,
    alloc: Global,
    form: Form,
    lines: &[Line],
    answers: &[Answer<D>],
) -> Result<(), AllocError>
    requires { length answers.now ≡ length lines.now }
    ensures { OnOk result (text.new.items ≡ text.old.items
        ++ answer_lines form (map (λ l. l.number) lines.now) answers.now) }
{
    for (line, answer) in lines.iter().zip(answers.iter()) {
        push_answer(text, alloc, form, line.number, answer)?;
    }
    Ok(())
}

/// Adds what the line of this number was answered.
fn push_answer<D: Digest>(
    text: &mut Vec<u8>,
    alloc: Global,
    form: Form,
    number: usize,
    answer: &Answer<D>,
) -> Result<(), AllocError>
    ensures { OnOk result (text.new.items ≡ text.old.items ++ answer_line form number answer.now) }
{
    match answer {
        Answer::Accepted(notice) => push_accepted(text, number, notice.number),
        Answer::Refused(fault) => push_refused(text, number, fault),
        Answer::Found(bytes) => push_found(text, alloc, form, number, bytes),
        Answer::Absent => push_absent(text, number),
    }
}

/// Adds that a batch was accepted, and how many writes its repository has since.
fn push_accepted(text: &mut Vec<u8>, number: usize, accepted: u64) -> Result<(), AllocError>
    ensures { OnOk result (text.new.items ≡ text.old.items
        ++ words_line (decimal number ∷ codes "ok" ∷ decimal accepted ∷ [])) }
{
    let (mut line, mut writes) = (Buffer::new(), Buffer::new());
    push_words(
        text,
        &[
            line.format(number).as_bytes(),
            b"ok",
            writes.format(accepted).as_bytes(),
        ],
    )
}

/// Adds that a call was refused, at which write, and why.
fn push_refused<D: Digest, A: Allocator>(
    text: &mut Vec<u8>,
    number: usize,
    fault: &HostFault<D, A>,
) -> Result<(), AllocError>
    ensures { OnOk result (text.new.items ≡ text.old.items
        ++ refused_line number (refusal_of fault.now)) }
{
    let (at, name) = refusal(fault);
    let (mut line, mut place) = (Buffer::new(), Buffer::new());
    push_words(
        text,
        &[
            line.format(number).as_bytes(),
            b"refused",
            place.format(at).as_bytes(),
            name.as_bytes(),
        ],
    )
}

/// The write that is refused, and the name of the fault.
fn refusal<D: Digest, A: Allocator>(fault: &HostFault<D, A>) -> (usize, &'static str)
    ensures { (result.0, result.1.now) ≡ refusal_of fault.now }
{
    match fault {
        HostFault::NoSuchRepository => (0, "NoSuchRepository"),
        HostFault::Refused(place, fault) => (*place, refusal_name(fault)),
        HostFault::NoMemory => (0, "NoMemory"),
        HostFault::SeqFull => (0, "SeqFull"),
    }
}

/// Adds the record that was found, in this form, and in hexadecimal where it has no JSON.
fn push_found(
    text: &mut Vec<u8>,
    alloc: Global,
    form: Form,
    number: usize,
    bytes: &[u8],
) -> Result<(), AllocError>
    ensures { OnOk result (text.new.items ≡ text.old.items ++ found_line form number bytes.now) }
{
    let word = word_of_record(alloc, form, bytes)?;
    let mut line = Buffer::new();
    push_words(
        text,
        &[line.format(number).as_bytes(), b"found", word.as_slice()],
    )
}

/// Adds that the key has no record.
fn push_absent(text: &mut Vec<u8>, number: usize) -> Result<(), AllocError>
    ensures { OnOk result (text.new.items ≡ text.old.items
        ++ words_line (decimal number ∷ codes "none" ∷ [])) }
{
    let mut line = Buffer::new();
    push_words(text, &[line.format(number).as_bytes(), b"none"])
}

/// Adds the line of a repository: its number, its root, how many writes it has accepted, and its commit.
pub fn push_repository(
    text: &mut Vec<u8>,
    number: usize,
    root: &Cid,
    accepted: u64,
    commit: Option<Cid>,
) -> Result<(), AllocError>
    ensures { OnOk result (text.new.items ≡ text.old.items
        ++ repository_line number root.now accepted commit) }
{
    match commit {
        Some(cid) => push_repository_with(text, number, root, accepted, &cid.text()),
        None => push_repository_with(text, number, root, accepted, b"none"),
    }
}

/// The same with the text of its commit.
fn push_repository_with(
    text: &mut Vec<u8>,
    number: usize,
    root: &Cid,
    accepted: u64,
    commit: &[u8],
) -> Result<(), AllocError>
    ensures { OnOk result (text.new.items ≡ text.old.items
        ++ words_line (codes "repo" ∷ decimal number ∷ text_of root.now ∷ decimal accepted
        ∷ commit.now ∷ [])) }
{
    let (mut repo, mut writes) = (Buffer::new(), Buffer::new());
    let root = root.text();
    push_words(
        text,
        &[
            b"repo",
            repo.format(number).as_bytes(),
            &root,
            writes.format(accepted).as_bytes(),
            commit,
        ],
    )
}

/// Adds a line for each block: its CID, and how many repositories have it.
pub fn push_blocks(text: &mut Vec<u8>, counts: &[(Cid, u64)]) -> Result<(), AllocError>
    ensures { OnOk result (text.new.items ≡ text.old.items ++ block_lines counts.now) }
{
    for (cid, count) in counts {
        push_block(text, cid, *count)?;
    }
    Ok(())
}

/// Adds the line of a block.
fn push_block(text: &mut Vec<u8>, cid: &Cid, count: u64) -> Result<(), AllocError>
    ensures { OnOk result (text.new.items ≡ text.old.items ++ block_line (cid.now, count)) }
{
    let mut repositories = Buffer::new();
    let cid = cid.text();
    push_words(
        text,
        &[b"block", &cid, repositories.format(count).as_bytes()],
    )
}

/// Adds a line for each notice.
pub fn push_notices(text: &mut Vec<u8>, notices: &[Notice]) -> Result<(), AllocError>
    ensures { OnOk result (text.new.items ≡ text.old.items ++ notice_lines notices.now) }
{
    for notice in notices {
        push_notice(text, notice)?;
    }
    Ok(())
}

/// Adds a line for each notice of one writer.
pub fn push_notices_of(
    text: &mut Vec<u8>,
    writer: u32,
    notices: &[Notice],
) -> Result<(), AllocError>
    ensures { OnOk result (text.new.items ≡ text.old.items
        ++ notice_lines (notices_of writer notices.now)) }
{
    for notice in notices {
        if notice.writer == writer {
            push_notice(text, notice)?;
        }
    }
    Ok(())
}

/// Adds the line of a notice: its writer, its number there, its repository, how many writes that one has accepted, and its
/// root.
fn push_notice(text: &mut Vec<u8>, notice: &Notice) -> Result<(), AllocError>
    ensures { OnOk result (text.new.items ≡ text.old.items ++ notice_line notice.now) }
{
    let (mut writer, mut seq) = (Buffer::new(), Buffer::new());
    let (mut repo, mut number) = (Buffer::new(), Buffer::new());
    let root = notice.root.text();
    push_words(
        text,
        &[
            b"notice",
            writer.format(notice.writer).as_bytes(),
            seq.format(notice.seq).as_bytes(),
            repo.format(notice.repo).as_bytes(),
            number.format(notice.number).as_bytes(),
            &root,
        ],
    )
}
