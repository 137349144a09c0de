//! What a command tells of a repository.

ghost use Rattle.std.specs.Prelude.{◌≡◌, ◌++◌, Ok};
ghost use Rattle.hex.specs.Hex.{encode_lower};
ghost use Rattle.spec.specs.Blocks.{pairs};
ghost use Rattle.signed_commits.specs.Views.{commit_of};
ghost use Rattle.repository_check.specs.Views.{listed_pairs, records_of};
ghost use Rattle.console.specs.Written.{Writes};
ghost use Rattle.export_commands.specs.Outcomes.{IsTold};
ghost use Rattle.export_commands.specs.Texts.{ended, export_text, signing_lines, summary_line};

use crate::command::ExportCommand;
use crate::fault::ExportFault;
use crate::lines::{write_ended, write_hex_ended, write_spaced};
use crate::records::write_listed;
use cid::Digest;
use console::{CommandFault, WriteFault};
use itoa::Buffer;
use repository_check::{CheckFault, Repository};
use signed_commits::SignedCommit;
use std::alloc::Allocator;
use std::io::Write;

/// Writes what the command tells of this repository.
pub(crate) fn write_told<D: Digest, A: Allocator + Copy, W: Write>(
    command: ExportCommand,
    alloc: A,
    found: &Repository<'_, A>,
    out: &mut W,
) -> Result<(), CommandFault<ExportFault>>
    requires { listed_pairs found.now ≡ pairs D.digest_of (records_of found.now) }
    ensures { IsTold
        (export_text D.digest_of command (commit_of found.now.commit) (records_of found.now))
        (W.contents out.old) (W.contents out.new) result }
{
    match command {
        ExportCommand::Check => Ok(write_summary(out, &found.commit, found.records.len())?),
        ExportCommand::Records(values) => write_listed(values, alloc, out, &found.records),
        ExportCommand::Commit => write_signing(alloc, out, &found.commit),
    }
}

/// Writes whose repository it is, its revision, the root of its tree and how many records it has.
fn write_summary<W: Write>(
    out: &mut W,
    commit: &SignedCommit<'_>,
    count: usize,
) -> Result<(), WriteFault>
    ensures { Writes (W.contents out.old) (W.contents out.new) result
        (summary_line (commit_of commit.now) count) }
{
    write_spaced(out, commit.did)?;
    write_spaced(out, commit.rev)?;
    write_spaced(out, &commit.root.to_cid().text())?;
    let mut digits = Buffer::new();
    write_ended(out, digits.format(count).as_bytes())
}

/// Writes the bytes that were signed and the signature. The bytes are made before any is written.
fn write_signing<A: Allocator, W: Write>(
    alloc: A,
    out: &mut W,
    commit: &SignedCommit<'_>,
) -> Result<(), CommandFault<ExportFault>>
    ensures { IsTold (Ok (signing_lines (commit_of commit.now)))
        (W.contents out.old) (W.contents out.new) result }
{
    match commit.unsigned_bytes(alloc) {
        Ok(signed) => Ok(write_signed(out, &signed, commit.sig)?),
        Err(_) => Err(CommandFault::NoText(ExportFault::Check(CheckFault::NoMemory))),
    }
}

/// Writes signed bytes and their signature, a line in hexadecimal each.
fn write_signed<W: Write>(out: &mut W, signed: &[u8], signature: &[u8]) -> Result<(), WriteFault>
    ensures { Writes (W.contents out.old) (W.contents out.new) result
        (ended (encode_lower signed.now) ++ ended (encode_lower signature.now)) }
{
    write_hex_ended(out, signed)?;
    write_hex_ended(out, signature)
}
