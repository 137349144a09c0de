//! The text of a file.

ghost use Rattle.export_commands.specs.Outcomes.{IsOutcome, IsOutcomeOf};

use crate::command::ExportCommand;
use crate::fault::ExportFault;
use crate::telling::write_told;
use cid::Digest;
use console::{CommandFault, read_all};
use repository_check::check;
use std::alloc::Allocator;
use std::io::{Read, Write};

/// Reads a CAR file, checks that it is the export of a repository, and writes what the command tells of that
/// (CARv1; AT Protocol repository v3; the forms of the texts are this repository's own).
///
/// `ExportCommand::Check` is a line `DID REV ROOT COUNT`: whose repository it is, its revision, the CID of its tree's root,
/// which its commit has as `data`, and how many records it has. `ExportCommand::Records` is a line for each record in the
/// order of their keys, `KEY HEX`, `KEY JSON` or `KEY CID`. `ExportCommand::Commit` is the bytes that were signed, which are
/// those of the commit without its signature, and then the signature, a line in hexadecimal each. Nothing tests a signature.
///
/// All of the input is read and checked before a byte is written. Where it is no export, the first fault is told
/// (`ExportFault::Check`, in the order of `repository_check::CheckFault`), and nothing is written; nor is it where JSON is asked
/// for and a record has none (`ExportFault::NoJsonForm`), where memory is refused before the text begins, or where reading
/// fails. JSON is made record by record while it is written. At `CommandFault::Unwritten` a beginning of the text was written.
pub fn export_text<D: Digest, A: Allocator + Copy, R: Read, W: Write>(
    command: ExportCommand,
    alloc: A,
    input: &mut R,
    out: &mut W,
) -> Result<(), CommandFault<ExportFault>>
    ensures { IsOutcome D.digest_of command (R.remaining input.old) (R.remaining input.new)
        (W.contents out.old) (W.contents out.new) result }
{
    match read_all(alloc, input) {
        Ok(file) => write_text::<D, A, W>(command, alloc, &file, out),
        Err(fault) => Err(CommandFault::NoText(ExportFault::from(fault))),
    }
}

/// Writes what the command tells of the repository that these bytes are the export of.
fn write_text<D: Digest, A: Allocator + Copy, W: Write>(
    command: ExportCommand,
    alloc: A,
    file: &[u8],
    out: &mut W,
) -> Result<(), CommandFault<ExportFault>>
    ensures { IsOutcomeOf D.digest_of command file.now
        (W.contents out.old) (W.contents out.new) result }
{
    match check::<D, 2, A>(alloc, file) {
        Ok(found) => write_told::<D, A, W>(command, alloc, &found, out),
        Err(fault) => Err(CommandFault::NoText(ExportFault::Check(fault))),
    }
}
