//! What a file says.
ghost use Rattle.std.specs.Prelude.{◌≡◌, IfOk, IfErr, option_map};
ghost use Rattle.difference_commands.specs.Files.{IsFileFault, IsContents, needs_records as needs_records_of, said_commit};
ghost use Rattle.difference_commands.specs.Forms.{form_of as form_of_file};
ghost use Rattle.difference_commands.specs.declared.command.Form.TheVariants as forms;

use crate::command::{ChangesCommand, Form, Values};
use crate::file_fault::FileFault;
use crate::form::form_of;
use crate::record_map::{Records, map_of_records};
use cid::{Cid, Digest};
use export_commands::ExportFault;
use repository_check::{Repository, check};
use std::alloc::{AllocError, Allocator};
use tree_command::{Keys, ListedKey, map_of_input};

/// What a file says, in the order of its keys.
#[derive(Drop)]
pub(crate) enum Contents<'f, A: Allocator> {
    /// A CAR file: the repository that it is the export of.
    Export(Repository<'f, A>),
    /// Lines `KEY CID`.
    Listing(Vec<(ListedKey<'f>, Cid), A>),
    /// Lines `KEY HEX`.
    Records(Records<'f, A>),
}

/// What a file says to the command, or its first fault.
pub(crate) fn contents_of<'f, D: Digest, A: Allocator + Copy>(
    command: ChangesCommand,
    alloc: A,
    file: &'f [u8],
) -> Result<Contents<'f, A>, FileFault>
    ensures contents { IfOk result (IsContents D.digest_of command
        (form_of_file command.form file.now) file.now) }
    ensures fault { IfErr result (IsFileFault D.digest_of command
        (form_of_file command.form file.now) file.now) }
{
    match form_of(command.form, file) {
        Form::Car => contents_of_car::<D, A>(command, alloc, file),
        Form::Listing => contents_of_listing::<D, A>(command, alloc, file),
        Form::Records => contents_of_records::<D, A>(command, alloc, file),
    }
}

/// What a CAR file says.
fn contents_of_car<'f, D: Digest, A: Allocator + Copy>(
    command: ChangesCommand,
    alloc: A,
    file: &'f [u8],
) -> Result<Contents<'f, A>, FileFault>
    ensures contents { IfOk result (IsContents D.digest_of command forms.Car file.now) }
    ensures fault { IfErr result (IsFileFault D.digest_of command forms.Car file.now) }
{
    match check::<D, 2, A>(alloc, file) {
        Ok(found) => Ok(Contents::Export(found)),
        Err(fault) => Err(FileFault::Export(ExportFault::Check(fault))),
    }
}

/// What lines `KEY CID` say, where no records are asked for.
fn contents_of_listing<'f, D: Digest, A: Allocator + Copy>(
    command: ChangesCommand,
    alloc: A,
    file: &'f [u8],
) -> Result<Contents<'f, A>, FileFault>
    ensures contents { IfOk result (IsContents D.digest_of command forms.Listing file.now) }
    ensures fault { IfErr result (IsFileFault D.digest_of command forms.Listing file.now) }
{
    if needs_records(command) {
        return Err(FileFault::NoRecords);
    }
    match map_of_input(Keys::Paths, alloc, file) {
        Ok(pairs) => Ok(Contents::Listing(pairs)),
        Err(fault) => Err(FileFault::Listing(fault)),
    }
}

/// What lines `KEY HEX` say.
fn contents_of_records<'f, D: Digest, A: Allocator + Copy>(
    command: ChangesCommand,
    alloc: A,
    file: &'f [u8],
) -> Result<Contents<'f, A>, FileFault>
    ensures contents { IfOk result (IsContents D.digest_of command forms.Records file.now) }
    ensures fault { IfErr result (IsFileFault D.digest_of command forms.Records file.now) }
{
    match map_of_records(alloc, file) {
        Ok(records) => Ok(Contents::Records(records)),
        Err(fault) => Err(FileFault::Records(fault)),
    }
}

/// Whether the records themselves are told, or come as blocks, and not their CIDs alone.
fn needs_records(command: ChangesCommand) -> bool
    ensures { result ≡ needs_records_of command }
{
    match command.values {
        Values::Cids => command.blocks,
        Values::Records => true,
    }
}

/// The bytes of the signed commit of an export; of lines there is none.
pub(crate) fn commit_of<A: Allocator + Copy>(
    alloc: A,
    contents: &Contents<'_, A>,
) -> Result<Option<Vec<u8, A>>, AllocError>
    ensures { IfOk result (λ commit. option_map (λ bytes. bytes.items) commit
        ≡ said_commit contents.now) }
{
    match contents {
        Contents::Export(found) => Ok(Some(found.commit.signed_bytes(alloc)?)),
        Contents::Listing(_) | Contents::Records(_) => Ok(None),
    }
}
