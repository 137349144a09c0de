//! What the commands are told on a command line.

ghost use Rattle.std.specs.Prelude.{◌≡◌, false, IfNone, IfOk, IfSome};
ghost use Rattle.clap.specs.Words.{app_of, found_of, rows_of, rule_of, shape_of, with_subcommand};
ghost use Rattle.clap.specs.declared.builder.command.Command.TheViews.{out-Command as fields_of};
ghost use Rattle.console.specs.FileWords.{with_file as with_file_of};
ghost use Rattle.export_commands.specs.Words.{AreValuesOf, IsOfWords, IsOtherName};
ghost use Rattle.export_commands.specs.Words.{check_shape, cids_rule, commit_shape, records_shape, with_commands};

use crate::command::{ExportCommand, Values};
use clap::{Arg, ArgAction, ArgMatches, Command};
use console::with_file;
use record_forms::{Form, form_of, json_option};
use std::alloc::{AllocError, Global};

const CHECK: &str = "Reads a CAR file and writes which repository it is the export of";

const LONG_CHECK: &str = "\
Reads a CAR file, the export of a repository as a server gives it, and writes a line DID REV ROOT COUNT:
whose repository it is, its revision, the text of the CID of its tree's root, and how many records it has.

Nothing in the file is trusted: each block is hashed, and the tree is built anew from the records. Blocks may stand in any
order, several times, and beside others. The signature is not tested; commit writes what was signed.

Exit status: 0 done, 1 the file is no export of a repository, 2 a wrong command line, 3 no memory, 4 reading or writing
failed.";

const CHECK_EXAMPLE: &str = "\
Example:
  $ msthost check examples/export.car
  did:web:example.com 3jzfcijpj2z2e bafyreidyenu27cdomis4z7l7lj7qtx7zarjr3blh7rlt2hkugvb6dqhqum 5";

const RECORDS: &str = "Reads a CAR file and writes the records of its repository";

const LONG_RECORDS: &str = "\
Reads a CAR file, checks it as check does, and writes a line KEY HEX for each record, in the order of
the keys: its key, a space, and its bytes in hexadecimal, as car reads them. With --json it writes lines KEY JSON, as
car --json reads them, and with --cids lines KEY CID, as tree reads them; of the two --cids decides.

Exit status: 0 done, 1 the file is no export of a repository, 2 a wrong command line, 3 no memory, 4 reading or writing
failed.";

const RECORDS_EXAMPLE: &str = "\
Example:
  $ msthost records --cids examples/export.car | msthost tree --paths | sed -n 1p
  bafyreidyenu27cdomis4z7l7lj7qtx7zarjr3blh7rlt2hkugvb6dqhqum
  $ msthost records --json examples/export.car | sed -n 1p
  app.bsky.actor.profile/self {\"displayName\":\"Ann\"}";

const COMMIT: &str = "Reads a CAR file and writes what was signed and the signature";

const LONG_COMMIT: &str = "\
Reads a CAR file, checks it as check does, and writes two lines in hexadecimal: the bytes that were
signed, which are those of its commit without the signature, and the signature. Who has the key of the DID tests it.

Exit status: 0 done, 1 the file is no export of a repository, 2 a wrong command line, 3 no memory, 4 reading or writing
failed.";

const COMMIT_EXAMPLE: &str = "\
Example:
  $ msthost commit examples/export.car | cut -c 1-48
  a563646964736469643a7765623a6578616d706c652e636f
  1bb733a46b791e232abc2edb6691704f6c5ef0bf1456c1c9";

/// Adds the commands on an export to a program's.
pub fn with_words<'a>(alloc: Global, program: Command<'a>) -> Result<Command<'a>, AllocError>
    ensures { IfOk result (λ r. app_of r ≡ with_commands (app_of program.entry)) }
{
    let program = with_check(alloc, program)?;
    let program = with_records(alloc, program)?;
    with_commit(alloc, program)
}

/// Adds `check`.
fn with_check<'a>(alloc: Global, program: Command<'a>) -> Result<Command<'a>, AllocError>
    ensures { IfOk result (λ r.
        app_of r ≡ with_subcommand (app_of program.entry) (with_file_of check_shape)) }
{
    program.subcommand(with_file(alloc, check_words(alloc))?)
}

/// Adds `records`.
fn with_records<'a>(alloc: Global, program: Command<'a>) -> Result<Command<'a>, AllocError>
    ensures { IfOk result (λ r.
        app_of r ≡ with_subcommand (app_of program.entry) (with_file_of records_shape)) }
{
    program.subcommand(with_file(alloc, records_words(alloc)?)?)
}

/// Adds `commit`.
fn with_commit<'a>(alloc: Global, program: Command<'a>) -> Result<Command<'a>, AllocError>
    ensures { IfOk result (λ r.
        app_of r ≡ with_subcommand (app_of program.entry) (with_file_of commit_shape)) }
{
    program.subcommand(with_file(alloc, commit_words(alloc))?)
}

/// The command of this name, with what its words say; or `None` where it is another.
pub fn command_of(name: &str, words: &ArgMatches) -> Option<ExportCommand>
    ensures command { IfSome result (IsOfWords name.now (rows_of (found_of words.now))) }
    ensures none { IfNone result (IsOtherName name.now) }
{
    if name == "check" {
        return Some(ExportCommand::Check);
    }
    if name == "records" {
        return Some(ExportCommand::Records(values_of(words)));
    }
    if name == "commit" {
        return Some(ExportCommand::Commit);
    }
    None
}

/// What these words ask for behind each key.
fn values_of(words: &ArgMatches) -> Values
    ensures { AreValuesOf (rows_of (found_of words.now)) result }
{
    if words.get_flag("cids") {
        return Values::Cids;
    }
    match form_of(words) {
        Form::Json => Values::Json,
        Form::Hex => Values::Bytes,
    }
}

/// The words that `check` takes, with what help shows of them.
fn check_words<'a>(alloc: Global) -> Command<'a>
    ensures shape { shape_of result ≡ check_shape }
    ensures local { (fields_of result).has_globals ≡ false }
{
    Command::new(alloc, "check")
        .about(CHECK)
        .long_about(LONG_CHECK)
        .after_help(CHECK_EXAMPLE)
}

/// The words that `records` takes.
fn records_words<'a>(alloc: Global) -> Result<Command<'a>, AllocError>
    ensures shape { IfOk result (λ r. shape_of r ≡ records_shape) }
    ensures local { IfOk result (λ r. (fields_of r).has_globals ≡ false) }
{
    Command::new(alloc, "records")
        .about(RECORDS)
        .long_about(LONG_RECORDS)
        .after_help(RECORDS_EXAMPLE)
        .arg(cids_word(alloc))?
        .arg(json_option(alloc))
}

/// The words that `commit` takes.
fn commit_words<'a>(alloc: Global) -> Command<'a>
    ensures shape { shape_of result ≡ commit_shape }
    ensures local { (fields_of result).has_globals ≡ false }
{
    Command::new(alloc, "commit")
        .about(COMMIT)
        .long_about(LONG_COMMIT)
        .after_help(COMMIT_EXAMPLE)
}

/// The option for CIDs in place of bytes.
fn cids_word<'a>(alloc: Global) -> Arg<'a>
    ensures rule { rule_of result ≡ cids_rule }
    ensures local { result.global ≡ false }
{
    Arg::new(alloc, "cids")
        .long("cids")
        .action(ArgAction::SetTrue)
        .help("Write each record's CID in place of its bytes")
}
