//! What the commands are told on a command line.
ghost use Rattle.std.specs.Prelude.{◌≡◌, false, IfNone, IfOk, IfSome};
ghost use Rattle.clap.specs.Words.{app_of, found_of, rows_of, shape_of, with_subcommand};
ghost use Rattle.clap.specs.declared.builder.command.Command.TheViews.{out-Command as fields_of};
ghost use Rattle.console.specs.FileWords.{with_file as with_file_of};
ghost use Rattle.change_commands.specs.Words.{prove_change_shape, verify_change_shape, with_commands, IsOfWords, IsOtherName};

use crate::direction::{Direction, direction_of, inversion_option};
use clap::{ArgMatches, Command};
use console::{required, with_file, word_or};
use record_forms::{Form, form_of, json_option};
use std::alloc::{AllocError, Global};

/// A command on a change, with what its words say.
#[derive(Clone, Copy)]
pub enum ChangeCommand<'a> {
    /// Write what the batch of the input changes in the repository of the input, and the nodes that show it.
    Prove {
        /// Which way they show it.
        direction: Direction,
        /// The form of the records of the input.
        form: Form,
    },
    /// Write whether the text of the input shows what it tells of a change between two roots.
    Verify {
        /// Which way.
        direction: Direction,
        /// The text of the CID of the tree's root before the change.
        before: &'a str,
        /// The text of that after it.
        after: &'a str,
    },
}

const PROVE_CHANGE: &str = "Reads a repository and a batch, and writes what changes and its proof";

const LONG_PROVE_CHANGE: &str = "\
Reads lines KEY HEX, the records of a repository, then an empty line, and then the writes of one
batch, lines put KEY HEX, create KEY HEX, update KEY HEX and delete KEY. It writes the text of the CID of the tree's root
before the batch and that after it, a line each, then a line 'change KEY BEFORE AFTER' for each key of the batch, with the
CID of its record or '-', and then the nodes that show these changes, a line in hexadecimal each: those of the tree before
that doing them reads. With --inversion they are those of the tree after that undoing them reads. Line numbers count empty
lines. Without writes behind the empty line there is no batch. With --json a record is JSON, as of car --json.

Exit status: 0 done, 1 a faulty line, 2 a wrong command line, 3 no memory, 4 reading or writing failed.";

const PROVE_CHANGE_EXAMPLE: &str = "\
Example:
  $ printf '\\nput a/b a0' | msthost prove-change | sed -n 3p
  change a/b - bafyreigbtj4x7ip5legnfznufuopl4sg4knzc2cof6duas4b3q2fy6swua";

const VERIFY_CHANGE: &str = "Reads what prove-change writes, and writes whether it is shown";

const LONG_VERIFY_CHANGE: &str = "\
Reads what prove-change writes: two roots, changes and nodes. Where the roots are BEFORE and AFTER, and
the nodes show that by the changes the tree with the root BEFORE became the one with AFTER, it writes 'shown'. Nothing but
BEFORE and AFTER is trusted: take them from elsewhere, as the prevData and the data of a commit.

The changes are done on nodes of the tree before. Where BEFORE is the root of some records, AFTER is that of these with the
changes done, and the next change can be verified from it. With --inversion they are undone on nodes of the tree after, as
prove-change --inversion writes them: the operation inversion of the event stream, which says nothing of a root AFTER that no
records have.

Exit status: 0 done, 1 a faulty word or line, other roots, or nodes that don't show it, 2 a wrong command line, 3 no memory,
4 reading or writing failed.";

const VERIFY_CHANGE_EXAMPLE: &str = "\
Example:
  $ before=bafyreie5737gdxlw5i64vzichcalba3z2v5n6icifvx5xytvske7mr3hpm
  $ after=bafyreihkkefvij2yxd6vkifr7342uvsineepfcevg2pduv3e4idaxosycu
  $ printf '\\nput a/b a0' | msthost prove-change | msthost verify-change $before $after
  shown";

/// Adds the commands on a change to a program's.
pub fn with_words<'a>(alloc: Global, program: Command<'a>) -> Result<Command<'a>, AllocError>
    ensures { IfOk result (λ r. app_of r ≡ with_commands (app_of program.entry)) }
{
    let program = with_prove_change(alloc, program)?;
    with_verify_change(alloc, program)
}

/// Adds `prove-change`.
fn with_prove_change<'a>(alloc: Global, program: Command<'a>) -> Result<Command<'a>, AllocError>
    ensures { IfOk result (λ r.
        app_of r ≡ with_subcommand (app_of program.entry) (with_file_of prove_change_shape)) }
{
    program.subcommand(with_file(alloc, prove_change_words(alloc)?)?)
}

/// Adds `verify-change`.
fn with_verify_change<'a>(alloc: Global, program: Command<'a>) -> Result<Command<'a>, AllocError>
    ensures { IfOk result (λ r.
        app_of r ≡ with_subcommand (app_of program.entry) (with_file_of verify_change_shape)) }
{
    program.subcommand(with_file(alloc, verify_change_words(alloc)?)?)
}

/// The command of this name, with what its words say; or `None` where it is another.
pub fn command_of<'a>(name: &str, words: &ArgMatches<'a>) -> Option<ChangeCommand<'a>>
    ensures command { IfSome result (IsOfWords name.now (rows_of (found_of words.now))) }
    ensures none { IfNone result (IsOtherName name.now) }
{
    if name == "prove-change" {
        return Some(ChangeCommand::Prove {
            direction: direction_of(words),
            form: form_of(words),
        });
    }
    if name == "verify-change" {
        return Some(ChangeCommand::Verify {
            direction: direction_of(words),
            before: word_or("", words, "before"),
            after: word_or("", words, "after"),
        });
    }
    None
}

/// The words that `prove-change` takes.
fn prove_change_words<'a>(alloc: Global) -> Result<Command<'a>, AllocError>
    ensures shape { IfOk result (λ r. shape_of r ≡ prove_change_shape) }
    ensures local { IfOk result (λ r. (fields_of r).has_globals ≡ false) }
{
    Command::new(alloc, "prove-change")
        .about(PROVE_CHANGE)
        .long_about(LONG_PROVE_CHANGE)
        .after_help(PROVE_CHANGE_EXAMPLE)
        .arg(inversion_option(
            alloc,
            "Write the nodes of the tree after, for verify-change --inversion",
        ))?
        .arg(json_option(alloc))
}

/// The words that `verify-change` takes.
fn verify_change_words<'a>(alloc: Global) -> Result<Command<'a>, AllocError>
    ensures shape { IfOk result (λ r. shape_of r ≡ verify_change_shape) }
    ensures local { IfOk result (λ r. (fields_of r).has_globals ≡ false) }
{
    Command::new(alloc, "verify-change")
        .about(VERIFY_CHANGE)
        .long_about(LONG_VERIFY_CHANGE)
        .after_help(VERIFY_CHANGE_EXAMPLE)
        .arg(required(
            alloc,
            "before",
            "BEFORE",
            "The text of the CID of the root before, a commit's prevData",
        ))?
        .arg(required(
            alloc,
            "after",
            "AFTER",
            "The text of that after, a commit's data",
        ))?
        .arg(inversion_option(alloc, "Undo the changes on nodes of the tree after"))
}
