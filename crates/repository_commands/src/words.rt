//! What the commands are told on a command line.
ghost use Rattle.std.specs.Prelude.{◌≡◌, false, option_map, IfNone, IfOk, IfSome};
ghost use Rattle.clap.specs.Walk.{first_of};
ghost use Rattle.clap.specs.Words.{app_of, found_of, rows_of, rule_of, shape_of, with_subcommand};
ghost use Rattle.clap.specs.declared.builder.command.Command.TheViews.{out-Command as fields_of};
ghost use Rattle.console.specs.FileWords.{with_file as with_file_of};
ghost use Rattle.repository_commands.specs.Words.{IsOfWords, IsOtherName};
ghost use Rattle.repository_commands.specs.Words.{car_shape, prove_shape, verify_shape, with_commands};
ghost use Rattle.repository_commands.specs.Words.{option_rule, optional_rule};

use clap::{Arg, ArgMatches, Command};
use console::{required, with_file, word_or};
use record_forms::{Form, form_of, json_option};
use std::alloc::{AllocError, Global};

/// A command on one repository, with what its words say.
#[derive(Clone, Copy)]
pub enum RepositoryCommand<'a> {
    /// Write the repository of the lines of the input as one file.
    Car {
        /// Whose repository it is.
        did: &'a str,
        /// The revision of its one batch.
        rev: &'a str,
        /// The form of the records.
        form: Form,
    },
    /// Write it as the file that a server serves, whose root is its commit with a signature.
    SignedCar {
        /// Whose repository it is.
        did: &'a str,
        /// The revision of its one batch.
        rev: &'a str,
        /// The signature of its commit, in hexadecimal.
        sig: &'a str,
        /// The form of the records.
        form: Form,
    },
    /// Write the proof of a key in the repository of the lines of the input.
    Prove {
        /// The key.
        key: &'a str,
        /// The form of the records.
        form: Form,
    },
    /// Write what the blocks of the input show of a key.
    Verify {
        /// The text of the CID of the tree's root.
        root: &'a str,
        /// The key.
        key: &'a str,
    },
}

/// Whose repository it is where no word says so.
pub const DID: &str = "did:web:localhost";

/// The revision where no word says which: the least of all.
pub const REV: &str = "2222222222222";

const CAR: &str = "Reads lines KEY HEX and writes their repository as one CAR file";

const LONG_CAR: &str = "\
Reads lines KEY HEX, puts each record under its key into one repository, all in one batch, and
writes the repository as one CAR file: the commit, the nodes of the tree and the records.

A key is a collection, a slash and a record key. HEX is a record in hexadecimal: one DAG-CBOR map. One space stands
between them. With --json the lines are KEY JSON: a record as records --json writes it, in any layout on one line. Of lines
with one key the last decides, and empty lines are passed over. Without lines there is no commit.

With --sig the file is the one that a server serves: its root is the commit with this signature, of which check, records
and commit read what they tell. The signature isn't tested.

Exit status: 0 done, 1 a faulty line, DID, revision or signature, or no line to sign, 2 a wrong command line, 3 no memory,
4 reading or writing failed.";

const CAR_EXAMPLE: &str = "\
Example:
  $ printf '' | msthost car | wc -c
  103";

const PROVE: &str = "Reads lines KEY HEX and writes the proof of a key in their tree";

const LONG_PROVE: &str = "\
Reads lines KEY HEX, or KEY JSON with --json, as car does, and writes the text of the CID of the tree's root, and then the
nodes on the path of KEY from the top, a line in hexadecimal each. They show what the tree has under KEY, or that it has
nothing.

Exit status: 0 done, 1 a faulty line or key, 2 a wrong command line, 3 no memory, 4 reading or writing failed.";

const PROVE_EXAMPLE: &str = "\
Example:
  $ printf '' | msthost prove a/b
  bafyreie5737gdxlw5i64vzichcalba3z2v5n6icifvx5xytvske7mr3hpm
  a2616580616cf6";

const VERIFY: &str = "Reads the blocks of a proof and writes what they show of a key";

const LONG_VERIFY: &str = "\
Reads blocks, a line in hexadecimal each, and writes what they show of KEY in the tree whose root's
CID is ROOT: 'found CID', the CID of its record, or 'absent', which is an answer too and ends with 0. Nothing but ROOT is
trusted.

Exit status: 0 done, 1 a faulty line, root or key, or blocks that show nothing, 2 a wrong command line, 3 no memory,
4 reading or writing failed.";

const VERIFY_EXAMPLE: &str = "\
Example:
  $ root=bafyreie5737gdxlw5i64vzichcalba3z2v5n6icifvx5xytvske7mr3hpm
  $ printf 'a2616580616cf6' | msthost verify $root a/b
  absent";

/// Adds the commands on one repository to a program's.
pub fn with_words<'a>(alloc: Global, program: Command<'a>) -> Result<Command<'a>, AllocError>
    ensures { IfOk result (λ r. app_of r ≡ with_commands (app_of program.entry)) }
{
    let program = with_car(alloc, program)?;
    let program = with_prove(alloc, program)?;
    with_verify(alloc, program)
}

/// Adds `car`.
fn with_car<'a>(alloc: Global, program: Command<'a>) -> Result<Command<'a>, AllocError>
    ensures { IfOk result (λ r.
        app_of r ≡ with_subcommand (app_of program.entry) (with_file_of car_shape)) }
{
    program.subcommand(with_file(alloc, car_words(alloc)?)?)
}

/// Adds `prove`.
fn with_prove<'a>(alloc: Global, program: Command<'a>) -> Result<Command<'a>, AllocError>
    ensures { IfOk result (λ r.
        app_of r ≡ with_subcommand (app_of program.entry) (with_file_of prove_shape)) }
{
    program.subcommand(with_file(alloc, prove_words(alloc)?)?)
}

/// Adds `verify`.
fn with_verify<'a>(alloc: Global, program: Command<'a>) -> Result<Command<'a>, AllocError>
    ensures { IfOk result (λ r.
        app_of r ≡ with_subcommand (app_of program.entry) (with_file_of verify_shape)) }
{
    program.subcommand(with_file(alloc, verify_words(alloc)?)?)
}

/// The command of this name, with what its words say; or `None` where it is another.
pub fn command_of<'a>(name: &str, words: &ArgMatches<'a>) -> Option<RepositoryCommand<'a>>
    ensures command { IfSome result (IsOfWords name.now (rows_of (found_of words.now))) }
    ensures none { IfNone result (IsOtherName name.now) }
{
    if name == "car" {
        let did = word_or(DID, words, "did");
        let rev = word_or(REV, words, "rev");
        let form = form_of(words);
        if let Some(sig) = word_in(words, "sig") {
            return Some(RepositoryCommand::SignedCar {
                did,
                rev,
                sig,
                form,
            });
        }
        return Some(RepositoryCommand::Car { did, rev, form });
    }
    if name == "prove" {
        return Some(RepositoryCommand::Prove {
            key: word_or("", words, "key"),
            form: form_of(words),
        });
    }
    if name == "verify" {
        return Some(RepositoryCommand::Verify {
            root: word_or("", words, "root"),
            key: word_or("", words, "key"),
        });
    }
    None
}

/// The text of the word with this id, if there is one.
fn word_in<'a>(words: &ArgMatches<'a>, id: &str) -> Option<&'a str>
    ensures { option_map (λ text. text.now) result
        ≡ first_of id.now (rows_of (found_of words.now)) }
{
    words.get_str(id)
}

/// The words that `car` takes, with what help shows of them.
fn car_words<'a>(alloc: Global) -> Result<Command<'a>, AllocError>
    ensures shape { IfOk result (λ r. shape_of r ≡ car_shape) }
    ensures local { IfOk result (λ r. (fields_of r).has_globals ≡ false) }
{
    Command::new(alloc, "car")
        .about(CAR)
        .long_about(LONG_CAR)
        .after_help(CAR_EXAMPLE)
        .arg(option(alloc, "did", "DID", DID, "Whose repository it is"))?
        .arg(option(alloc, "rev", "REV", REV, "The revision of its commit"))?
        .arg(optional(
            alloc,
            "sig",
            "HEX",
            "The signature of its commit, in hexadecimal",
        ))?
        .arg(json_option(alloc))
}

/// The words that `prove` takes.
fn prove_words<'a>(alloc: Global) -> Result<Command<'a>, AllocError>
    ensures shape { IfOk result (λ r. shape_of r ≡ prove_shape) }
    ensures local { IfOk result (λ r. (fields_of r).has_globals ≡ false) }
{
    Command::new(alloc, "prove")
        .about(PROVE)
        .long_about(LONG_PROVE)
        .after_help(PROVE_EXAMPLE)
        .arg(required(alloc, "key", "KEY", "The key, of 1 to 1,024 bytes"))?
        .arg(json_option(alloc))
}

/// The words that `verify` takes.
fn verify_words<'a>(alloc: Global) -> Result<Command<'a>, AllocError>
    ensures shape { IfOk result (λ r. shape_of r ≡ verify_shape) }
    ensures local { IfOk result (λ r. (fields_of r).has_globals ≡ false) }
{
    Command::new(alloc, "verify")
        .about(VERIFY)
        .long_about(LONG_VERIFY)
        .after_help(VERIFY_EXAMPLE)
        .arg(required(
            alloc,
            "root",
            "ROOT",
            "The text of the CID of the tree's root",
        ))?
        .arg(required(alloc, "key", "KEY", "The key, of 1 to 1,024 bytes"))
}

/// An option that takes a text, and has another one where it is left out.
fn option<'a>(alloc: Global, id: &'a str, name: &'a str, other: &'a str, help: &'a str) -> Arg<'a>
    ensures rule { rule_of result ≡ option_rule id.entry.now other.entry.now }
    ensures local { result.global ≡ false }
{
    Arg::new(alloc, id)
        .long(id)
        .value_name(name)
        .default_value(other)
        .help(help)
}

/// An option that takes a text, and may be left out.
fn optional<'a>(alloc: Global, id: &'a str, name: &'a str, help: &'a str) -> Arg<'a>
    ensures rule { rule_of result ≡ optional_rule id.entry.now }
    ensures local { result.global ≡ false }
{
    Arg::new(alloc, id).long(id).value_name(name).help(help)
}
