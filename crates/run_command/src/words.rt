//! What the command is told on a command line.
ghost use Rattle.std.specs.Prelude.{◌≡◌, ◌↔◌, ℕ, codes, false, IfOk, IfSome, IsSome};
ghost use Rattle.clap.specs.Words.{app_of, found_of, new_app, one_of, rows_of, rule_of, shape_of};
ghost use Rattle.clap.specs.Words.{with_subcommand};
ghost use Rattle.clap.specs.declared.builder.command.Command.TheViews.{out-Command as fields_of};
ghost use Rattle.console.specs.FileWords.{with_file as with_file_of};
ghost use Rattle.console.specs.Numbers.{IsNumberOf};
ghost use Rattle.run_command.specs.Words.{AreSettingsOf, did_of_words};
ghost use Rattle.run_command.specs.Words.{did_rule, number_rule, run_shape};

use crate::settings::Settings;
use clap::builder::ValueParser;
use clap::{Arg, ArgMatches, Command, value_parser};
use console::with_file;
use record_forms::{form_of, json_option};
use std::alloc::{AllocError, Global};

/// The command, with what its words say.
#[derive(Clone, Copy)]
pub struct RunCommand<'a> {
    /// How many of each there are, and in which form the report has records.
    pub settings: Settings,
    /// The DID of all batches.
    pub did: &'a str,
}

/// The DID where no word says which.
const DID: &str = "did:web:localhost";

const ABOUT: &str =
    "Reads a script, lets workers do it in repositories of one host, and writes what came of it";

const LONG_ABOUT: &str = "\
Reads a script. Each worker does its own lines in their order, in a thread of its own. Then a line
says what each line was answered, and after them stand the repositories, the blocks with the number of repositories that
have them, and the notices that each worker told, in their order.

A line is WORKER REPO REV WRITE, or WORKER REPO REV WRITE ; WRITE .. for a batch, or WORKER REPO get KEY. A WRITE is
put KEY HEX, create KEY HEX, update KEY HEX or delete KEY, with a record in hexadecimal: one DAG-CBOR map. One space
stands between two words, and empty lines are passed over. That a call is refused is an answer: the status is 0.

A record that a get finds stands in the report in hexadecimal. With --json it stands there as JSON (AT Protocol data model),
which begins with {; one that has no form as JSON stands there in hexadecimal. The script's records are in hexadecimal
with --json too.

Exit status: 0 done, 1 a faulty line or DID, or a host that doesn't close, 2 a wrong command line, 3 no memory,
4 reading or writing failed.";

const EXAMPLE: &str = "\
Example:
  $ printf '0 0 get a/b\\n' | msthost run
  1 none
  repo 0 bafyreie5737gdxlw5i64vzichcalba3z2v5n6icifvx5xytvske7mr3hpm 0 none
  block bafyreie5737gdxlw5i64vzichcalba3z2v5n6icifvx5xytvske7mr3hpm 1";

/// Adds the command to a program's.
pub fn with_words<'a>(alloc: Global, program: Command<'a>) -> Result<Command<'a>, AllocError>
    ensures { IfOk result (λ r. app_of r
        ≡ with_subcommand (app_of program.entry) (with_file_of run_shape)) }
{
    program.subcommand(with_file(alloc, words(alloc)?)?)
}

/// The words that `run` takes, with what help shows of them.
fn words<'a>(alloc: Global) -> Result<Command<'a>, AllocError>
    ensures shape { IfOk result (λ r. shape_of r ≡ run_shape) }
    ensures local { IfOk result (λ r. (fields_of r).has_globals ≡ false) }
{
    let repos = value_parser!(u32).range(1..=1024);
    let workers = value_parser!(u32).range(1..=64);
    let queue = value_parser!(u32).range(1..=65536);
    described(alloc)
        .arg(number(
            alloc,
            "repos",
            "N",
            repos,
            "1",
            "How many repositories there are",
        ))?
        .arg(number(
            alloc,
            "workers",
            "W",
            workers,
            "1",
            "How many workers there are",
        ))?
        .arg(number(
            alloc,
            "queue",
            "Q",
            queue,
            "1024",
            "How many notices the host's queue has room for",
        ))?
        .arg(did(alloc))?
        .arg(json_option(alloc))
}

/// The command with what help shows of it, and without words.
fn described<'a>(alloc: Global) -> Command<'a>
    ensures app { app_of result ≡ new_app (codes "run") }
    ensures local { (fields_of result).has_globals ≡ false }
{
    Command::new(alloc, "run")
        .about(ABOUT)
        .long_about(LONG_ABOUT)
        .after_help(EXAMPLE)
}

/// An option that takes a number, and has another one where it is left out.
fn number<'a>(
    alloc: Global,
    id: &'a str,
    name: &'a str,
    parser: ValueParser<'a>,
    other: &'a str,
    help: &'a str,
) -> Arg<'a>
    ensures rule { rule_of result ≡ number_rule id.entry.now parser.entry other.entry.now }
    ensures local { result.global ≡ false }
{
    Arg::new(alloc, id)
        .long(id)
        .value_name(name)
        .value_parser(parser)
        .default_value(other)
        .help(help)
}

/// The DID of all batches.
fn did<'a>(alloc: Global) -> Arg<'a>
    ensures rule { rule_of result ≡ did_rule }
    ensures local { result.global ≡ false }
{
    Arg::new(alloc, "did")
        .long("did")
        .value_name("DID")
        .default_value(DID)
        .help("Whose repositories they are")
}

/// The command of this name, with what its words say; or `None` where it is another.
pub fn command_of<'a>(name: &str, words: &ArgMatches<'a>) -> Option<RunCommand<'a>>
    ensures name { IsSome result ↔ (name.now ≡ codes "run") }
    ensures did { IfSome result (λ c. c.did.now ≡ did_of_words (rows_of (found_of words.now))) }
    ensures settings { IfSome result (λ c.
        AreSettingsOf (rows_of (found_of words.now)) c.settings) }
{
    if name != "run" {
        return None;
    }
    let repos = number_or(1, words, "repos");
    let workers = number_or(1, words, "workers");
    let queue = number_or(1024, words, "queue");
    Some(RunCommand {
        settings: Settings::new(repos, workers, queue, form_of(words)).unwrap_or_default(),
        did: words.get_str("did").unwrap_or(DID),
    })
}

/// The number that the word with this id gives, or another one where there is none.
fn number_or(other: u32, words: &ArgMatches<'_>, id: &str) -> u32
    ensures { (n : ℕ) → IsNumberOf 32 other (one_of id.now (rows_of (found_of words.now))) n
        → result ≡ n }
{
    words.get_one::<u32>(id).unwrap_or(other)
}
