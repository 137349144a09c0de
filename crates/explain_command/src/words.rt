//! What `explain` is told on a command line.
ghost use Rattle.std.specs.Prelude.{◌≡◌, ◌↔◌, codes, false, IfOk, IfSome, IsSome};
ghost use Rattle.clap.specs.Words.{app_of, found_of, rows_of, shape_of, with_subcommand};
ghost use Rattle.clap.specs.declared.builder.command.Command.TheViews.{out-Command as fields_of};
ghost use Rattle.explain_command.specs.Words.{HasNameOf, explain_shape};

use clap::{Arg, ArgMatches, Command};
use std::alloc::{AllocError, Global};

/// The command, with what its words say.
#[derive(Clone, Copy)]
pub struct ExplainCommand<'a> {
    /// The name of a fault, or none.
    pub name: Option<&'a str>,
}

const ABOUT: &str = "Says what a fault means, and what usually causes it";

const LONG_ABOUT: &str = "\
Writes what a fault means, and what usually causes it: of the name that standard error or a report shows. Where no name is
given it lists all names. Standard input isn't read.

Exit status: 0 done, 1 no fault has the name, 2 a wrong command line, 3 no memory, 4 writing failed.";

const EXAMPLE: &str = "\
Example:
  $ msthost explain NotAMap
  NotAMap
    the record is not a map
    Usual causes: a list, a text or a number as a record: each record of the AT Protocol is one map";

/// Adds the command to a program's.
pub fn with_words<'a>(alloc: Global, program: Command<'a>) -> Result<Command<'a>, AllocError>
    ensures { IfOk result (λ r. app_of r ≡ with_subcommand (app_of program.entry) explain_shape) }
{
    program.subcommand(words(alloc)?)
}

/// The word that `explain` takes, with what help shows of it.
fn words<'a>(alloc: Global) -> Result<Command<'a>, AllocError>
    ensures shape { IfOk result (λ r. shape_of r ≡ explain_shape) }
    ensures local { IfOk result (λ r. (fields_of r).has_globals ≡ false) }
{
    let name = Arg::new(alloc, "name")
        .value_name("NAME")
        .help("The fault's name");
    Command::new(alloc, "explain")
        .about(ABOUT)
        .long_about(LONG_ABOUT)
        .after_help(EXAMPLE)
        .arg(name)
}

/// The command of this name, with what its words say; or `None` where it is another.
pub fn command_of<'a>(name: &str, words: &ArgMatches<'a>) -> Option<ExplainCommand<'a>>
    ensures name { IsSome result ↔ (name.now ≡ codes "explain") }
    ensures words { IfSome result (HasNameOf (rows_of (found_of words.now))) }
{
    if name != "explain" {
        return None;
    }
    Some(ExplainCommand {
        name: words.get_str("name"),
    })
}
