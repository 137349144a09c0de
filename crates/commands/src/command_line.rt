//! What the words of a command line ask for.
ghost use Rattle.std.specs.Prelude.{◌≡◌, ◌∷◌, [], codes, false, IfErr, IfOk, IsSomeAnd};
ghost use Rattle.clap.specs.Kinds.{HasKind};
ghost use Rattle.clap.specs.Walk.{texts};
ghost use Rattle.clap.specs.Words.{app_of, fault_of, found_of, rows_of, shape_of, subcommand_rows_of};
ghost use Rattle.clap.specs.declared.builder.command.Command.TheViews.{out-Command as fields_of};
ghost use Rattle.commands.specs.CommandLine.{IsAskedBy, IsCommandName, IsNamed, file_given, file_of_words};
ghost use Rattle.commands.specs.CommandLine.{help_shape, msthost, name_of};

use change_commands::ChangeCommand;
use clap::{ArgMatches, Command, Error};
use console::file_of;
use difference_commands::ChangesWords;
use event_commands::EventCommand;
use explain_command::ExplainCommand;
use export_commands::ExportCommand;
use repository_commands::RepositoryCommand;
use run_command::RunCommand;
use std::alloc::{AllocError, Global};
use tree_command::TreeOptions;

/// A command that the words of a command line ask for, with what they say of it.
#[derive(Clone, Copy)]
pub enum Request<'a> {
    /// List the tree of the lines of the input.
    Tree(TreeOptions),
    /// Do a command on one repository.
    OnRepository(RepositoryCommand<'a>),
    /// Do a command on a change of one repository.
    OnChange(ChangeCommand<'a>),
    /// Do a command on messages of the event stream.
    OnMessages(EventCommand<'a>),
    /// Do a command on a file that is the export of a repository.
    OnExport(ExportCommand),
    /// Tell what the two files differ by that its words name.
    OnDifference(ChangesWords<'a>),
    /// Let a host's workers do the script of the input.
    Run(RunCommand<'a>),
    /// Say what a fault means.
    Explain(ExplainCommand<'a>),
    /// Show the program's help.
    Help,
}

/// A command, with the file that the words name for it to read, if they name one.
#[derive(Clone, Copy)]
pub(crate) struct Asked<'a> {
    pub(crate) request: Request<'a>,
    pub(crate) file: Option<&'a str>,
}

const ABOUT: &str = "Merkle search trees of AT Protocol repositories";

/// What the words ask for, of which the first is the program's name; or the text for the user, as an error.
pub(crate) fn asked_of<'a>(alloc: Global, words: &'a [&'a str]) -> Result<Asked<'a>, Error>
    ensures asked { IfOk result (λ asked. IsAskedBy (texts words.entry.now) asked.request) }
    ensures file { IfOk result
        (λ asked. name_of asked.file ≡ file_of_words (texts words.entry.now)) }
    ensures refused { IfErr result (HasKind (fault_of msthost (texts words.entry.now))) }
{
    let matches = command(alloc)?.try_get_matches_from(words)?;
    Ok(asked_in(&matches))
}

/// What the command that was found is to do, and on which file.
#[tactic(auto, using(crate::proofs::OnFiles::file_found, crate::proofs::OnFiles::none_found))]
fn asked_in<'a>(matches: &ArgMatches<'a>) -> Asked<'a>
    requires { IsSomeAnd (subcommand_rows_of matches.now) (λ c. IsCommandName c.0) }
    ensures request { IsSomeAnd (subcommand_rows_of matches.now)
        (λ c. IsNamed c.0 c.1 result.request) }
    ensures file { name_of result.file ≡ file_given (subcommand_rows_of matches.now) }
{
    match matches.subcommand() {
        Some((name, words)) => Asked {
            request: request_by(name, words),
            file: file_of(words),
        },
        // Never so: words without a command are refused before.
        None => Asked {
            request: Request::Help,
            file: None,
        },
    }
}

/// What the command of this name is to do.
fn request_by<'a>(name: &str, words: &ArgMatches<'a>) -> Request<'a>
    requires { IsCommandName name.now }
    ensures { IsNamed name.now (rows_of (found_of words.now)) result }
{
    if let Some(command) = repository_commands::command_of(name, words) {
        return Request::OnRepository(command);
    }
    if let Some(command) = change_commands::command_of(name, words) {
        return Request::OnChange(command);
    }
    if let Some(command) = event_commands::command_of(name, words) {
        return Request::OnMessages(command);
    }
    if let Some(command) = export_commands::command_of(name, words) {
        return Request::OnExport(command);
    }
    if let Some(words) = difference_commands::words_of(name, words) {
        return Request::OnDifference(words);
    }
    if let Some(command) = run_command::command_of(name, words) {
        return Request::Run(command);
    }
    if let Some(command) = explain_command::command_of(name, words) {
        return Request::Explain(command);
    }
    if name == "help" {
        return Request::Help;
    }
    Request::Tree(tree_command::options_of(words))
}

/// The commands, with what help shows of them.
fn command<'a>(alloc: Global) -> Result<Command<'a>, AllocError>
    ensures { IfOk result (λ c. app_of c ≡ msthost) }
{
    let program = Command::new(alloc, "msthost")
        .version("0.3.0")
        .about(ABOUT)
        .after_help(tree_command::EXAMPLE)
        .subcommand_required(true)
        .disable_help_subcommand(true);
    let program = tree_command::with_words(alloc, program)?;
    let program = repository_commands::with_words(alloc, program)?;
    let program = change_commands::with_words(alloc, program)?;
    let program = event_commands::with_words(alloc, program)?;
    let program = export_commands::with_words(alloc, program)?;
    let program = difference_commands::with_words(alloc, program)?;
    let program = run_command::with_words(alloc, program)?;
    let program = explain_command::with_words(alloc, program)?;
    program.subcommand(help(alloc))
}

/// The command `help`, which takes no words.
fn help<'a>(alloc: Global) -> Command<'a>
    ensures shape { shape_of result ≡ help_shape }
    ensures local { (fields_of result).has_globals ≡ false }
{
    Command::new(alloc, "help").about("Shows this help, as --help does")
}

/// The program's help, as an error that shows it.
pub(crate) fn help_of(alloc: Global) -> Error
    ensures { HasKind (fault_of msthost (codes "msthost" ∷ codes "--help" ∷ [])) result }
{
    match asked_of(alloc, &["msthost", "--help"]) {
        Ok(_) => Error::from(AllocError),
        Err(error) => error,
    }
}
