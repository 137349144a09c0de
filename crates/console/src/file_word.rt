//! The word that names the file that a command reads.
ghost use Rattle.std.specs.Prelude.{◌≡◌, false, option_map, IfOk};
ghost use Rattle.clap.specs.Words.{found_of, rows_of, rule_of, shape_of};
ghost use Rattle.clap.specs.declared.builder.command.Command.TheViews.{out-Command as fields_of};
ghost use Rattle.console.specs.FileWords.{file_rule, file_in, with_file as with_file_of};

use clap::{Arg, ArgMatches, Command};
use std::alloc::{AllocError, Global};

/// The command with one word more, the last and one that may be left out: the file that it reads in place of standard
/// input.
pub fn with_file<'a>(alloc: Global, command: Command<'a>) -> Result<Command<'a>, AllocError>
    ensures shape { IfOk result (λ r. shape_of r ≡ with_file_of (shape_of command.entry)) }
    ensures local { (fields_of command.entry).has_globals ≡ false
        → IfOk result (λ r. (fields_of r).has_globals ≡ false) }
{
    command.arg(file_word(alloc))
}

/// The file that the words of such a command name, or `None` where they name none.
pub fn file_of<'a>(words: &ArgMatches<'a>) -> Option<&'a str>
    ensures { option_map (λ name. name.now) result ≡ file_in (rows_of (found_of words.now)) }
{
    words.get_str("file")
}

/// The word itself.
fn file_word<'a>(alloc: Global) -> Arg<'a>
    ensures rule { rule_of result ≡ file_rule }
    ensures local { result.global ≡ false }
{
    Arg::new(alloc, "file")
        .value_name("FILE")
        .help("The file to read; standard input where none is named")
}
