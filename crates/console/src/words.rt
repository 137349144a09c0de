//! Words of a command line by their ids.
ghost use Rattle.std.specs.Prelude.{◌≡◌, false};
ghost use Rattle.clap.specs.Words.{found_of, rows_of, rule_of};
ghost use Rattle.console.specs.Words.{required_rule, word_or as word_or_of};

use clap::{Arg, ArgMatches};
use std::alloc::Global;

/// A word that must be there, shown in help under this name.
pub fn required<'a>(alloc: Global, id: &'a str, name: &'a str, help: &'a str) -> Arg<'a>
    ensures rule { rule_of result ≡ required_rule id.entry.now }
    ensures local { result.global ≡ false }
{
    Arg::new(alloc, id)
        .value_name(name)
        .required(true)
        .help(help)
}

/// The text of the word with this id, or another text where there is none.
pub fn word_or<'a>(other: &'a str, words: &ArgMatches<'a>, id: &str) -> &'a str
    ensures { result.now ≡ word_or_of other.now (rows_of (found_of words.now)) id.now }
{
    words.get_str(id).unwrap_or(other)
}
