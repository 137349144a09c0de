//! The option for JSON on a command line.
ghost use Rattle.std.specs.Prelude.{◌≡◌, false};
ghost use Rattle.clap.specs.Words.{found_of, rows_of, rule_of};
ghost use Rattle.record_forms.specs.Options.{IsFormOf, json_rule};

use crate::form::Form;
use clap::{Arg, ArgAction, ArgMatches};
use std::alloc::Global;

/// The option for records as JSON in place of hexadecimal.
pub fn json_option<'a>(alloc: Global) -> Arg<'a>
    ensures rule { rule_of result ≡ json_rule }
    ensures local { result.global ≡ false }
{
    Arg::new(alloc, "json")
        .long("json")
        .action(ArgAction::SetTrue)
        .help("Records as JSON in place of hexadecimal")
}

/// The form of records that these words ask for.
pub fn form_of(words: &ArgMatches) -> Form
    ensures { IsFormOf (rows_of (found_of words.now)) result }
{
    if words.get_flag("json") {
        Form::Json
    } else {
        Form::Hex
    }
}
