//! Which way a change is shown, and the option for it on a command line.
ghost use Rattle.std.specs.Prelude.{◌≡◌, false};
ghost use Rattle.clap.specs.Words.{found_of, rows_of, rule_of};
ghost use Rattle.change_commands.specs.Words.{inversion_rule, IsDirectionOf};

use clap::{Arg, ArgAction, ArgMatches};
use std::alloc::Global;

/// Which way a change between two roots is shown.
#[derive(Clone, Copy, PartialEq, Eq, Debug)]
pub enum Direction {
    /// The changes are done, over nodes of the tree before them.
    Forward,
    /// The changes are undone, over nodes of the tree after them: the event stream's operation inversion.
    Inversion,
}

/// The option for the inversion, with what help shows of it.
pub(crate) fn inversion_option<'a>(alloc: Global, help: &'a str) -> Arg<'a>
    ensures rule { rule_of result ≡ inversion_rule }
    ensures local { result.global ≡ false }
{
    Arg::new(alloc, "inversion")
        .long("inversion")
        .action(ArgAction::SetTrue)
        .help(help)
}

/// The direction that these words ask for.
pub(crate) fn direction_of(words: &ArgMatches) -> Direction
    ensures { IsDirectionOf (rows_of (found_of words.now)) result }
{
    if words.get_flag("inversion") {
        Direction::Inversion
    } else {
        Direction::Forward
    }
}
