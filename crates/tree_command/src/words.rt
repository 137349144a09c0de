//! What `tree` is told on a command line.
ghost use Rattle.std.specs.Prelude.{◌≡◌, ℕ, false, IfOk};
ghost use Rattle.clap.specs.Words.{app_of, found_of, one_of, rows_of, rule_of, shape_of};
ghost use Rattle.clap.specs.Words.{with_subcommand};
ghost use Rattle.clap.specs.declared.builder.command.Command.TheViews.{out-Command as fields_of};
ghost use Rattle.console.specs.FileWords.{with_file as with_file_of};
ghost use Rattle.console.specs.Numbers.{IsNumberOf};
ghost use Rattle.tree_command.specs.Words.{AreKeysOf, HasNumberOf, bits_rule, paths_rule, tree_shape};

use crate::bits::Bits;
use crate::keys::Keys;
use crate::options::TreeOptions;
use clap::{Arg, ArgAction, ArgMatches, Command, value_parser};
use console::with_file;
use std::alloc::{AllocError, Global};

/// What a user types, and what comes of it.
pub const EXAMPLE: &str = "\
Example:
  $ printf '' | msthost tree
  bafyreie5737gdxlw5i64vzichcalba3z2v5n6icifvx5xytvske7mr3hpm
  bafyreie5737gdxlw5i64vzichcalba3z2v5n6icifvx5xytvske7mr3hpm a2616580616cf6
For a repository: msthost tree --paths FILE";

const ABOUT: &str = "Reads lines KEY CID and lists the tree of them";

const LONG_ABOUT: &str = "\
Reads lines KEY CID and writes the text of the CID of their tree's root, and then a line CID HEX
for each node, from the top.

Lines come in any order and end at LF or CR LF. The key is all before a line's last space, and has 1 to 1,024 bytes.
With --paths it is one of a repository, collection/rkey, and a line with another key is faulty. Of lines with one key
the last decides, and empty lines are passed over.

Exit status: 0 done, 1 a faulty line or two nodes with one CID, 2 a wrong command line, 3 no memory, 4 reading or
writing failed.";

/// Adds the command to a program's.
pub fn with_words<'a>(alloc: Global, program: Command<'a>) -> Result<Command<'a>, AllocError>
    ensures { IfOk result (λ r. app_of r
        ≡ with_subcommand (app_of program.entry) (with_file_of tree_shape)) }
{
    program.subcommand(with_file(alloc, words(alloc)?)?)
}

/// The words that `tree` takes, with what help shows of them.
fn words<'a>(alloc: Global) -> Result<Command<'a>, AllocError>
    ensures shape { IfOk result (λ r. shape_of r ≡ tree_shape) }
    ensures local { IfOk result (λ r. (fields_of r).has_globals ≡ false) }
{
    Command::new(alloc, "tree")
        .about(ABOUT)
        .long_about(LONG_ABOUT)
        .after_help(EXAMPLE)
        .arg(bits_word(alloc))?
        .arg(paths_word(alloc))
}

/// The option for the fan-out.
fn bits_word<'a>(alloc: Global) -> Arg<'a>
    ensures rule { rule_of result ≡ bits_rule }
    ensures local { result.global ≡ false }
{
    Arg::new(alloc, "bits")
        .long("bits")
        .value_name("B")
        .value_parser(value_parser!(u8).range(1..=8))
        .default_value("2")
        .help("Zero bits of a key's digest that count for one layer")
}

/// The option for a repository's keys.
fn paths_word<'a>(alloc: Global) -> Arg<'a>
    ensures rule { rule_of result ≡ paths_rule }
    ensures local { result.global ≡ false }
{
    Arg::new(alloc, "paths")
        .long("paths")
        .action(ArgAction::SetTrue)
        .help("Take a repository's keys alone, collection/rkey")
}

/// What these words tell `tree`.
pub fn options_of(words: &ArgMatches) -> TreeOptions
    ensures bits { HasNumberOf (rows_of (found_of words.now)) result.bits }
    ensures keys { AreKeysOf (rows_of (found_of words.now)) result.keys }
{
    TreeOptions {
        bits: Bits::new(number_or(2, words, "bits")).unwrap_or_default(),
        keys: keys_of(words),
    }
}

/// The keys that these words ask for.
fn keys_of(words: &ArgMatches) -> Keys
    ensures { AreKeysOf (rows_of (found_of words.now)) result }
{
    if words.get_flag("paths") {
        Keys::Paths
    } else {
        Keys::Any
    }
}

/// The number that the word with this id gives, or another one where there is none.
fn number_or(other: u8, words: &ArgMatches, id: &str) -> u8
    ensures { (n : ℕ) → IsNumberOf 8 other (one_of id.now (rows_of (found_of words.now))) n
        → result ≡ n }
{
    words.get_one::<u8>(id).unwrap_or(other)
}
