//! What the command is told on a command line.
ghost use Rattle.std.specs.Prelude.{◌≡◌, false, IfNone, IfOk, IfSome, option_map};
ghost use Rattle.clap.specs.Words.{app_of, found_of, rows_of, rule_of, shape_of, with_subcommand};
ghost use Rattle.clap.specs.declared.builder.command.Command.TheViews.{out-Command as fields_of};
ghost use Rattle.difference_commands.specs.Words.{AreValuesOf, IsOfWords, IsOtherName, changes_shape, command_of, form_of_word as form_of_word_of};
ghost use Rattle.difference_commands.specs.Words.{form_rule, blocks_rule, records_rule};

use crate::command::{ChangesCommand, Form, Values};
use clap::{Arg, ArgAction, ArgMatches, Command};
use console::{required, word_or};
use std::alloc::{AllocError, Global};

/// What the words of the command say.
#[derive(Clone, Copy)]
pub struct ChangesWords<'a> {
    /// Where the old file is.
    pub old: &'a str,
    /// Where the new one is.
    pub new: &'a str,
    /// The form of both, or none where it is to be found out.
    pub form: Option<&'a str>,
    /// What the line of a change tells.
    pub values: Values,
    /// Where the blocks that come are saved, or none where they aren't wanted.
    pub blocks: Option<&'a str>,
}

const ABOUT: &str = "Reads two files and writes what their repositories differ by";

const LONG_ABOUT: &str = "\
Reads two files, each a repository: a CAR file, the export that a server gives, lines KEY CID, as tree --paths reads them, or
lines KEY HEX, as car reads them. It writes a line 'change KEY BEFORE AFTER' for each key that doesn't have the same record in
both, in the order of the keys, with the CID of its record in the old file and in the new one, or '-' where the key isn't
there. With --records two words more stand on each line, the bytes of both records in hexadecimal, or '-'.

With --blocks it makes a CAR file beside the lines, for who has the old repository: the nodes of the new tree that the old one
lacks, and the records of the keys that differ. Its root is the commit of the new file, which is its first block, where that is
a CAR, and else the root of the new tree. A file of that name is written over, once both files are read and without a fault.

A file is a CAR where its second byte is 0xa2; else the first line decides, which is KEY CID where 'bafy' stands behind its
first space. With --form both are read as it says.

Exit status: 0 done, 1 a faulty file, 2 a wrong command line, 3 no memory, 4 reading or writing failed.";

const EXAMPLE: &str = "\
Example:
  $ printf 'a/b a0\\n' > old.txt
  $ printf 'a/b a0\\na/c a0\\n' > new.txt
  $ msthost changes old.txt new.txt
  change a/c - bafyreigbtj4x7ip5legnfznufuopl4sg4knzc2cof6duas4b3q2fy6swua";

/// Adds the command to a program's.
pub fn with_words<'a>(alloc: Global, program: Command<'a>) -> Result<Command<'a>, AllocError>
    ensures { IfOk result (λ r. app_of r ≡ with_subcommand (app_of program.entry) changes_shape) }
{
    program.subcommand(changes_words(alloc)?)
}

/// What the words of the command of this name say, or `None` where it is another.
pub fn words_of<'a>(name: &str, words: &ArgMatches<'a>) -> Option<ChangesWords<'a>>
    ensures words { IfSome result (IsOfWords name.now (rows_of (found_of words.now))) }
    ensures none { IfNone result (IsOtherName name.now) }
{
    if name == "changes" {
        return Some(ChangesWords {
            old: word_or("", words, "old"),
            new: word_or("", words, "new"),
            form: words.get_str("form"),
            values: values_of(words),
            blocks: words.get_str("blocks"),
        });
    }
    None
}

impl<'a> ChangesWords<'a> {
    /// The command that they ask for, or `None` where the word for the form is none.
    pub fn command(&self) -> Option<ChangesCommand>
        ensures { result ≡ command_of self.now }
    {
        let form = form_of_word(self.form)?;
        Some(ChangesCommand {
            form,
            values: self.values,
            blocks: self.blocks.is_some(),
        })
    }
}

/// The form of this word, which may be none; or `None` where it is no form's.
fn form_of_word(word: Option<&str>) -> Option<Option<Form>>
    ensures { result ≡ form_of_word_of (option_map (λ name. name.now) word.entry) }
{
    let Some(word) = word else {
        return Some(None);
    };
    if word == "car" {
        return Some(Some(Form::Car));
    }
    if word == "listing" {
        return Some(Some(Form::Listing));
    }
    if word == "records" {
        return Some(Some(Form::Records));
    }
    None
}

/// What these words ask for.
fn values_of(words: &ArgMatches) -> Values
    ensures { AreValuesOf (rows_of (found_of words.now)) result }
{
    if words.get_flag("records") {
        Values::Records
    } else {
        Values::Cids
    }
}

/// The words that `changes` takes, with what help shows of them.
fn changes_words<'a>(alloc: Global) -> Result<Command<'a>, AllocError>
    ensures shape { IfOk result (λ r. shape_of r ≡ changes_shape) }
    ensures local { IfOk result (λ r. (fields_of r).has_globals ≡ false) }
{
    Command::new(alloc, "changes")
        .about(ABOUT)
        .long_about(LONG_ABOUT)
        .after_help(EXAMPLE)
        .arg(required(alloc, "old", "OLD", "The file before"))?
        .arg(required(alloc, "new", "NEW", "The file after"))?
        .arg(form_word(alloc))?
        .arg(records_word(alloc))?
        .arg(blocks_word(alloc))
}

/// The option for the form.
fn form_word<'a>(alloc: Global) -> Arg<'a>
    ensures rule { rule_of result ≡ form_rule }
    ensures local { result.global ≡ false }
{
    Arg::new(alloc, "form").long("form").value_name("FORM").help(
        "The form of both files: car, listing (KEY CID) or records (KEY HEX)",
    )
}

/// The option for records.
fn records_word<'a>(alloc: Global) -> Arg<'a>
    ensures rule { rule_of result ≡ records_rule }
    ensures local { result.global ≡ false }
{
    Arg::new(alloc, "records")
        .long("records")
        .action(ArgAction::SetTrue)
        .help("Write the bytes of both records behind their CIDs")
}

/// The option for blocks.
fn blocks_word<'a>(alloc: Global) -> Arg<'a>
    ensures rule { rule_of result ≡ blocks_rule }
    ensures local { result.global ≡ false }
{
    Arg::new(alloc, "blocks")
        .long("blocks")
        .value_name("FILE")
        .help("Save the nodes and the records that come in this file, a CAR file")
}
