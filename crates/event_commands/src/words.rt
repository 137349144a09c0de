//! What the commands are told on a command line.
ghost use Rattle.std.specs.Prelude.{◌≡◌, codes, false, option_map, IfNone, IfOk, IfSome};
ghost use Rattle.clap.specs.Words.{app_of, first_of, found_of, new_app, rows_of, rule_of, shape_of, with_subcommand};
ghost use Rattle.clap.specs.declared.builder.command.Command.TheViews.{out-Command as fields_of};
ghost use Rattle.console.specs.FileWords.{with_file as with_file_of};
ghost use Rattle.record_forms.specs.Options.{json_rule};
ghost use Rattle.event_commands.specs.Words.{alone, check_event_shape, commit_event_shape, name_of, needed_rule, optional_rule, seq_rule, sync_event_shape, told_shape, with_commands, AreEventWords, IsOfWords, IsOtherName, IsSeqOf};

use crate::command::{EventCommand, EventWords, Subject};
use clap::builder::ValueParser;
use clap::{Arg, ArgAction, ArgMatches, Command};
use console::{required, with_file, word_or};
use record_forms::{form_of, json_option};
use std::alloc::{AllocError, Global};

const COMMIT_EVENT: &str = "Reads a repository and a batch, and writes the batch's message";

const LONG_COMMIT_EVENT: &str = "\
Reads lines KEY HEX, the records of a repository, then an empty line, and then the writes of one
batch, as prove-change does. It writes the message #commit of the event stream that tells of the batch, as bytes: that the
repository DID has the revision REV, with the commit signed by the signature in hexadecimal, the nodes that show what
changed, and the records that came. Line numbers count empty lines. With --json a record is JSON, as of car --json.

Nothing is signed here. What is signed are the commit's bytes without the signature: commit writes these of the repository after
the batch, as car --sig writes it.

Exit status: 0 done, 1 a faulty word or line, or a batch of which no message tells, 2 a wrong command line, 3 no memory,
4 reading or writing failed.";

const COMMIT_EVENT_EXAMPLE: &str = "\
Example:
  $ empty=bafyreie5737gdxlw5i64vzichcalba3z2v5n6icifvx5xytvske7mr3hpm
  $ told='--seq 1 --time 2026-11-30T12:00:00Z --sig 00'
  $ printf '\\nput a/b a0' | msthost commit-event did:web:a.example 3jzfcijpj2z2a $told > message.bin
  $ msthost check-event $empty message.bin
  did:web:a.example 3jzfcijpj2z2a bafyreihkkefvij2yxd6vkifr7342uvsineepfcevg2pduv3e4idaxosycu 1";

const SYNC_EVENT: &str = "Reads a repository and a batch, and writes the message of its state";

const LONG_SYNC_EVENT: &str = "\
Reads what commit-event reads, and writes the message #sync of the event stream that tells of the repository
which it leaves, as bytes: that the repository DID has the revision REV, with the commit signed by the signature in hexadecimal.
Where there is no batch, the records have the revision REV. A server sends it where no message tells of a batch: whoever follows
the repository knows its root then, and begins again with its export. With --json a record is JSON, as of car --json.

Nothing is signed here. What is signed are the commit's bytes without the signature: commit writes these of the repository after
the batch, as car --sig writes it.

Exit status: 0 done, 1 a faulty word or line, or a state of which no message tells, 2 a wrong command line, 3 no memory,
4 reading or writing failed.";

const SYNC_EVENT_EXAMPLE: &str = "\
Example:
  $ told='--seq 2 --time 2026-11-30T12:00:01Z --sig 00'
  $ printf 'a/b a0\\n' | msthost sync-event did:web:a.example 3jzfcijpj2z2a $told > state.bin
  $ msthost check-event bafyreihkkefvij2yxd6vkifr7342uvsineepfcevg2pduv3e4idaxosycu state.bin
  msthost: message 1: NotCommit";

const CHECK_EVENT: &str = "Reads messages and writes a line of each, where all are true";

const LONG_CHECK_EVENT: &str = "\
Reads messages #commit of the event stream, one after the other as the stream has them, and checks each:
the first as one of the repository whose tree had the root PREVIOUS, and each other one from the root after the one before it.
Where all are true it writes a line DID REV ROOT COUNT of each: whose repository it is, its revision, the text of the CID of
the root after it, and how many operations it has. With --json the operations follow, a line each, as prove-change --json reads
them behind the empty line; a record without JSON stands there in hexadecimal.

Nothing but PREVIOUS is trusted: take it from elsewhere, as from check. The operations are undone on the nodes of the message:
where ROOT is that of some records, these with the operations undone have the root before. Who signed isn't tested.

Exit status: 0 done, 1 a faulty word, or a message that isn't true, of which the number is told, 2 a wrong command line,
3 no memory, 4 reading or writing failed.";

const CHECK_EVENT_EXAMPLE: &str = "\
Example:
  $ root=$(msthost check examples/export.car | cut -d ' ' -f 3)
  $ head -c 1342 examples/messages.bin | msthost check-event --json $root
  did:web:example.com 3jzfcijpj2z2f bafyreiewbwdej3ngjxi4c3ssmsw7dlpu3sezfmqlv6q5bcr66uqhhcmuv4 1
  create app.bsky.feed.post/3jzfcijpj2z2f {\"text\":\"one\"}";

/// Adds the commands on messages to a program's.
pub fn with_words<'a>(alloc: Global, program: Command<'a>) -> Result<Command<'a>, AllocError>
    ensures { IfOk result (λ r. app_of r ≡ with_commands (app_of program.entry)) }
{
    let program = with_commit_event(alloc, program)?;
    let program = with_sync_event(alloc, program)?;
    with_check_event(alloc, program)
}

/// Adds `commit-event`.
fn with_commit_event<'a>(alloc: Global, program: Command<'a>) -> Result<Command<'a>, AllocError>
    ensures { IfOk result (λ r.
        app_of r ≡ with_subcommand (app_of program.entry) (with_file_of commit_event_shape)) }
{
    program.subcommand(with_file(alloc, commit_event_words(alloc)?)?)
}

/// Adds `sync-event`.
fn with_sync_event<'a>(alloc: Global, program: Command<'a>) -> Result<Command<'a>, AllocError>
    ensures { IfOk result (λ r.
        app_of r ≡ with_subcommand (app_of program.entry) (with_file_of sync_event_shape)) }
{
    program.subcommand(with_file(alloc, sync_event_words(alloc)?)?)
}

/// Adds `check-event`.
fn with_check_event<'a>(alloc: Global, program: Command<'a>) -> Result<Command<'a>, AllocError>
    ensures { IfOk result (λ r.
        app_of r ≡ with_subcommand (app_of program.entry) (with_file_of check_event_shape)) }
{
    program.subcommand(with_file(alloc, check_event_words(alloc)?)?)
}

/// The command of this name, with what its words say; or `None` where it is another.
pub fn command_of<'a>(name: &str, words: &ArgMatches<'a>) -> Option<EventCommand<'a>>
    ensures command { IfSome result (IsOfWords name.now (rows_of (found_of words.now))) }
    ensures none { IfNone result (IsOtherName name.now) }
{
    if name == "commit-event" {
        return Some(EventCommand::Write {
            subject: Subject::Batch,
            words: event_words(words, word_in(words, "since")),
            form: form_of(words),
        });
    }
    if name == "sync-event" {
        return Some(EventCommand::Write {
            subject: Subject::State,
            words: event_words(words, None),
            form: form_of(words),
        });
    }
    if name == "check-event" {
        return Some(EventCommand::Check {
            previous: word_or("", words, "previous"),
            form: form_of(words),
        });
    }
    None
}

/// What the words tell, with this revision before.
fn event_words<'a>(words: &ArgMatches<'a>, since: Option<&'a str>) -> EventWords<'a>
    ensures { AreEventWords (rows_of (found_of words.now)) (option_map (λ s. s.now) since.entry) result }
{
    EventWords {
        did: word_or("", words, "did"),
        rev: word_or("", words, "rev"),
        since,
        seq: seq_of(words),
        time: word_or("", words, "time"),
        sig: word_or("", words, "sig"),
    }
}

/// The text of the word with this id, if there is one.
fn word_in<'a>(words: &ArgMatches<'a>, id: &str) -> Option<&'a str>
    ensures { option_map (λ text. text.now) result
        ≡ first_of id.now (rows_of (found_of words.now)) }
{
    words.get_str(id)
}

/// The number that the words give.
fn seq_of(words: &ArgMatches<'_>) -> u64
    ensures { IsSeqOf (rows_of (found_of words.now)) result }
{
    words.get_one::<u64>("seq").unwrap_or(0)
}

/// The words that `commit-event` takes.
fn commit_event_words<'a>(alloc: Global) -> Result<Command<'a>, AllocError>
    ensures shape { IfOk result (λ r. shape_of r ≡ commit_event_shape) }
    ensures local { IfOk result (λ r. (fields_of r).has_globals ≡ false) }
{
    told_words(alloc, Subject::Batch)?.arg(optional(
        alloc,
        "since",
        "REV",
        "The revision of the batch before, which the message tells then",
    ))
}

/// The words that `sync-event` takes.
fn sync_event_words<'a>(alloc: Global) -> Result<Command<'a>, AllocError>
    ensures shape { IfOk result (λ r. shape_of r ≡ sync_event_shape) }
    ensures local { IfOk result (λ r. (fields_of r).has_globals ≡ false) }
{
    told_words(alloc, Subject::State)
}

/// The command that writes a message, with the words that both have.
fn told_words<'a>(alloc: Global, subject: Subject) -> Result<Command<'a>, AllocError>
    ensures { IfOk result (λ r. (app_of r ≡ alone (told_shape subject))
        × ((fields_of r).has_globals ≡ false)) }
{
    bare_event(alloc, subject)
        .arg(required(alloc, "did", "DID", "Whose repository it is"))?
        .arg(required(alloc, "rev", "REV", "The revision of the batch"))?
        .arg(seq_option(alloc))?
        .arg(needed(alloc, "time", "TIME", "When the message is sent"))?
        .arg(needed(
            alloc,
            "sig",
            "HEX",
            "The signature of the commit, in hexadecimal",
        ))?
        .arg(json_option(alloc))
}

/// The command before its words, with what help shows of it.
fn bare_event<'a>(alloc: Global, subject: Subject) -> Command<'a>
    ensures app { app_of result ≡ new_app (name_of subject) }
    ensures local { (fields_of result).has_globals ≡ false }
{
    match subject {
        Subject::Batch => Command::new(alloc, "commit-event")
            .about(COMMIT_EVENT)
            .long_about(LONG_COMMIT_EVENT)
            .after_help(COMMIT_EVENT_EXAMPLE),
        Subject::State => Command::new(alloc, "sync-event")
            .about(SYNC_EVENT)
            .long_about(LONG_SYNC_EVENT)
            .after_help(SYNC_EVENT_EXAMPLE),
    }
}

/// The words that `check-event` takes.
fn check_event_words<'a>(alloc: Global) -> Result<Command<'a>, AllocError>
    ensures shape { IfOk result (λ r. shape_of r ≡ check_event_shape) }
    ensures local { IfOk result (λ r. (fields_of r).has_globals ≡ false) }
{
    Command::new(alloc, "check-event")
        .about(CHECK_EVENT)
        .long_about(LONG_CHECK_EVENT)
        .after_help(CHECK_EVENT_EXAMPLE)
        .arg(required(
            alloc,
            "previous",
            "PREVIOUS",
            "The text of the CID of the root before the first message",
        ))?
        .arg(operations_option(alloc))
}

/// An option that takes a text, and may be left out.
fn optional<'a>(alloc: Global, id: &'a str, name: &'a str, help: &'a str) -> Arg<'a>
    ensures rule { rule_of result ≡ optional_rule id.entry.now }
    ensures local { result.global ≡ false }
{
    Arg::new(alloc, id).long(id).value_name(name).help(help)
}

/// An option that takes a text, and must be there.
fn needed<'a>(alloc: Global, id: &'a str, name: &'a str, help: &'a str) -> Arg<'a>
    ensures rule { rule_of result ≡ needed_rule id.entry.now }
    ensures local { result.global ≡ false }
{
    Arg::new(alloc, id)
        .long(id)
        .value_name(name)
        .required(true)
        .help(help)
}

/// The option for a message's number, which must be there.
fn seq_option<'a>(alloc: Global) -> Arg<'a>
    ensures rule { rule_of result ≡ seq_rule }
    ensures local { result.global ≡ false }
{
    Arg::new(alloc, "seq")
        .long("seq")
        .value_name("N")
        .value_parser(ValueParser::unsigned(0, u64::MAX))
        .required(true)
        .help("The message's number in the stream, below 2^63")
}

/// The option for operations with their records.
fn operations_option<'a>(alloc: Global) -> Arg<'a>
    ensures rule { rule_of result ≡ json_rule }
    ensures local { result.global ≡ false }
{
    Arg::new(alloc, "json")
        .long("json")
        .action(ArgAction::SetTrue)
        .help("Write the operations too, with their records as JSON")
}
