//! The report of a host that has closed.
ghost use Rattle.std.specs.Prelude.{◌≡◌, ◌<◌, ◌≤◌, ◌++◌, [], length, IfOk, OnOk};
ghost use Rattle.closing.specs.Headline.{AreTallies};
ghost use Rattle.closing.specs.Settling.{IsAllTold};
ghost use Rattle.run_command.specs.Reports.{AddsCounts, AddsShown, IsTextOf, told_lines, told_lines_of};

use crate::drained::drained;
use crate::script::{push_answers, push_blocks, push_notices, push_notices_of, push_repository};
use crate::settings::Settings;
use cid::Digest;
use closing::Closed;
use notices::Notice;
use scripts::{Answer, Line};
use std::alloc::{AllocError, Global};
use std::sync::Wait;

/// The report of a script of these lines with these answers, whose host was opened with these settings and has closed.
pub(crate) fn report_of<D: Digest, T: Wait>(
    rt: &T,
    alloc: Global,
    settings: &Settings,
    lines: &[Line],
    answers: &[Answer<D>],
    closed: &mut Closed<D, 2>,
) -> Result<Vec<u8>, AllocError>
    requires answered { length answers.now ≡ length lines.now }
    requires repos { length closed.old.cores ≡ settings.now.repos }
    requires writers { closed.old.feed.made ≡ settings.now.workers }
    requires fresh { closed.old.feed.received ≡ [] }
    ensures { IfOk result (λ text. IsTextOf D.digest_of settings.now lines.now answers.now
        closed.old.cores closed.old.tables closed.old.ended text.items) }
{
    let mut text = Vec::new(alloc);
    push_answers(&mut text, alloc, settings.form(), lines, answers)?;
    push_shown(&mut text, settings.repos(), closed)?;
    push_counts(&mut text, alloc, closed)?;
    let left = drained(rt, alloc, closed)?;
    push_told(&mut text, settings.workers(), closed, &left)?;
    Ok(text)
}

/// Adds a line for each repository, of which there are so many.
fn push_shown<D: Digest>(
    text: &mut Vec<u8>,
    repos: usize,
    closed: &Closed<D, 2>,
) -> Result<(), AllocError>
    requires some { 1 ≤ repos }
    requires all { length closed.now.cores ≡ repos }
    ensures { OnOk result (AddsShown D.digest_of closed.now.cores closed.now.tables
        text.old.items text.new.items) }
{
    for number in 0..repos {
        let shown = closed.shown(number);
        let accepted = shown.accepted.len() as u64;
        push_repository(text, number, &shown.root, accepted, shown.commit)?;
    }
    Ok(())
}

/// Adds a line for each block that a repository has.
fn push_counts<D: Digest>(
    text: &mut Vec<u8>,
    alloc: Global,
    closed: &Closed<D, 2>,
) -> Result<(), AllocError>
    requires { AreTallies D.digest_of 2 closed.now.cores closed.now.tables }
    ensures { OnOk result (AddsCounts closed.now.tables text.old.items text.new.items) }
{
    let counts = closed.counts(alloc)?;
    push_blocks(text, &counts)
}

/// Adds what each writer told: what was received of it, and then what it kept.
fn push_told<D: Digest>(
    text: &mut Vec<u8>,
    writers: u32,
    closed: &Closed<D, 2>,
    received: &[Notice],
) -> Result<(), AllocError>
    requires writers { closed.now.feed.made ≡ writers }
    requires received { closed.now.feed.received ≡ received.now }
    requires told { IsAllTold closed.now.feed closed.now.ended }
    ensures { OnOk result (text.new.items ≡ text.old.items
        ++ told_lines writers closed.now.ended) }
{
    for writer in 0..writers {
        push_told_by(text, writer, closed, received)?;
    }
    Ok(())
}

/// Adds what the writer of this number told.
fn push_told_by<D: Digest>(
    text: &mut Vec<u8>,
    writer: u32,
    closed: &Closed<D, 2>,
    received: &[Notice],
) -> Result<(), AllocError>
    requires known { writer < closed.now.feed.made }
    requires received { closed.now.feed.received ≡ received.now }
    requires told { IsAllTold closed.now.feed closed.now.ended }
    ensures { OnOk result (text.new.items ≡ text.old.items
        ++ told_lines_of closed.now.ended writer) }
{
    push_notices_of(text, writer, received)?;
    push_notices(text, closed.kept(writer))
}
