//! The command: a script is read, run, and its report written.
ghost use Rattle.std.specs.Prelude.{◌≡◌, ◌<◌, true, false, All, IfErr, IfOk, IfSome, OnOk};
ghost use Rattle.spec.specs.Reading.{Gives};
ghost use Rattle.spec.specs.Stamps.{is_did as is_did_of};
ghost use Rattle.run_command.specs.Script.{script_in};
ghost use Rattle.run_command.specs.Views.{view_of_lines};
ghost use Rattle.run_command.specs.Faults.{run_fault_of, IsOfScript};
ghost use Rattle.run_command.specs.Outcomes.{IsOutcome, IsReported, IsUnreported};

use crate::fault::RunFault;
use crate::hosting::report_of_lines;
use crate::script::script_of;
use crate::settings::Settings;
use batches::is_did;
use cid::Digest;
use console::{CommandFault, read_all, write_made};
use scripts::Line;
use std::alloc::Global;
use std::io::{Read, Write};
use std::random::RandomSource;
use std::sync::Wait;
use std::thread::Threads;
use store::TableKey;

/// Reads a script, lets a host's workers do its lines, each worker its own in a thread of its own, and writes what came of
/// it: what each line was answered, each repository, each block, and what each writer told.
///
/// Of the repositories and blocks it writes what the closed host shows: root, commit and blocks of each repository, and no
/// others, are those from scratch by its accepted writes, and the count of each block is the number of repositories that
/// have it.
///
/// The host's tables hash CIDs under a key that is drawn at random. Where there is none to be had, `RunFault::ReadFailed` says
/// so.
///
/// The DID is that of all batches, and is tested before the input is read. All of the script is read and judged before a
/// line of it is done, and the host has closed before a byte is written: where there is no report (`CommandFault::NoText`)
/// nothing was written, and where writing failed (`CommandFault::Unwritten`) a beginning of it.
///
/// `RunFault::BadDid` comes before the input is read, `RunFault::BadScript` names the first faulty line, and
/// `RunFault::Uneven` says that the host didn't close.
pub fn run_text<
    D: Digest + Send + Sync,
    T: Threads + Wait + RandomSource + Sync,
    R: Read,
    W: Write,
>(
    rt: &T,
    alloc: Global,
    settings: &Settings,
    did: &[u8],
    input: &mut R,
    out: &mut W,
) -> Result<(), CommandFault<RunFault>>
    ensures outcome { IsOutcome D D.digest_of settings.now did.now (R.remaining input.old)
        (W.contents out.old) (W.contents out.new) result }

    // A faulty DID is told before the input is read.
    ensures unread { is_did_of did.now ≡ false → input.new ≡ input.old }
{
    let made = report_made::<D, T, R>(rt, alloc, settings, did, input);
    write_made(made, out)
}

/// The report of a run of the script that a reader still gives.
fn report_made<D: Digest + Send + Sync, T: Threads + Wait + RandomSource + Sync, R: Read>(
    rt: &T,
    alloc: Global,
    settings: &Settings,
    did: &[u8],
    input: &mut R,
) -> Result<Vec<u8>, RunFault>
    ensures report { IfOk result (λ text. IsReported D D.digest_of settings.now did.now
        (R.remaining input.old) text.items) }
    ensures fault { IfErr result (IsUnreported D D.digest_of settings.now did.now
        (R.remaining input.old)) }
    ensures unread { is_did_of did.now ≡ false → input.new ≡ input.old }
{
    check_did(did)?;
    let lines = read_script(alloc, settings, did, input)?;
    let key = drawn_key(rt)?;
    report_of_lines::<D, T>(rt, alloc, key, settings, &lines)
}

/// The key of the host's tables, drawn at random.
fn drawn_key<T: RandomSource>(rt: &T) -> Result<TableKey, RunFault>
    ensures kind { IfErr result (λ e. e ≡ RunFault.ReadFailed) }
{
    let mut bytes = [0; 16];
    match rt.fill_bytes(&mut bytes) {
        Ok(()) => {
            let [a, b, c, d, e, f, g, h, i, j, k, l, m, n, o, p] = bytes;
            let first = u64::from_le_bytes([a, b, c, d, e, f, g, h]);
            let second = u64::from_le_bytes([i, j, k, l, m, n, o, p]);
            Ok(TableKey::of(first, second))
        }
        Err(_) => Err(RunFault::ReadFailed),
    }
}

/// Tests the DID.
fn check_did(did: &[u8]) -> Result<(), RunFault>
    ensures lawful { OnOk result (is_did_of did.now ≡ true) }
    ensures fault { IfErr result (λ e. (e ≡ RunFault.BadDid) × (is_did_of did.now ≡ false)) }
{
    if is_did(did) {
        Ok(())
    } else {
        Err(RunFault::BadDid)
    }
}

/// The lines of all that the reader still gives, or the first faulty one.
fn read_script<R: Read>(
    alloc: Global,
    settings: &Settings,
    did: &[u8],
    input: &mut R,
) -> Result<Vec<Line>, RunFault>
    ensures script { IfSome (R.remaining input.old) (λ xs. Gives
        (λ lines. view_of_lines lines.items) run_fault_of result
        (script_in settings.now.workers did.now xs)) }
    ensures workers { IfOk result (λ lines.
        All (λ l. l.worker < settings.now.workers) lines.items) }
    ensures kind { IfErr result IsOfScript }
{
    let bytes = read_all(alloc, input)?;
    Ok(script_of(alloc, settings.workers(), did, &bytes)?)
}
