//! The command `car`: the repository that the lines of its input leave, as one file.
ghost use Rattle.std.specs.Prelude.{◌≡◌, List, ℕ, true, IfErr, IfOk, IfSome, IsErr};
ghost use Rattle.spec.specs.Reading.{Gives};
ghost use Rattle.spec.specs.States.{state_car};
ghost use Rattle.batches.specs.Values.{stamp_of};
ghost use Rattle.record_forms.specs.declared.form.Form.{Form};
ghost use Rattle.repository_commands.specs.Faults.{text_fault_of, is_of_words, TellsFaultyWord, TellsWords};
ghost use Rattle.repository_commands.specs.Outcomes.{HasReason, IsMade, IsOutcome};
ghost use Rattle.repository_commands.specs.Refusals.{IsRefusedIn, IsRefusedLine};
ghost use Rattle.repository_commands.specs.Shards.{WasFull};
ghost use Rattle.repository_commands.specs.Texts.{car_of_given, car_text as car_text_of, no_writes, stamp_check};
ghost use Rattle.repository_commands.specs.Views.{given_of};

use crate::fault::TextFault;
use crate::filling::{MOST_BLOCKS, filled};
use crate::puts::{Puts, read_puts};
use batches::{Stamp, is_did, is_tid};
use cid::Digest;
use console::{CommandFault, write_made};
use export::ToMemory;
use record_forms::Form;
use repo::Core;
use std::alloc::{AllocError, Global};
use std::io::{Read, Write};
use store::{LentShards, TableKey, empty_shards};

/// Reads lines `KEY HEX`, or `KEY JSON` in that form, puts each record under its key into one repository, all in one batch
/// under a stamp, and writes the repository as one file (CARv1; AT Protocol repository v3, unsigned commits). Without lines
/// there is no batch.
///
/// Lines end at LF or CR LF, and a last line needs no end. An empty line is passed over, and counted. The key is all before
/// the first space, and the record stands after it: its bytes in hexadecimal, in either case, or its JSON. A line of another
/// shape is `LineFault::BadLine`, and JSON that is no record `LineFault::BadJson`; the puts before it are tried first, and
/// where one is refused its own line is named.
///
/// The stamp is tested before the input is read, all of the input is read before a line is judged, and the file is made
/// before a byte is written: only at `CommandFault::Unwritten` a beginning of it was. The faults of the text are
/// `TextFault::BadDid` and `TextFault::BadRev`, which come first, `TextFault::Line` with `LineFault::BadLine`,
/// `LineFault::BadJson` or the refusal of the put, `TextFault::NoMemory` and `TextFault::ReadFailed`.
pub fn car_text<D: Digest, R: Read, W: Write>(
    alloc: Global,
    form: Form,
    stamp: &Stamp,
    input: &mut R,
    out: &mut W,
) -> Result<(), CommandFault<TextFault<D>>>
    ensures outcome { IsOutcome (car_text_of D.digest_of form (stamp_of stamp.now))
        (R.remaining input.old) (W.contents out.old) (W.contents out.new) result }

    // Where a line is refused, it is so by a test, by a clash that is shown, or by a store of which a
    // shard was full.
    ensures refused { HasReason (IsRefusedIn D.digest_of form (stamp_of stamp.now))
        (R.remaining input.old) result }

    // A faulty stamp is told, before the input is read.
    ensures told { IsErr (stamp_check (stamp_of stamp.now)) → TellsFaultyWord result }
    ensures unread { IsErr (stamp_check (stamp_of stamp.now)) → input.new ≡ input.old }
{
    write_made(car_made(alloc, form, stamp, input), out)
}

/// The file of the lines of the input.
fn car_made<D: Digest, R: Read>(
    alloc: Global,
    form: Form,
    stamp: &Stamp,
    input: &mut R,
) -> Result<Vec<u8>, TextFault<D>>
    ensures made { IsMade (λ bytes. bytes.items) (car_text_of D.digest_of form (stamp_of stamp.now))
        (R.remaining input.old) result }
    ensures refused { IfErr result (λ e. IfSome (R.remaining input.old) (λ xs.
        IsRefusedIn D.digest_of form (stamp_of stamp.now) xs e)) }
    ensures told { IsErr (stamp_check (stamp_of stamp.now)) → TellsWords result }
    ensures unread { IsErr (stamp_check (stamp_of stamp.now)) → input.new ≡ input.old }
{
    check_stamp::<D>(stamp)?;
    let puts = read_puts(alloc, form, input)?;
    car_of_puts(alloc, stamp, puts)
}

/// Tests a stamp: whose repository it is, and then the revision.
pub(crate) fn check_stamp<D: Digest>(stamp: &Stamp) -> Result<(), TextFault<D>>
    ensures check { Gives (λ ok. ok) text_fault_of result (stamp_check (stamp_of stamp.now)) }
    ensures words { IfErr result (λ e. is_of_words e ≡ true) }
    ensures refused { (form : Form) (xs : List ℕ) →
        IfErr result (IsRefusedIn D.digest_of form (stamp_of stamp.now) xs) }
{
    if !is_did(&stamp.did) {
        return Err(TextFault::BadDid);
    }
    if !is_tid(&stamp.rev) {
        return Err(TextFault::BadRev);
    }
    Ok(())
}

/// The file of the repository of these puts.
fn car_of_puts<D: Digest>(
    alloc: Global,
    stamp: &Stamp,
    puts: Puts<Global>,
) -> Result<Vec<u8>, TextFault<D>>
    ensures file { Gives (λ bytes. bytes.items) text_fault_of result
        (car_of_given D.digest_of (stamp_of stamp.now) (given_of puts)) }
    ensures refused { IfErr result (IsRefusedLine D.digest_of no_writes (stamp_of stamp.now)
        (given_of puts) (WasFull D.digest_of)) }
{
    let mut shards = empty_shards(alloc, MOST_BLOCKS, TableKey::known());
    let mut store = LentShards::<D, MOST_BLOCKS, Global>::new(&mut shards);
    let core = filled::<D, LentShards<'_, D, MOST_BLOCKS, Global>>(alloc, &mut store, stamp, puts)?;
    let file = car_in_memory(alloc, &core);
    core.end(&mut store);
    Ok(file?)
}

/// The file of a repository, in memory.
fn car_in_memory<D: Digest>(alloc: Global, core: &Core<D, 2>) -> Result<Vec<u8>, AllocError>
    ensures { IfOk result (λ bytes. bytes.items ≡ state_car D.digest_of 2 core.now) }
{
    let mut file = ToMemory::new(alloc);
    match export::car(alloc, core, &mut file) {
        Ok(_) => Ok(file.into_bytes()),
        Err(_) => Err(AllocError),
    }
}
