//! The command `car` with a signature: the repository that the lines of its input leave, as the file that a server serves.
ghost use Rattle.std.specs.Prelude.{◌≡◌, ◌⊎◌, List, ℕ, true, option_map, IfErr, IfOk, IfSome, IsErr};
ghost use Rattle.spec.specs.Reading.{Gives};
ghost use Rattle.batches.specs.Values.{stamp_of};
ghost use Rattle.export_laws.specs.SignedCars.{state_signed_car};
ghost use Rattle.record_forms.specs.declared.form.Form.{Form};
ghost use Rattle.repository_commands.specs.Faults.{text_fault_of, is_of_words, EndsEarly, EndsWords};
ghost use Rattle.repository_commands.specs.Outcomes.{HasReason, IsMade, IsOutcome};
ghost use Rattle.repository_commands.specs.Refusals.{IsRefusedIn, IsRefusedLine};
ghost use Rattle.repository_commands.specs.Shards.{WasFull};
ghost use Rattle.repository_commands.specs.Texts.{no_writes, signed_car_of_given, signed_car_text as signed_car_text_of, signing_check};
ghost use Rattle.repository_commands.specs.Views.{given_of};
ghost use Rattle.repository_commands.specs.declared.fault.TextFault.TheVariants as errors;

use crate::car::check_stamp;
use crate::fault::TextFault;
use crate::filling::{MOST_BLOCKS, filled};
use crate::puts::{Puts, read_puts};
use batches::Stamp;
use cid::Digest;
use console::{CommandFault, bytes_of_hex, write_made};
use export::ToMemory;
use record_forms::Form;
use repo::Core;
use std::alloc::{AllocError, Global};
use std::io::{Read, Write};
use store::{LentShards, TableKey, empty_shards};

/// Reads lines `KEY HEX`, or `KEY JSON` in that form, puts each record under its key into one repository, all in one batch
/// under a stamp, and writes the repository as the file that a server serves (CARv1; AT Protocol repository v3, commit
/// objects): its root is the batch's commit with this signature, which is a word in hexadecimal. Whose signature it is isn't
/// tested.
///
/// The lines are those of `car_text`. The stamp and then the signature are tested before the input is read, all of the input is
/// read before a line is judged, and the file is made before a byte is written: only at `CommandFault::Unwritten` a beginning
/// of it was. The faults of the text are `TextFault::BadDid`, `TextFault::BadRev` and `TextFault::BadSig`, which come first,
/// `TextFault::Line` as of `car_text`, `TextFault::NothingToSign` where no line puts a record, `TextFault::NoMemory` and
/// `TextFault::ReadFailed`.
pub fn signed_car_text<D: Digest, R: Read, W: Write>(
    alloc: Global,
    form: Form,
    stamp: &Stamp,
    sig: &[u8],
    input: &mut R,
    out: &mut W,
) -> Result<(), CommandFault<TextFault<D>>>
    ensures outcome { IsOutcome (signed_car_text_of D.digest_of form (stamp_of stamp.now) sig.now)
        (R.remaining input.old) (W.contents out.old) (W.contents out.new) result }

    // Where a line is refused, it is so by a test, by a clash that is shown, or by a store of which a
    // shard was full.
    ensures refused { HasReason (IsRefusedIn D.digest_of form (stamp_of stamp.now))
        (R.remaining input.old) result }

    // A faulty stamp or signature is told, or memory was refused to it, before the input is read.
    ensures told { IsErr (signing_check (stamp_of stamp.now) sig.now) → EndsEarly result }
    ensures unread { IsErr (signing_check (stamp_of stamp.now) sig.now)
        → input.new ≡ input.old }
{
    write_made(signed_car_made(alloc, form, stamp, sig, input), out)
}

/// The file of the lines of the input.
fn signed_car_made<D: Digest, R: Read>(
    alloc: Global,
    form: Form,
    stamp: &Stamp,
    sig: &[u8],
    input: &mut R,
) -> Result<Vec<u8>, TextFault<D>>
    ensures made { IsMade (λ bytes. bytes.items)
        (signed_car_text_of D.digest_of form (stamp_of stamp.now) sig.now)
        (R.remaining input.old) result }
    ensures refused { IfErr result (λ e. IfSome (R.remaining input.old) (λ xs.
        IsRefusedIn D.digest_of form (stamp_of stamp.now) xs e)) }
    ensures told { IsErr (signing_check (stamp_of stamp.now) sig.now) → EndsWords result }
    ensures unread { IsErr (signing_check (stamp_of stamp.now) sig.now)
        → input.new ≡ input.old }
{
    let signature = signature_in::<D>(alloc, stamp, sig)?;
    let puts = read_puts(alloc, form, input)?;
    signed_car_of_puts(alloc, stamp, &signature, puts)
}

/// Tests a stamp, and then reads the signature of a word in hexadecimal.
fn signature_in<D: Digest>(
    alloc: Global,
    stamp: &Stamp,
    sig: &[u8],
) -> Result<Vec<u8>, TextFault<D>>
    ensures check { Gives (λ bytes. bytes.items) text_fault_of result
        (signing_check (stamp_of stamp.now) sig.now) }
    ensures words { IfErr result (λ e. (is_of_words e ≡ true) ⊎ (e ≡ errors.NoMemory)) }
    ensures refused { (form : Form) (xs : List ℕ) →
        IfErr result (IsRefusedIn D.digest_of form (stamp_of stamp.now) xs) }
{
    check_stamp::<D>(stamp)?;
    match bytes_of_hex(alloc, sig)? {
        Some(signature) => Ok(signature),
        None => Err(TextFault::BadSig),
    }
}

/// The file of the repository of these puts, with its commit signed so.
fn signed_car_of_puts<D: Digest>(
    alloc: Global,
    stamp: &Stamp,
    signature: &[u8],
    puts: Puts<Global>,
) -> Result<Vec<u8>, TextFault<D>>
    ensures file { Gives (λ bytes. bytes.items) text_fault_of result
        (signed_car_of_given D.digest_of (stamp_of stamp.now) signature.now (given_of puts)) }
    ensures refused { IfErr result (IsRefusedLine D.digest_of no_writes (stamp_of stamp.now)
        (given_of puts) (WasFull D.digest_of)) }
{
    let mut shards = empty_shards(alloc, MOST_BLOCKS, TableKey::known());
    let mut store = LentShards::<D, MOST_BLOCKS, Global>::new(&mut shards);
    let core = filled::<D, LentShards<'_, D, MOST_BLOCKS, Global>>(alloc, &mut store, stamp, puts)?;
    let file = signed_in_memory(alloc, &core, signature);
    core.end(&mut store);
    match file? {
        Some(bytes) => Ok(bytes),
        None => Err(TextFault::NothingToSign),
    }
}

/// The file of a repository with its commit signed so, in memory; or `None` where it has no commit.
fn signed_in_memory<D: Digest>(
    alloc: Global,
    core: &Core<D, 2>,
    signature: &[u8],
) -> Result<Option<Vec<u8>>, AllocError>
    ensures { IfOk result (λ file. option_map (λ bytes. bytes.items) file
        ≡ state_signed_car D.digest_of 2 core.now signature.now) }
{
    let mut file = ToMemory::new(alloc);
    match export::signed_car(alloc, core, signature, &mut file) {
        Ok(Some(_)) => Ok(Some(file.into_bytes())),
        Ok(None) => Ok(None),
        Err(_) => Err(AllocError),
    }
}
