//! A repository that is filled with the puts of an input.
ghost use Rattle.std.specs.Prelude.{◌≡◌, ◌<◌, true, option_map, slice_index, string_bytes, IfErr, IfOk, IfSome, OnOk};
ghost use Rattle.spec.specs.Reading.{Gives};
ghost use Rattle.batches.specs.Values.{stamp_of, writes_of};
ghost use Rattle.store.specs.Stores.{IsStore};
ghost use Rattle.record_forms.specs.Views.{json_fault_of, word_fault_of};
ghost use Rattle.repository_commands.specs.Faults.{text_fault_of, of_word, BadJson, Line};
ghost use Rattle.repository_commands.specs.Refusals.{IsRefusedLine, is_bad_line, refused as refused_by};
ghost use Rattle.repository_commands.specs.Texts.{no_writes, state_of, state_of_given, unless_stopped, writes_check};
ghost use Rattle.repository_commands.specs.Views.{given_of, stop_of};

use crate::fault::{LineFault, TextFault};
use crate::puts::{Puts, Stop};
use batches::{RepoFault, Stamp};
use block::Block;
use cid::Digest;
use record_forms::WordFault;
use record_json::JsonFaultKind;
use repo::Core;
use std::alloc::{AllocError, Global};
use std::sync::Arc;
use store::{BlockStore, Hold, StoreFault};

/// How many writes the repository may have.
pub(crate) const MOST_WRITES: usize = 1_048_576;

/// How many blocks a shard of its store may have.
pub const MOST_BLOCKS: usize = 1_048_576;

/// The repository that has all puts as one batch under a stamp, and none where there are no puts; or the first line at
/// fault. The puts before a line that is none are tried first. At `Err` no block is held. The puts are let go: the repository
/// has copies of its own.
pub fn filled<D: Digest, S: BlockStore<Arc<Block<D>>, Hold<D>, StoreFault<D>>>(
    alloc: Global,
    store: &mut S,
    stamp: &Stamp,
    puts: Puts<Global>,
) -> Result<Core<D, 2>, TextFault<D>>
    requires store { IsStore D.digest_of S.BlockStore }
    ensures state { Gives (λ core. core) text_fault_of result
        (state_of_given no_writes (stamp_of stamp.now) (given_of puts)) }
    ensures refused { IfErr result (IsRefusedLine D.digest_of no_writes (stamp_of stamp.now)
        (given_of puts) (0 < S.fulls store.new)) }
{
    let mut core = empty::<D, S>(alloc, store)?;
    match apply_puts::<D, S>(alloc, store, &mut core, stamp, &puts) {
        Ok(()) => Ok(core),
        Err(fault) => {
            core.end(store);
            Err(fault)
        }
    }
}

/// A repository without writes.
///
/// Its one block has room in a store without blocks, and there is no other under its CID: so what may be refused is
/// memory.
fn empty<D: Digest, S: BlockStore<Arc<Block<D>>, Hold<D>, StoreFault<D>>>(
    alloc: Global,
    store: &mut S,
) -> Result<Core<D, 2>, AllocError>
    requires store { IsStore D.digest_of S.BlockStore }
    ensures { IfOk result (λ core. core ≡ no_writes) }
{
    match Core::open(alloc, store, 0, MOST_WRITES) {
        Ok(core) => Ok(core),
        Err(_) => Err(AllocError),
    }
}

/// Applies the writes of some lines to a repository as one batch, and none where there are no writes; or names the first line
/// at fault.
#[tactic(auto, unfolding(crate::specs::Texts::state_of_given))]
pub fn apply_puts<D: Digest, S: BlockStore<Arc<Block<D>>, Hold<D>, StoreFault<D>>>(
    alloc: Global,
    store: &mut S,
    core: &mut Core<D, 2>,
    stamp: &Stamp,
    puts: &Puts<Global>,
) -> Result<(), TextFault<D>>
    requires store { IsStore D.digest_of S.BlockStore }
    ensures state { Gives (λ _. core.new) text_fault_of result
        (state_of_given core.old (stamp_of stamp.now) (given_of puts.now)) }
    ensures refused { IfErr result (IsRefusedLine D.digest_of core.old (stamp_of stamp.now)
        (given_of puts.now) (0 < S.fulls store.new)) }
{
    apply_writes::<D, S>(alloc, store, core, stamp, puts)?;
    check_end::<D>(&puts.stop)
}

/// Applies the writes before the line that is none, if there is one, or names the line of the first that is refused.
fn apply_writes<D: Digest, S: BlockStore<Arc<Block<D>>, Hold<D>, StoreFault<D>>>(
    alloc: Global,
    store: &mut S,
    core: &mut Core<D, 2>,
    stamp: &Stamp,
    puts: &Puts<Global>,
) -> Result<(), TextFault<D>>
    requires store { IsStore D.digest_of S.BlockStore }
    ensures passes { Gives (λ ok. ok) text_fault_of result
        (writes_check core.old (given_of puts.now)) }
    ensures state { OnOk result (core.new
        ≡ state_of core.old (stamp_of stamp.now) (writes_of puts.now.writes.items)) }
    ensures refused { IfErr result (IsRefusedLine D.digest_of core.old (stamp_of stamp.now)
        (given_of puts.now) (0 < S.fulls store.new)) }
{
    if puts.writes.is_empty() {
        return Ok(());
    }
    match core.apply(alloc, store, stamp, &puts.writes) {
        Ok(_) => Ok(()),
        Err((place, fault)) => Err(refused(number_at(&puts.numbers, place), fault)),
    }
}

/// The number of the line at a place, or 0 where there is none.
pub fn number_at(numbers: &[u64], place: usize) -> u64
    ensures { result ≡ slice_index numbers.now place }
{
    numbers.get(place).copied().unwrap_or(0)
}

/// Whether each line was a write.
fn check_end<D: Digest>(stop: &Option<Stop<Global>>) -> Result<(), TextFault<D>>
    ensures check { Gives (λ ok. ok) text_fault_of result
        (unless_stopped (option_map stop_of stop.now)) }
    ensures line { IfErr result (λ e. is_bad_line e ≡ true) }
{
    match stop {
        None => Ok(()),
        Some(stop) => Err(fault_at(stop.number, &stop.fault)),
    }
}

/// The fault of a line with a word that is no record.
fn fault_at<D: Digest>(number: u64, fault: &WordFault<Global>) -> TextFault<D>
    ensures fault { IfSome (text_fault_of result)
        (λ f. f ≡ Line number (of_word (word_fault_of fault.now))) }
    ensures line { is_bad_line result ≡ true }
{
    match fault {
        WordFault::BadWord => TextFault::Line {
            number,
            fault: LineFault::BadLine,
        },
        WordFault::Json { kind, path } => bad_json(number, *kind, path),
    }
}

/// The fault of a line with JSON that is no record; or that there is no memory for the way to it.
fn bad_json<D: Digest>(number: u64, kind: JsonFaultKind, path: &String<Global>) -> TextFault<D>
    ensures fault { IfSome (text_fault_of result)
        (λ f. f ≡ Line number (BadJson (json_fault_of kind (string_bytes path.now)))) }
    ensures line { is_bad_line result ≡ true }
{
    match path.clone() {
        Ok(path) => TextFault::Line {
            number,
            fault: LineFault::BadJson { kind, path },
        },
        Err(_) => TextFault::NoMemory,
    }
}

/// The fault of a line that is refused; want of memory has no line.
fn refused<D: Digest>(number: u64, fault: RepoFault<D>) -> TextFault<D>
    ensures { result ≡ refused_by number fault }
{
    match fault {
        RepoFault::NoMemory => TextFault::NoMemory,
        fault => {
            let fault = LineFault::Refused(fault);
            TextFault::Line { number, fault }
        }
    }
}
