//! Records, keys, identifiers and single nodes, with no state.

ghost use Rattle.std.specs.Prelude.{◌≡◌, length, true, false, nat_eq, Ok};
ghost use Rattle.sha2.specs.Sha256.{sha256};
ghost use Rattle.spec.specs.Cid.{cid as cid_of, text as text_of, cid_of_text, is_own_cid};
ghost use Rattle.spec.specs.Layer.{layer as layer_of};
ghost use Rattle.spec.specs.DagCbor.{read as record_of};
ghost use Rattle.spec.specs.Keys.{is_repository_key as is_repository_key_of};
ghost use Rattle.spec.specs.NodeFormat.{is_key as is_key_of, read_node};
ghost use Rattle.spec.specs.Writes.{test_when};
ghost use Rattle.batches.specs.Values.{write_of};
ghost use Rattle.tizulgech.specs.Numbers.{test_answer, write_answer, write_at, IsCidRead, IsRecordAnswer, IsStepIn};

use crate::codes::{
    BAD, BAD_NODE, NO_MEMORY, code_of_fault, code_of_record, tell_cid, write_of_kind,
};
use batches::{Write, test_write};
use buffers::{DONE, cid_in};
use cid::{Cid, Sha256};
use node::{NodeView, Place};
use std::alloc::Global;

/// The number of this interface: one more whenever a call is changed or taken away.
const VERSION: u64 = 4;

/// The number of this interface.
#[unsafe(no_mangle)]
pub extern "C" fn tizulgech_version() -> u64
    ensures { result ≡ 4 }
{
    VERSION
}

/// 0 where the bytes are one DAG-CBOR value, else the number of the first fault, or 255 for want of memory.
#[unsafe(no_mangle)]
#[tactic(auto, using(crate::proofs::Told::record_told))]
pub extern "C" fn tizulgech_record_fault(alloc: Global, bytes: &[u8]) -> u8
    ensures { IsRecordAnswer result (record_of bytes.now) }
{
    let read = dagcbor::read(alloc, bytes);
    code_of_record(&read)
}

/// 0 where a write passes its test, by whether there is a record under its key; else the number of the first fault: 20 for its
/// key, 22 and 1 to 13 and 21 for its record, 23 for a create of a key that is there, 24 for an update or a delete of one that
/// isn't. 252 for a kind that isn't 0 to 3, a put, a create, an update, a delete; 255 for want of memory.
#[unsafe(no_mangle)]
pub extern "C" fn tizulgech_write_fault(
    alloc: Global,
    kind: u8,
    there: bool,
    key: &[u8],
    bytes: &[u8],
) -> u8
    ensures { nat_eq result 255 ≡ false
        → result ≡ write_answer there (write_at kind key.now bytes.now) }
{
    match write_of_kind(alloc, kind, key, bytes) {
        Ok(Some(write)) => write_tested(there, &write),
        Ok(None) => BAD,
        Err(_) => NO_MEMORY,
    }
}

/// The same of a write.
#[tactic(auto, using(crate::proofs::Told::write_told))]
fn write_tested(there: bool, write: &Write) -> u8
    ensures { nat_eq result 255 ≡ false
        → result ≡ test_answer (test_when there (write_of write.now)) }
{
    match test_write::<Sha256, _>(there, write) {
        Ok(()) => DONE,
        Err(fault) => code_of_fault(&fault),
    }
}

/// The layer of a key.
#[unsafe(no_mangle)]
pub extern "C" fn tizulgech_layer(key: &[u8]) -> u16
    ensures { result ≡ layer_of sha256 2 key.now }
{
    cid::layer::<Sha256, 2>(key)
}

/// Whether a tree may have the key: 1 to 1,024 bytes.
#[unsafe(no_mangle)]
pub extern "C" fn tizulgech_is_key(key: &[u8]) -> bool
    ensures { result ≡ is_key_of key.now }
{
    node::is_key(key)
}

/// Whether a repository may have a record under the key: a collection, a slash and a record key.
#[unsafe(no_mangle)]
pub extern "C" fn tizulgech_is_repository_key(key: &[u8]) -> bool
    ensures { result ≡ is_repository_key_of key.now }
{
    batches::is_repository_key(key)
}

/// The CID of a block.
#[unsafe(no_mangle)]
pub extern "C" fn tizulgech_cid(block: &[u8], out: &mut [u8])
    requires { length out.old ≡ 36 }
    ensures { out.new ≡ cid_of sha256 block.now }
{
    out.copy_from_slice(Cid::of::<Sha256>(block).as_bytes());
}

/// The text of a CID; false where the bytes are none of this profile, and then nothing is written.
#[unsafe(no_mangle)]
pub extern "C" fn tizulgech_cid_text(cid: &[u8], out: &mut [u8]) -> bool
    requires room { length out.old ≡ 59 }
    ensures own { result ≡ is_own_cid cid.now }
    ensures text { result ≡ true → out.new ≡ text_of cid.now }
    ensures kept { result ≡ false → out.new ≡ out.old }
{
    match cid_in(cid) {
        Some(cid) => {
            out.copy_from_slice(&cid.text());
            true
        }
        None => false,
    }
}

/// 0 and the 36 bytes of the CID with this text, or the number of the first fault, from 1 on.
#[unsafe(no_mangle)]
#[tactic(auto, using(crate::proofs::Told::cid_told))]
pub extern "C" fn tizulgech_cid_from_text(text: &[u8], out: &mut [u8]) -> u8
    requires room { length out.old ≡ 36 }
    ensures read { IsCidRead result out.new (cid_of_text text.now) }
    ensures kept { ¬ (result ≡ 0) → out.new ≡ out.old }
{
    let read = Cid::from_text(text);
    tell_cid(&read, out)
}

/// Where a key stands in the node of these bytes: 0 and its value, 1 and the CID of the node below which it is, 24 where
/// the node has no subtree there, and 30 where the bytes are no node. A host goes from a root down by it, and takes no memory.
#[unsafe(no_mangle)]
pub extern "C" fn tizulgech_step(node: &[u8], key: &[u8], out: &mut [u8]) -> u8
    requires room { length out.old ≡ 36 }
    ensures step { IsStepIn result out.new key.now (read_node node.now) }
    ensures kept { ¬ (result ≡ 0) → ¬ (result ≡ 1) → out.new ≡ out.old }
{
    let Ok(view) = NodeView::parse(node) else {
        return BAD_NODE;
    };
    match view.find(key) {
        Place::Here(entry) => {
            out.copy_from_slice(entry.value.as_bytes());
            0
        }
        Place::Below(link) => {
            out.copy_from_slice(link.as_bytes());
            1
        }
        Place::Gap => 24,
    }
}
