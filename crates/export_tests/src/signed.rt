//! Files with a signed commit, beside those without, and outputs that fail.

ghost use Rattle.std.specs.Prelude.{◌≤◌};

use crate::fixtures::{Checked, FIVE_NODES, ONE_RECORD_TWICE, end, file_of, opened, takes};
use cid::digests::Toy;
use cid::{Cid, Digest};
use export::{ExportFault, ToMemory, car, signed_car};
use repo::Core;
use std::alloc::{Allocator, Global};
use store::{Shard, TableKey};

/// A signature of 64 bytes.
pub(crate) const SIGNATURE: &[u8] = &[0x5a; 64];

/// How many bytes of a file the header and the section of the unsigned commit are, of 96 bytes.
const UNSIGNED: usize = 59 + 2 + 36 + 96;

/// And how many with the signed commit, which has the key `sig`, two bytes for a length and the signature more.
const SIGNED: usize = UNSIGNED + 4 + 2 + 64;

/// The commit as it stands in the file, up to its signature and from it on up to the root.
const FRONT: &[u8] = b"\xa6\x63did\x6bdid:web:a.b\x63rev\x6d3jzfcijpj2z2a\x63sig\x58\x40";

const BEHIND: &[u8] = b"\x64data\xd8\x2a\x58\x25\x00";

/// The bytes of a core's signed file, where it is answered with their number.
fn signed_file<D: Digest, const B: u8, A: Allocator + Clone>(
    global: Global,
    alloc: A,
    core: &Core<D, B, A>,
) -> Option<Vec<u8>>
    requires { 1 ≤ B }
{
    let mut out = ToMemory::new(global);
    match signed_car(alloc, core, SIGNATURE, &mut out) {
        Ok(Some(length)) if length == out.bytes().len() as u64 => Some(out.into_bytes()),
        _ => None,
    }
}

/// Whether this is the commit of a tree's root with the signature.
fn is_commit(commit: &[u8], root: &Cid) -> bool {
    let Some(rest) = commit.strip_prefix(FRONT) else {
        return false;
    };
    let Some(rest) = rest.strip_prefix(SIGNATURE) else {
        return false;
    };
    match rest.strip_prefix(BEHIND) {
        Some(rest) => rest.starts_with(root.as_bytes())
            && rest.ends_with(b"\x64prev\xf6\x67version\x03"),
        None => false,
    }
}

/// Whether a file's header names the commit behind it, which has its section first, and the rest is that of another file.
fn is_file(file: &[u8], unsigned: &[u8], root: &Cid) -> bool {
    let Some((front, tail)) = file.split_at_checked(SIGNED) else {
        return false;
    };
    let (Some(named), Some(section), Some(commit)) = (
        front.get(14..50),
        front.get(59..97),
        front.get(97..),
    ) else {
        return false;
    };
    let cid = Cid::of::<Toy>(commit);
    named == cid.as_bytes().as_slice()
        && section.starts_with(b"\xca\x01")
        && section.ends_with(cid.as_bytes())
        && is_commit(commit, root)
        && unsigned.get(UNSIGNED..) == Some(tail)
}

/// What is answered where the output takes so many bytes a call and in all, and whether they were a beginning of the file.
fn answer(
    alloc: Global,
    core: &Core<Toy, 2>,
    file: &[u8],
    a_call: usize,
    in_all: usize,
) -> (Result<Option<u64>, ExportFault>, bool) {
    let mut out = Checked::new(file, a_call, in_all);
    let answer = signed_car(alloc, core, SIGNATURE, &mut out);
    (answer, out.left() == file.len().checked_sub(in_all))
}

/// Whether the output is told to fail after each number of bytes, and does.
fn fails_at_each(alloc: Global, core: &Core<Toy, 2>, file: &[u8]) -> bool {
    let length = file.len();
    for in_all in 0..length {
        if answer(alloc, core, file, 1000, in_all) != (Err(ExportFault::DeviceFault), true) {
            return false;
        }
    }
    let whole = Ok(Some(length as u64));
    answer(alloc, core, file, 1000, length) == (whole, true)
        && answer(alloc, core, file, 1, length) == (whole, true)
}

/// Whether the file of five nodes is as it is to be, over outputs of each kind.
fn is_written(alloc: Global, core: &Core<Toy, 2>) -> bool {
    match (signed_file(alloc, alloc, core), file_of(alloc, alloc, core)) {
        (Some(file), Some(unsigned)) => {
            file.len() == 938
                && is_file(&file, &unsigned, &core.root())
                && fails_at_each(alloc, core, &file)
        }
        _ => false,
    }
}

#[test]
fn five_nodes_and_outputs_that_fail(rt: HostRuntime) {
    let mut shard = Shard::new(rt.alloc(), 20, TableKey::known());
    let mut core = opened(&rt, rt.alloc(), &mut shard);
    let taken = takes(rt.alloc(), &mut shard, &mut core, FIVE_NODES);
    let right = is_written(rt.alloc(), &core);
    end(&mut shard, core);
    assert!(rt; taken && right);
}

/// The commit of the repository is left as it is: its own file is the unsigned one, before and after.
#[test]
fn the_unsigned_file_is_as_before(rt: HostRuntime) {
    let alloc = rt.alloc();
    let mut shard = Shard::new(alloc, 20, TableKey::known());
    let mut core = opened::<_, Toy, 2, _>(&rt, alloc, &mut shard);
    let taken = takes(alloc, &mut shard, &mut core, ONE_RECORD_TWICE);
    let before = file_of(alloc, alloc, &core).expect(&rt, "a file");
    let signed = signed_file(alloc, alloc, &core).expect(&rt, "a signed file");
    let mut out = ToMemory::new(alloc);
    let again = car(alloc, &core, &mut out);
    let right = is_file(&signed, &before, &core.root());
    end(&mut shard, core);
    assert!(rt;
        taken && right && again == Ok(before.len() as u64) && out.bytes() == before.as_slice()
    );
}
