//! CAR files of small repositories.

ghost use Rattle.std.specs.Prelude.{◌≤◌};

use crate::fixtures::{
    Checked, FIVE_NODES, ONE, ONE_RECORD_TWICE, Record, THREE, TWO, end, file_of, opened, takes,
};
use cid::digests::Toy;
use cid::{Cid, Sha256};
use export::{ExportFault, ToMemory, car};
use repo::Core;
use std::alloc::{AllocError, Global};
use std::process::Abort;
use store::{Shard, TableKey};

/// The CAR of the repository without records: a header of 59 bytes, and the section of the node without entries. The digest
/// is SHA-256 of the node, by another program.
const EMPTY: &[u8] = b"\x3a\xa2\x65roots\x81\xd8\x2a\x58\x25\x00\
    \x01\x71\x12\x20\x9d\xfe\xfe\x61\xdd\x76\xea\x3d\xca\xe5\x02\x38\x80\xb0\x83\x79\
    \xd5\x7a\xdf\x20\x48\x2d\x6f\xdb\xe2\x75\x92\x89\xf6\x47\x67\x7b\
    \x67version\x01\
    \x2b\x01\x71\x12\x20\x9d\xfe\xfe\x61\xdd\x76\xea\x3d\xca\xe5\x02\x38\x80\xb0\x83\x79\
    \xd5\x7a\xdf\x20\x48\x2d\x6f\xdb\xe2\x75\x92\x89\xf6\x47\x67\x7b\
    \xa2\x61e\x80\x61l\xf6";

#[test]
fn the_repository_without_records(rt: HostRuntime) {
    let mut shard = Shard::<Sha256>::new(rt.alloc(), 9, TableKey::known());
    let core = opened::<_, _, 2, _>(&rt, rt.alloc(), &mut shard);
    let file = file_of(rt.alloc(), rt.alloc(), &core);
    end(&mut shard, core);
    assert!(rt; EMPTY.len() == 103 && file.is_some_and(|file| file.as_slice() == EMPTY));
}

/// Whether the file stands behind another one where the output goes on behind that.
fn is_behind_another(alloc: Global, core: &Core<Sha256, 2>) -> bool {
    let Some(file) = file_of(alloc, alloc, core) else {
        return false;
    };
    let first = file.len();
    let mut out = ToMemory::over(file);
    let answer = car(alloc, core, &mut out);
    let Some((one, other)) = out.bytes().split_at_checked(first) else {
        return false;
    };
    answer == Ok(first as u64) && one == other
}

#[test]
fn a_file_behind_another(rt: HostRuntime) {
    let mut shard = Shard::<Sha256>::new(rt.alloc(), 9, TableKey::known());
    let core = opened::<_, _, 2, _>(&rt, rt.alloc(), &mut shard);
    let is_behind = is_behind_another(rt.alloc(), &core);
    end(&mut shard, core);
    assert!(rt; is_behind);
}

/// The number at the front of a section, of one or two bytes, and what is behind it.
fn length_of(file: &[u8]) -> Option<(usize, &[u8])> {
    match file {
        [low, rest @ ..] if *low < 128 => Some((usize::from(*low), rest)),
        [low, high, rest @ ..] if *high < 128 => {
            Some((usize::from(*low) - 128 + usize::from(*high) * 128, rest))
        }
        _ => None,
    }
}

/// The data of the section in front, which stand behind their CID, and what is behind the section.
fn section_of(file: &[u8]) -> Option<(&[u8], &[u8])> {
    let (length, rest) = length_of(file)?;
    let (section, rest) = rest.split_at_checked(length)?;
    let (cid, data) = section.split_at_checked(36)?;
    if Cid::of::<Toy>(data).as_bytes().as_slice() == cid {
        Some((data, rest))
    } else {
        None
    }
}

/// How long the data of a section are, and how they end.
type Section = (usize, &'static [u8]);

/// The sections of five nodes.
const SECTIONS: &[Section] = &[
    (96, b""),
    (144, b""),
    (47, b""),
    (64, b""),
    (4, ONE),
    (4, TWO),
    (47, b""),
    (64, b""),
    (4, THREE),
];

/// Whether these are those sections and no others.
fn are_sections(file: &[u8], sections: &[Section]) -> bool {
    let mut rest = file;
    for (length, end) in sections {
        let Some((data, behind)) = section_of(rest) else {
            return false;
        };
        if data.len() != *length || !data.ends_with(end) {
            return false;
        }
        rest = behind;
    }
    rest.is_empty()
}

/// Whether a header of 59 bytes names this root.
fn names(header: &[u8], root: Option<Cid>) -> bool {
    match (header.get(14..50), root) {
        (Some(cid), Some(root)) => cid == root.as_bytes().as_slice(),
        _ => false,
    }
}

/// Whether this is a file of so many bytes with this root and these sections, the first of which has 132 bytes.
fn is_file(file: &[u8], root: Option<Cid>, size: usize, sections: &[Section]) -> bool {
    let Some((header, behind)) = file.split_at_checked(59) else {
        return false;
    };
    file.len() == size
        && names(header, root)
        && behind.starts_with(b"\x84\x01")
        && are_sections(behind, sections)
}

/// What is answered where the output takes so many bytes a call and in all, and whether they were a beginning of the file.
fn answer(
    alloc: Global,
    core: &Core<Toy, 2>,
    file: &[u8],
    a_call: usize,
    in_all: usize,
) -> (Result<u64, ExportFault>, bool) {
    let mut out = Checked::new(file, a_call, in_all);
    let answer = car(alloc, core, &mut out);
    (answer, out.left() == file.len().checked_sub(in_all))
}

/// Whether the output is told to fail after each number of bytes, and does.
fn fails_at_each(alloc: Global, core: &Core<Toy, 2>, file: &[u8]) -> bool {
    for in_all in 0..868usize {
        if answer(alloc, core, file, 1000, in_all) != (Err(ExportFault::DeviceFault), true) {
            return false;
        }
    }
    answer(alloc, core, file, 1000, 868) == (Ok(868), true)
        && answer(alloc, core, file, 1, 868) == (Ok(868), true)
}

/// Whether the CAR of five nodes is as it is to be, over outputs of each kind.
fn is_written(alloc: Global, core: &Core<Toy, 2>) -> bool {
    let Some(file) = file_of(alloc, alloc, core) else {
        return false;
    };
    is_file(&file, core.commit(), 868, SECTIONS) && fails_at_each(alloc, core, &file)
}

#[test]
fn five_nodes_and_outputs_that_fail(rt: HostRuntime) {
    let mut shard = Shard::new(rt.alloc(), 20, TableKey::known());
    let mut core = opened(&rt, rt.alloc(), &mut shard);
    let taken = takes(rt.alloc(), &mut shard, &mut core, FIVE_NODES);
    assert!(rt; taken && is_written(rt.alloc(), &core));
    end(&mut shard, core);
}

/// Whether these records have this file.
fn have_file<R: Abort, const B: u8>(
    rt: &R,
    alloc: Global,
    records: &[Record<'_>],
    size: usize,
    sections: &[Section],
) -> bool
    requires least { 1 ≤ B }
    requires most { B ≤ 8 }
{
    let mut shard = Shard::new(alloc, 20, TableKey::known());
    let mut core = opened::<R, Toy, B, Global>(rt, alloc, &mut shard);
    let taken = takes(alloc, &mut shard, &mut core, records);
    let file = file_of(alloc, alloc, &core);
    let root = core.commit();
    end(&mut shard, core);
    match file {
        Some(file) => taken && is_file(&file, root, size, sections),
        None => false,
    }
}

/// The records of five nodes where a layer is eight zero bits: one node of 174 bytes has all three.
const ONE_NODE: &[Section] = &[(96, b""), (174, b""), (4, ONE), (4, TWO), (4, THREE)];

/// The sections where one record stands under two keys: the record stands where its first key does.
const ONCE: &[Section] = &[(96, b""), (174, b""), (4, ONE), (4, TWO)];

#[test]
fn one_node_and_one_record_under_two_keys(rt: HostRuntime) {
    let alloc = rt.alloc();
    assert!(rt; have_file::<_, 8>(&rt, alloc, FIVE_NODES, 528, ONE_NODE));
    assert!(rt; have_file::<_, 8>(&rt, alloc, ONE_RECORD_TWICE, 487, ONCE));
}

/// The node that has the key `a/p0` alone, with its record.
fn low_node(alloc: Global) -> Result<Vec<u8>, AllocError> {
    let front = b"\xa2\x61e\x81\xa4\x61kDa/p0\x61p\x00\x61t\xf6\x61v\xd8\x2a\x58\x25\x00";
    let mut bytes = Vec::from_slice(alloc, front)?;
    bytes.extend_from_slice(Cid::of::<Toy>(ONE).as_bytes())?;
    bytes.extend_from_slice(b"\x61l\xf6")?;
    Ok(bytes)
}

/// Five nodes, of which the one with the key `a/p0` is also the record of `a/q2`: it stands where the node does.
const NODE_ONCE: &[Section] = &[
    (96, b""),
    (144, b""),
    (47, b""),
    (64, b"\x61l\xf6"),
    (4, ONE),
    (47, b""),
    (64, b""),
    (4, THREE),
];

#[test]
fn a_record_that_is_a_node(rt: HostRuntime) {
    let node = low_node(rt.alloc()).expect(&rt, "the node");
    let records = [
        (b"a/p0".as_slice(), ONE),
        (b"a/q2".as_slice(), node.as_slice()),
        (b"a/r0".as_slice(), THREE),
    ];
    assert!(rt; node.len() == 64 && have_file::<_, 2>(&rt, rt.alloc(), &records, 827, NODE_ONCE));
}
