//! CAR files over writers of the standard library.

ghost use Rattle.std.specs.Prelude.{◌≡◌, ◌≤◌, ◌++◌, Some, IfOk};
ghost use Rattle.spec.specs.States.{state_car};

use crate::fixtures::{FIVE_NODES, end, file_of, opened, takes};
use cid::Digest;
use cid::digests::Toy;
use export::{ExportFault, ToWriter, car};
use repo::Core;
use std::alloc::Global;
use std::io::{self, ErrorKind, Write};
use store::{Shard, TableKey};

/// A core's CAR behind what a vector has: by its contract alone, as its caller has nothing but the vector.
fn file_behind<D: Digest, const B: u8>(
    alloc: Global,
    core: &Core<D, B>,
    before: Vec<u8>,
) -> Result<Vec<u8>, ExportFault>
    requires { 1 ≤ B }
    ensures { IfOk result (λ file. file.items
        ≡ before.items ++ state_car D.digest_of B core.now) }
{
    let mut out = ToWriter::new(before);
    car(alloc, core, &mut out)?;
    Ok(out.into_writer())
}

/// Whether a file stands behind what a vector has.
fn stands_behind(alloc: Global, core: &Core<Toy, 2>, file: &[u8]) -> bool {
    let Ok(before) = Vec::from_slice(alloc, b"before") else {
        return false;
    };
    match file_behind(alloc, core, before) {
        Ok(bytes) => bytes.strip_prefix(b"before") == Some(file),
        Err(_) => false,
    }
}

/// Takes so many bytes in a call and in all. From then on it answers an error of this kind, or without one 0 bytes.
#[derive(Drop)]
struct Narrow {
    written: Vec<u8>,
    a_call: usize,
    in_all: usize,
    kind: Option<ErrorKind>,
}

impl Write for Narrow {
    ghost contents = { λ w. Some w.written.items };

    fn write(&mut self, buf: &[u8]) -> io::Result<usize> {
        let most = buf.len().min(self.a_call).min(self.in_all);
        if let (0, Some(kind)) = (most, self.kind) {
            return Err(io::Error::from(kind));
        }
        let count = self.written.write(&buf[..most])?;
        self.in_all -= count;
        Ok(count)
    }

    fn flush(&mut self) -> io::Result<()> {
        Ok(())
    }
}

/// A row: how many bytes a call and in all, the error from then on, and whether the file is written whole.
type Row = (usize, usize, Option<ErrorKind>, bool);

/// Writers, and whether the file of 868 bytes fits.
const ROWS: [Row; 6] = [
    (1000, 868, Some(ErrorKind::Other), true),
    (7, 868, None, true),
    (7, 867, None, false),
    (1000, 500, Some(ErrorKind::Other), false),
    (1, 200, Some(ErrorKind::Interrupted), false),
    (1000, 0, Some(ErrorKind::OutOfMemory), false),
];

/// Whether a row's writer is answered for as it is to be, and has then taken all that it could of the file.
fn is_taken(alloc: Global, core: &Core<Toy, 2>, file: &[u8], row: &Row) -> bool {
    let (a_call, in_all, kind, whole) = *row;
    let mut out = ToWriter::new(Narrow {
        written: Vec::new(alloc),
        a_call,
        in_all,
        kind,
    });
    let answer = car(alloc, core, &mut out);
    let written = out.into_writer().written;
    let wanted = if whole {
        Ok(868)
    } else {
        Err(ExportFault::DeviceFault)
    };
    answer == wanted && written.len() == in_all && file.starts_with(&written)
}

/// Whether each writer is.
fn are_taken(alloc: Global, core: &Core<Toy, 2>) -> bool {
    let Some(file) = file_of(alloc, alloc, core) else {
        return false;
    };
    for row in &ROWS {
        if !is_taken(alloc, core, &file, row) {
            return false;
        }
    }
    file.len() == 868 && stands_behind(alloc, core, &file)
}

#[test]
fn writers_that_take_all_and_that_fail(rt: HostRuntime) {
    let mut shard = Shard::new(rt.alloc(), 20, TableKey::known());
    let mut core = opened(&rt, rt.alloc(), &mut shard);
    let taken = takes(rt.alloc(), &mut shard, &mut core, FIVE_NODES);
    let right = are_taken(rt.alloc(), &core);
    end(&mut shard, core);
    assert!(rt; taken && right);
}
