//! The file of a repository, in parts.

ghost use Rattle.std.specs.Prelude.{◌≡◌, ◌≤◌, ◌++◌, ℕ, List, IfOk};
ghost use Rattle.spec.specs.States.{state_car};
ghost use Rattle.export.specs.Exports.{car_length as car_length_of};
ghost use Rattle.export.specs.Windows.{part_of};

use crate::cars::car;
use crate::export_fault::ExportFault;
use crate::to_writer::ToWriter;
use crate::window::Window;
use cid::Digest;
use repo::Core;
use std::alloc::{AllocError, Global};
use std::io::sink;

/// How many bytes the file (CARv1) of a repository has, or `u64::MAX` where they are more. None of them is made.
///
/// `AllocError` comes where memory was refused.
pub fn car_length<D: Digest, const B: u8>(
    alloc: Global,
    core: &Core<D, B>,
) -> Result<u64, AllocError>
    requires { 1 ≤ B }
    ensures { IfOk result (λ length. length ≡ car_length_of D.digest_of B core.now) }
{
    let mut out = ToWriter::new(sink());
    match car(alloc, core, &mut out) {
        Ok(length) => Ok(length),
        Err(_) => Err(AllocError),
    }
}

/// The bytes of the file (CARv1) of a repository from a place on, `room` of them, or as many as there are.
///
/// `AllocError` comes where memory was refused.
pub fn car_part<D: Digest, const B: u8>(
    alloc: Global,
    core: &Core<D, B>,
    from: u64,
    room: usize,
) -> Result<Vec<u8>, AllocError>
    requires { 1 ≤ B }
    ensures { IfOk result (λ part. part.items
        ≡ part_of from room (state_car D.digest_of B core.now)) }
{
    let mut window = Window::new(alloc, from, room);
    match car(alloc, core, &mut window) {
        Ok(_) => part_in(window, from, room),
        Err(ExportFault::DeviceFault) => full_part_in(window, from, room),
        Err(ExportFault::NoMemory) => Err(AllocError),
    }
}

/// The part that a window has, if it is one of this place and this room.
fn part_in(window: Window, from: u64, room: usize) -> Result<Vec<u8>, AllocError>
    ensures { IfOk result (λ part. part.items ≡ part_of from room window.taken) }
{
    if !window.is_for(from, room) {
        return Err(AllocError);
    }
    Ok(window.into_part())
}

/// The same of one that has all that it has room for: what was not written is behind the part.
#[tactic(auto, using(crate::proofs::Full::full_part))]
fn full_part_in(window: Window, from: u64, room: usize) -> Result<Vec<u8>, AllocError>
    ensures { (rest : List ℕ) → IfOk result
        (λ part. part.items ≡ part_of from room (window.taken ++ rest)) }
{
    let part = part_in(window, from, room)?;
    if part.len() != room {
        return Err(AllocError);
    }
    Ok(part)
}
