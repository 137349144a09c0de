//! CAR files, and proofs of keys.

ghost use Rattle.std.specs.Prelude.{◌≡◌, ◌≤◌, Err, IfErr, IfOk};
ghost use Rattle.host.specs.Seeing.{wanted_of};
ghost use Rattle.host_exports.specs.Exporting.{IsCarAnswer, HasCarCause, IsProofOf, IsProveFault};
ghost use Rattle.host_exports.specs.declared.fault.CarFault.TheVariants as cars;
ghost use Rattle.host_exports.specs.declared.fault.ProveFault.TheVariants as proofs;

use crate::fault::{CarFault, ProveFault};
use block::Block;
use cid::Digest;
use export::Out;
use host::Host;
use std::alloc::Allocator;
use std::sync::{Arc, Wait};

/// Writes a repository's CAR, as `export::car` does, and answers how many bytes that are.
///
/// `CarFault::NoSuchRepository` says that there is no such repository, and nothing was written. `CarFault::Export` has the
/// fault that `export::car` answered, and a beginning of the CAR was written; `ExportFault::DeviceFault` comes only where the
/// output failed. It waits for the repository's lock, shares it with readers, and holds it until all is written: an output
/// that waits for a call on this repository may wait for ever.
pub fn car<D: Digest, const B: u8, A: Allocator + Copy, W: Out, R: Wait>(
    rt: &R,
    alloc: A,
    host: &Host<D, B, A>,
    repo: usize,
    out: &mut W,
) -> Result<u64, CarFault>
    requires { 1 ≤ B }
    ensures car { IsCarAnswer D.digest_of B host.now repo (W.taken out.old) (W.taken out.new)
        result }
    ensures cause { HasCarCause (W.failures out.old) (W.failures out.new) result }
    ensures missing { host.now.repos ≤ repo → result ≡ Err cars.NoSuchRepository }
{
    if repo >= host.repos() {
        return Err(CarFault::NoSuchRepository);
    }
    host.fits_in_memory();
    match export::car(alloc, &host.read(rt, repo, 0), out) {
        Ok(length) => Ok(length),
        Err(fault) => Err(CarFault::Export(fault)),
    }
}

/// The proof of a key in a repository, as `export::prove` makes it: the nodes of the key's path, from the top.
///
/// `ProveFault::NoSuchRepository` says that there is no such repository, and `ProveFault::NoMemory` comes where memory was
/// refused. It waits for the repository's lock, which it shares with readers.
pub fn prove<D: Digest, const B: u8, A: Allocator + Copy, R: Wait>(
    rt: &R,
    alloc: A,
    host: &Host<D, B, A>,
    repo: usize,
    key: &[u8],
) -> Result<Vec<Arc<Block<D, A>, A>, A>, ProveFault>
    requires { 1 ≤ B }
    ensures proof { IfOk result (λ nodes.
        IsProofOf D.digest_of B (wanted_of host.now repo 0) key.now nodes.items) }
    ensures fault { IfErr result (IsProveFault host.now repo) }
    ensures missing { host.now.repos ≤ repo → result ≡ Err proofs.NoSuchRepository }
{
    if repo >= host.repos() {
        return Err(ProveFault::NoSuchRepository);
    }
    host.fits_in_memory();
    match export::prove(alloc, &host.read(rt, repo, 0), key) {
        Ok(nodes) => Ok(nodes),
        Err(_) => Err(ProveFault::NoMemory),
    }
}
