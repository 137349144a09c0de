//! The file of a repository in parts of which none is made twice, and what stands below a node.

ghost use Rattle.std.specs.Prelude.{◌≡◌, ◌++◌, None, option_map, IfOk, OnOk, IfSome};
ghost use Rattle.sha2.specs.Sha256.{sha256};
ghost use Rattle.spec.specs.Car.{header, section};
ghost use Rattle.spec.specs.Commits.{car_root};
ghost use Rattle.spec.specs.NodeFormat.{read_node};
ghost use Rattle.spec.specs.States.{state_commit, state_root};
ghost use Rattle.repo.specs.Readings.{state_block};
ghost use Rattle.cid.specs.CidRef.{bytes_of};
ghost use Rattle.buffers.specs.Framing.{cid_at};
ghost use Rattle.tizulgech.specs.Numbers.{IsHandedOr255};
ghost use Rattle.tizulgech.specs.Parting.{AreLinks, IsHandedIfThere, IsSectionOf, links_bytes, node_link, record_link};
ghost use Rattle.buffers.specs.Answers.{IsKept};
ghost use Rattle.tizulgech.specs.Handles.{OnlyReads};

use crate::codes::{BAD, BAD_NODE, CLOSED, NO_MEMORY, NONE};
use buffers::{cid_in, hand};
use cid::{Cid, CidRef};
use export::{car_head, car_section};
use node::NodeView;
use owned_repo::{OwnedRepo, Repository};
use std::alloc::{AllocError, Global};

/// The header of the CAR file (CARv1) of the repository: 0, 250, 251, 255. Behind it come the sections of its blocks.
#[unsafe(no_mangle)]
pub extern "C" fn tizulgech_car_head(
    alloc: Global,
    repository: &mut Repository,
    out: &mut [u8],
    size: &mut usize,
) -> u8
    ensures head { IfSome repository.old.handle.repo (λ o. IsHandedOr255 result
        (header (car_root (state_commit sha256 2 o.state) (state_root sha256 2 o.state)))
        out.old out.new size.new) }
    ensures read { OnlyReads result repository.old.handle.repo repository.new.handle.repo }
    ensures kept { IsKept result out.old out.new size.old size.new }
{
    let Some(repo) = repository.taken(alloc) else {
        return CLOSED;
    };
    let code = head_told(alloc, &repo, out, size);
    *repository = Repository::opened(repo);
    code
}

/// The same of a repository.
fn head_told(alloc: Global, repo: &OwnedRepo, out: &mut [u8], size: &mut usize) -> u8
    ensures answer { IsHandedOr255 result
        (header (car_root (state_commit sha256 2 repo.now.state)
        (state_root sha256 2 repo.now.state)))
        out.old out.new size.new }
    ensures kept { IsKept result out.old out.new size.old size.new }
{
    match head_bytes(alloc, repo) {
        Ok(head) => hand(&head, out, size),
        Err(_) => NO_MEMORY,
    }
}

/// The bytes of the header.
fn head_bytes(alloc: Global, repo: &OwnedRepo) -> Result<Vec<u8>, AllocError>
    ensures { IfOk result (λ head. head.items ≡ header (car_root
        (state_commit sha256 2 repo.now.state) (state_root sha256 2 repo.now.state))) }
{
    car_head(alloc, repo.core())
}

/// The section of the CAR file (CARv1) of the repository for its block with a CID, the last commit, a node or a record: 0 and
/// the length of what follows (LEB128), the CID and the block's bytes; 24 where it has no such block; 250; 251; 252 for a CID
/// that is none; 255. Nothing is hashed.
#[unsafe(no_mangle)]
pub extern "C" fn tizulgech_car_section(
    alloc: Global,
    repository: &mut Repository,
    cid: &[u8],
    out: &mut [u8],
    size: &mut usize,
) -> u8
    ensures section { IfSome repository.old.handle.repo (λ o. IsSectionOf result
        (λ c. option_map (section sha256) (state_block sha256 2 o.state c)) (cid_at cid.now)
        out.old out.new size.new) }
    ensures read { OnlyReads result repository.old.handle.repo repository.new.handle.repo }
    ensures kept { IsKept result out.old out.new size.old size.new }
{
    let Some(repo) = repository.taken(alloc) else {
        return CLOSED;
    };
    let code = section_in(alloc, &repo, cid, out, size);
    *repository = Repository::opened(repo);
    code
}

/// The same of a repository.
fn section_in(alloc: Global, repo: &OwnedRepo, cid: &[u8], out: &mut [u8], size: &mut usize) -> u8
    ensures answer { IsSectionOf result
        (λ c. option_map (section sha256) (state_block sha256 2 repo.now.state c)) (cid_at cid.now)
        out.old out.new size.new }
    ensures kept { IsKept result out.old out.new size.old size.new }
{
    match cid_in(cid) {
        Some(cid) => section_told(alloc, repo, &cid, out, size),
        None => BAD,
    }
}

/// The same of a CID.
fn section_told(alloc: Global, repo: &OwnedRepo, cid: &Cid, out: &mut [u8], size: &mut usize) -> u8
    ensures answer { IsHandedIfThere result
        (option_map (section sha256) (state_block sha256 2 repo.now.state cid.now))
        out.old out.new size.new }
    ensures kept { IsKept result out.old out.new size.old size.new }
{
    match section_bytes(alloc, repo, cid) {
        Ok(Some(section)) => hand(&section, out, size),
        Ok(None) => NONE,
        Err(_) => NO_MEMORY,
    }
}

/// The bytes of the section, where there is such a block.
fn section_bytes(alloc: Global, repo: &OwnedRepo, cid: &Cid) -> Result<Option<Vec<u8>>, AllocError>
    ensures { IfOk result (λ found. option_map (λ bytes. bytes.items) found
        ≡ option_map (section sha256) (state_block sha256 2 repo.now.state cid.now)) }
{
    car_section(alloc, repo.core(), cid)
}

/// What stands below the node of these bytes, in the order of a CAR file: of each a byte, 1 for a node and 0 for a record, and
/// its CID. 0; 30 where the bytes are no node; 251; 255.
#[unsafe(no_mangle)]
pub extern "C" fn tizulgech_links(
    alloc: Global,
    node: &[u8],
    out: &mut [u8],
    size: &mut usize,
) -> u8
    ensures answer { AreLinks result (read_node node.now) out.old out.new size.new }
    ensures kept { IsKept result out.old out.new size.old size.new }
{
    let Ok(view) = NodeView::parse(node) else {
        return BAD_NODE;
    };
    links_told(alloc, &view, out, size)
}

/// The same of a node.
fn links_told(alloc: Global, view: &NodeView<'_>, out: &mut [u8], size: &mut usize) -> u8
    ensures answer { IsHandedOr255 result (links_bytes view.now.left view.now.entries)
        out.old out.new size.new }
    ensures kept { IsKept result out.old out.new size.old size.new }
{
    match links_of(alloc, view) {
        Ok(bytes) => hand(&bytes, out, size),
        Err(_) => NO_MEMORY,
    }
}

/// The links of a node, spelt.
fn links_of(alloc: Global, view: &NodeView<'_>) -> Result<Vec<u8>, AllocError>
    ensures { IfOk result (λ bytes. bytes.items ≡ links_bytes view.now.left view.now.entries) }
{
    let mut bytes = Vec::new(alloc);
    push_node(&mut bytes, view.left())?;
    for entry in view.entries() {
        push_record(&mut bytes, entry.value)?;
        push_node(&mut bytes, entry.tree)?;
    }
    Ok(bytes)
}

/// Puts a link to a record at the end.
fn push_record(bytes: &mut Vec<u8>, cid: CidRef<'_>) -> Result<(), AllocError>
    ensures { OnOk result (bytes.new.items ≡ bytes.old.items ++ record_link (bytes_of cid.entry)) }
{
    bytes.push(0)?;
    bytes.extend_from_slice(cid.as_bytes())
}

/// Puts a link to a node at the end, if there is one.
fn push_node(bytes: &mut Vec<u8>, link: Option<CidRef<'_>>) -> Result<(), AllocError>
    ensures { OnOk result (bytes.new.items
        ≡ bytes.old.items ++ node_link (option_map bytes_of link.entry)) }
{
    let Some(cid) = link else {
        return Ok(());
    };
    bytes.push(1)?;
    bytes.extend_from_slice(cid.as_bytes())
}
