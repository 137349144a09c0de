ghost use Rattle.std.specs.Prelude.{◌≡◌, Some, map, true, IfOk};
ghost use Rattle.std.specs.List.{AllByRecursion};
ghost use Rattle.spec.specs.Cid.{cid as cid_of};
ghost use Rattle.spec.specs.NodeFormat.{read_node};
ghost use Rattle.block.specs.Bytes.{has_record, record_in, shared_record};
ghost use Rattle.block.specs.Nodes.{contents_of, reads_as_node};

use crate::bytes::{Bytes, record_in};
use crate::write::Write;
use cid::{Cid, Digest};
use node::NodeView;
use std::alloc::{AllocError, Allocator, Global};
use std::marker::{Model, PhantomData};
use std::sync::Arc;

/// Bytes together with their CID under the digest `D`, and with whether they are a node's, always.
///
/// A contract sees a block as its bytes.
#[derive(Drop)]
#[derive_where(Debug)]
pub struct Block<D: Digest, A: Allocator = Global> {
    bytes: Bytes<A>,
    cid: Cid,
    is_node: bool,
    digest: PhantomData<D>,
}

impl<D: Digest, A: Allocator> Model for Block<D, A> {
    ghost use Rattle.std.specs.Prelude.{ℕ, List};
    ghost use Rattle.block.specs.Bytes.{bytes_in};
    ghost use Rattle.block.specs.Nodes.{IsBlock};

    ghost Value = { List ℕ };

    ghost view = { λ b. bytes_in b.bytes };

    ghost invariant = { λ b. IsBlock D.digest_of (bytes_in b.bytes) b.cid b.is_node };
}

impl<D: Digest, A: Allocator> Block<D, A> {
    /// The block of these bytes. They are hashed once, here, and tested once for whether they are a node's; they aren't
    /// copied.
    pub fn of(bytes: Vec<u8, A>) -> Block<D, A>
        ensures { result ≡ bytes.items }
    {
        let cid = Cid::of::<D>(&bytes);
        let is_node = is_node(&bytes);
        Block {
            bytes: Bytes::Own(bytes),
            cid,
            is_node,
            digest: PhantomData,
        }
    }

    /// The block of bytes that were written as a node's, which needs no test. They are hashed once, here, and not copied.
    pub fn of_node(bytes: Vec<u8, A>) -> Block<D, A>
        requires { reads_as_node bytes.items ≡ true }
        ensures { result ≡ bytes.items }
    {
        Block {
            cid: Cid::of::<D>(&bytes),
            is_node: true,
            bytes: Bytes::Own(bytes),
            digest: PhantomData,
        }
    }

    /// The block of these bytes, whose CID is known: whoever calls owes that it is theirs. They are tested once, here, for
    /// whether they are a node's, and neither hashed nor copied.
    pub fn of_known(bytes: Vec<u8, A>, cid: Cid) -> Block<D, A>
        requires { cid ≡ cid_of D.digest_of bytes.items }
        ensures { result ≡ bytes.items }
    {
        Block {
            is_node: is_node(&bytes),
            cid,
            bytes: Bytes::Own(bytes),
            digest: PhantomData,
        }
    }

    /// The block of these bytes, whose digest is at hand.
    #[tactic(auto, unfolding(spec::specs::Cid::cid))]
    fn with_digest(bytes: Vec<u8, A>, digest: &[u8; 32]) -> Block<D, A>
        requires { digest.now ≡ D.digest_of bytes.items }
        ensures { result ≡ bytes.items }
    {
        Block::of_known(bytes, Cid::of_digest(digest))
    }

    /// The block of a write's record, whose digest is at hand.
    #[tactic(auto, unfolding(spec::specs::Cid::cid))]
    fn of_write(write: Arc<Write<A>, A>, digest: &[u8; 32]) -> Block<D, A>
        requires { digest.now ≡ D.digest_of (record_in write) }
        ensures { result ≡ record_in write }
    {
        Block {
            is_node: is_node(record_in(&write)),
            cid: Cid::of_digest(digest),
            bytes: Bytes::OfWrite(write),
            digest: PhantomData,
        }
    }

    /// The bytes.
    pub fn bytes(&self) -> &[u8]
        ensures { result.now ≡ self.now }
    {
        self.bytes.as_slice()
    }

    /// The CID of the bytes.
    pub fn cid(&self) -> Cid
        ensures { result ≡ cid_of D.digest_of self.now }
    {
        self.cid
    }

    /// Whether the bytes are a node's (AT Protocol repository v3, MST node data format). Nothing is tested here.
    pub fn is_node(&self) -> bool
        ensures { result ≡ reads_as_node self.now }
    {
        self.is_node
    }

    /// The node that the bytes are, or `None` where they are none. Nothing is tested here, and nothing copied.
    pub fn node(&self) -> Option<NodeView<'_>>
        ensures { result ≡ contents_of (read_node self.now) }
    {
        if self.is_node {
            Some(NodeView::of_tested(self.bytes.as_slice()))
        } else {
            None
        }
    }
}

impl<D: Digest, A: Allocator + Clone> Block<D, A> {
    /// The blocks of these lists of bytes, in their order. Each is hashed once, here, several side by side where the digest
    /// can do that, and tested once for whether it is a node; none is copied.
    pub fn of_each(lists: Vec<Vec<u8, A>, A>) -> Result<Vec<Block<D, A>, A>, AllocError>
        ensures { IfOk result (λ blocks. blocks.items ≡ map (λ bytes. bytes.items) lists.items) }
    {
        let alloc = lists.allocator().clone()?;
        let digests = D::digest_each(alloc.clone()?, &lists)?;
        let mut blocks = Vec::with_capacity(alloc, lists.len())?;
        for (bytes, digest) in lists.into_iter().zip(&digests) {
            blocks.push(Block::with_digest(bytes, digest))?;
        }
        Ok(blocks)
    }

    /// The blocks of the records of these writes, in their order. Each keeps its write and lends the record from it, so no
    /// record is copied. They are hashed and tested as those of `of_each`.
    pub fn of_writes(writes: Vec<Arc<Write<A>, A>, A>) -> Result<Vec<Block<D, A>, A>, AllocError>
        requires { AllByRecursion (λ w. has_record w ≡ true) writes.items }
        ensures { IfOk result (λ blocks. map Some blocks.items ≡ map shared_record writes.items) }
    {
        let alloc = writes.allocator().clone()?;
        let digests = digests_of::<D, A>(alloc.clone()?, &writes)?;
        let mut blocks = Vec::with_capacity(alloc, writes.len())?;
        for (write, digest) in writes.into_iter().zip(&digests) {
            blocks.push(Block::of_write(write, digest))?;
        }
        Ok(blocks)
    }
}

/// The digest of the record of each of these writes.
fn digests_of<D: Digest, A: Allocator + Clone>(
    alloc: A,
    writes: &[Arc<Write<A>, A>],
) -> Result<Vec<[u8; 32], A>, AllocError>
    ensures { IfOk result (λ digests.
        digests.items ≡ map (λ w. D.digest_of (record_in w)) writes.now) }
{
    let records = records_in(alloc.clone()?, writes)?;
    D::digest_each(alloc, &records)
}

/// The records of these writes, as the writes lend them.
fn records_in<A: Allocator>(
    alloc: A,
    writes: &[Arc<Write<A>, A>],
) -> Result<Vec<&[u8], A>, AllocError>
    ensures { IfOk result (λ records.
        map (λ bytes. bytes.now) records.items ≡ map record_in writes.now) }
{
    let mut records = Vec::with_capacity(alloc, writes.len())?;
    for write in writes {
        records.push(record_in(write))?;
    }
    Ok(records)
}

/// Whether bytes are a node's. What is no node mostly departs from the grammar at its first bytes. It takes no memory.
fn is_node(bytes: &[u8]) -> bool
    ensures { result ≡ reads_as_node bytes.now }
{
    match NodeView::parse(bytes) {
        Ok(_) => true,
        Err(_) => false,
    }
}
