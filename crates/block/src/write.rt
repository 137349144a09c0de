ghost use Rattle.std.specs.Prelude.{◌≡◌, option_map, IfOk};
ghost use Rattle.std.specs.Arc.{arc_value};
ghost use Rattle.spec.specs.Writes.{key_of, record_of};
ghost use Rattle.block.specs.Writes.{write_of};

use std::alloc::{AllocError, Allocator, Global};
use std::sync::Arc;

/// A write to a repository: a key, and then the record's bytes.
///
/// A key is a collection, a slash and a record key (AT Protocol repository v3, paths), and a record is one map in DAG-CBOR,
/// of at most 1,048,576 bytes. `batches::test_write` tests both.
#[derive(Drop)]
#[derive_where(Debug)]
pub enum Write<A: Allocator = Global> {
    /// The record stands under the key, whatever stood there.
    Put(Vec<u8, A>, Vec<u8, A>),
    /// The record stands under the key, where nothing stood there.
    Create(Vec<u8, A>, Vec<u8, A>),
    /// The record stands under the key, where another one stood there.
    Update(Vec<u8, A>, Vec<u8, A>),
    /// The key goes with its record, where there is one.
    Delete(Vec<u8, A>),
}

impl<A: Allocator> Write<A> {
    /// The key that is written.
    pub fn key(&self) -> &[u8]
        ensures { result.now ≡ key_of (write_of self.now) }
    {
        match self {
            Write::Put(key, _)
            | Write::Create(key, _)
            | Write::Update(key, _)
            | Write::Delete(key) => key,
        }
    }

    /// The bytes of the record that the write leaves under its key: none for a delete.
    pub fn record(&self) -> Option<&[u8]>
        ensures { option_map (λ bytes. bytes.now) result ≡ record_of (write_of self.now) }
    {
        match self {
            Write::Put(_, bytes) | Write::Create(_, bytes) | Write::Update(_, bytes) => Some(bytes),
            Write::Delete(_) => None,
        }
    }
}

impl<A: Allocator + Copy> Write<A> {
    /// A copy to share.
    pub fn share(&self, alloc: A) -> Result<Arc<Write<A>, A>, AllocError>
        ensures { IfOk result (λ shared. write_of (arc_value shared) ≡ write_of self.now) }
    {
        let key = copied(alloc, self.key())?;
        let copy = match self {
            Write::Put(_, bytes) => Write::Put(key, copied(alloc, bytes)?),
            Write::Create(_, bytes) => Write::Create(key, copied(alloc, bytes)?),
            Write::Update(_, bytes) => Write::Update(key, copied(alloc, bytes)?),
            Write::Delete(_) => Write::Delete(key),
        };
        Ok(Arc::new(alloc, copy)?)
    }
}

/// The same bytes in memory of their own.
fn copied<A: Allocator>(alloc: A, bytes: &[u8]) -> Result<Vec<u8, A>, AllocError>
    ensures { IfOk result (λ copy. copy.items ≡ bytes.now) }
{
    Vec::from_slice(alloc, bytes)
}
