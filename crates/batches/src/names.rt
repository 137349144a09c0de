//! The names of refusals.
ghost use Rattle.std.specs.Prelude.{◌≡◌, Some};
ghost use Rattle.batches.specs.Names.{refusal_name as refusal_name_of};

use crate::fault::RepoFault;
use cid::Digest;
use record_rules::bad_record_name;
use std::alloc::{Allocator, Global};
use std::fmt;

/// A refusal, shown by its name, as `KeyExists`; a fault inside it stands in parentheses, as `BadRecord(Float)`. The names
/// are those of the variants.
#[derive(Drop)]
pub struct RefusalName<'a, D: Digest, A: Allocator = Global>(pub &'a RepoFault<D, A>);

impl<D: Digest, A: Allocator> fmt::Display for RefusalName<'_, D, A> {
    ghost output = { λ name. Some (refusal_name_of name.0.now) };

    fn fmt<W: fmt::Write>(&self, f: &mut fmt::Formatter<W>) -> fmt::Result {
        f.write_str(refusal_name(self.0))
    }
}

/// The name of a refusal; of a clash the two blocks are not shown.
pub fn refusal_name<D: Digest, A: Allocator>(fault: &RepoFault<D, A>) -> &'static str
    ensures { result.now ≡ refusal_name_of fault.now }
{
    match fault {
        RepoFault::BadKey => "BadKey",
        RepoFault::BadRecord(fault) => bad_record_name(fault),
        RepoFault::NotAMap => "NotAMap",
        RepoFault::RecordSize => "RecordSize",
        RepoFault::KeyExists => "KeyExists",
        RepoFault::NoSuchKey => "NoSuchKey",
        RepoFault::WritesFull => "WritesFull",
        RepoFault::Collision(_) => "Collision",
        RepoFault::StoreFull => "StoreFull",
        RepoFault::NoMemory => "NoMemory",
        RepoFault::EmptyBatch => "EmptyBatch",
        RepoFault::BadDid => "BadDid",
        RepoFault::BadRev => "BadRev",
        RepoFault::RevOrder => "RevOrder",
    }
}
