//! The pairs that the nodes of a file list.

ghost use Rattle.std.specs.Prelude.{◌≤◌, length, IfOk};
ghost use Rattle.spec.specs.Exports.{given_by};
ghost use Rattle.repository_check.specs.Parts.{AreListed};
ghost use Rattle.repository_check.specs.Views.{pairs_of};

use car_reader::Places;
use cid::{Cid, Digest};
use counts::Count;
use lookups::{Source, walk_in_reads};
use std::alloc::{AllocError, Allocator};

/// Keys, each with its record's CID.
pub(crate) type Pairs<A> = Vec<(Vec<u8, A>, Cid), A>;

/// The blocks of a file as a source, with a count of the reads for proofs alone.
#[derive(Drop)]
pub(crate) struct Lent<'p, 's, 'f, A: Allocator> {
    pub(crate) places: &'p Places<'s, 'f, A>,
    pub(crate) asked: Count,
}

impl<'p, 's, 'f, A: Allocator> Source<&'f [u8]> for Lent<'p, 's, 'f, A> {
    ghost gives = { λ lent. given_by lent.places.now };

    ghost reads = { λ lent. lent.asked.times };

    fn get(&mut self, cid: &Cid) -> Option<&'f [u8]> {
        self.asked = self.asked.once_more();
        self.places.find(cid)
    }
}

/// The pairs from the root down, where the file has a tree with this root. Else it is any pairs, or none. In any case it
/// reads no more nodes than the file has sections.
pub(crate) fn pairs_listed<'f, D: Digest, const B: u8, A: Allocator + Copy>(
    alloc: A,
    places: &Places<'_, 'f, A>,
    root: &Cid,
    sections: usize,
) -> Result<Pairs<A>, AllocError>
    requires least { 1 ≤ B }
    requires sections { length places.now ≤ sections }
    ensures { IfOk result (λ pairs.
        AreListed D.digest_of B places.now root.now (pairs_of pairs.items)) }
{
    let mut nodes = Lent {
        places,
        asked: Count::never(),
    };
    walk_in_reads::<D, B, &'f [u8], A, _>(alloc, &mut nodes, *root, &[], usize::MAX, sections)
}
