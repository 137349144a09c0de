//! Sorted pairs with the layers of their keys, and their taking from the front.

ghost use Rattle.std.specs.Prelude.{◌≡◌, ◌≤◌, map, IfOk};
ghost use Rattle.spec.specs.Layer.{layer as layer_of};
ghost use Rattle.spec.specs.Tree.{top_layer as top_layer_of};
ghost use Rattle.scratch.specs.Pairs.{pairs_of};
ghost use Rattle.scratch.specs.Rows.{pair_of, AreLayered, HaveNothingBelow};

use cid::{Cid, CidRef, Digest, layer, layer_four};
use std::alloc::{AllocError, Allocator};
use std::convert::AsSlice;

/// A pair with the layer of its key, and how many nodes stand between it and the next row.
#[derive(Clone, Copy)]
pub struct Row<'a> {
    pub layer: u16,
    pub key: &'a [u8],
    pub value: CidRef<'a>,
    pub nodes_after: usize,
}

/// The pairs in their order. Each key is hashed here for its layer, and nowhere else: four at a time, and the last ones
/// by themselves.
pub fn rows<'a, D: Digest, const B: u8, K: AsSlice<u8>, A: Allocator>(
    alloc: A,
    pairs: &'a [(K, Cid)],
) -> Result<Vec<Row<'a>, A>, AllocError>
    requires least { 1 ≤ B }
    requires most { B ≤ 8 }
    ensures same { IfOk result (λ rows. map pair_of rows.items ≡ pairs_of K.items pairs.now) }
    ensures layered { IfOk result (λ rows. AreLayered (layer_of D.digest_of B) rows.items) }
    ensures nothing_below { IfOk result (λ rows. HaveNothingBelow rows.items) }
{
    let mut rows = Vec::with_capacity(alloc, pairs.len())?;
    let mut rest = pairs;
    'fours: while let [a, b, c, d, after @ ..] = rest {
        let (k, l, m, n) = (
            a.0.as_slice(),
            b.0.as_slice(),
            c.0.as_slice(),
            d.0.as_slice(),
        );
        let layers = layer_four::<D, B>(k, l, m, n);
        rows.push(row_of(layers[0], k, &a.1))?;
        rows.push(row_of(layers[1], l, &b.1))?;
        rows.push(row_of(layers[2], m, &c.1))?;
        rows.push(row_of(layers[3], n, &d.1))?;
        rest = after;
    }
    'last: for (key, value) in rest {
        let key = key.as_slice();
        rows.push(row_of(layer::<D, B>(key), key, value))?;
    }
    Ok(rows)
}

/// The row of this layer, key and value, with no nodes after it.
fn row_of<'a>(layer: u16, key: &'a [u8], value: &'a Cid) -> Row<'a>
    ensures layer { result.layer ≡ layer }
    ensures pair { pair_of result ≡ (key.now, value.now) }
    ensures key { result.key.now ≡ key.now }
    ensures nodes_after { result.nodes_after ≡ 0 }
{
    Row {
        layer,
        key,
        value: CidRef::from(value),
        nodes_after: 0,
    }
}

/// The greatest layer, and 0 without rows.
pub fn top_layer<D: Digest, const B: u8>(rows: &[Row<'_>]) -> u16
    requires { AreLayered (layer_of D.digest_of B) rows.now }
    ensures { result ≡ top_layer_of (layer_of D.digest_of B) (map pair_of rows.now) }
{
    let mut top = 0;
    for row in rows {
        top = top.max(row.layer);
    }
    top
}
