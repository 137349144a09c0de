//! The layer of a node.

ghost use Rattle.std.specs.Prelude.{◌≡◌, ◌≤◌};
ghost use Rattle.spec.specs.Layer.{layer as layer_of};
ghost use Rattle.edit_laws.specs.ShapeEdit.{layer_of_shape};
ghost use Rattle.rows.specs.Entries.{shape_of};

use cid::{Digest, layer};
use node::NodeView;

/// The layer of a node's keys, by the first of them, and 0 for a node without keys. `B` is the number of zero bits of a
/// digest that count for one layer (AT Protocol repository v3, MST structure).
pub fn top_layer<D: Digest, const B: u8>(node: &NodeView<'_>) -> u16
    requires least { 1 ≤ B }
    ensures { result ≡ layer_of_shape (layer_of D.digest_of B) (shape_of node.now) }
{
    match node.entries().next() {
        Some(entry) => layer::<D, B>(entry.suffix),
        None => 0,
    }
}
