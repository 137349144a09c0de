//! Bytes as nodes.

ghost use Rattle.std.specs.Prelude.{◌≡◌, ◌<◌, ◌^◌, ℕ, List, option_map, length, IfSome};
ghost use Rattle.std.specs.Arc.{arc_value};
ghost use Rattle.spec.specs.Reading.{IsBytes};
ghost use Rattle.spec.specs.NodeFormat.{read_node};
ghost use Rattle.block.specs.Nodes.{contents_of};
ghost use Rattle.rows.specs.Entries.{shape_of};
ghost use Rattle.edit_laws.specs.Sources.{shape_of_bytes};
ghost use Rattle.lookups.specs.Nodes.{IsNodeOf};

use crate::source::Given;
use block::Block;
use cid::Digest;
use node::NodeView;
use std::alloc::Allocator;
use std::sync::Arc;

/// What is given for a CID and shows the node that its bytes are.
///
/// A block knows its node, and a slice of a file is read for it.
pub trait Shows<'a>: Given {
    /// The bytes, as a contract sees them.
    ghost bytes: { Self.Seen → List ℕ };

    /// The node that the bytes are, or `None` where they are none.
    fn as_node(self) -> Option<NodeView<'a>>
        ensures { option_map shape_of result ≡ shape_of_bytes (bytes (Self.seen self)) };
}

impl<'a, D: Digest, A: Allocator> Shows<'a> for &'a Arc<Block<D, A>, A> {
    ghost bytes = { arc_value };

    fn as_node(self) -> Option<NodeView<'a>> {
        self.node()
    }
}

impl<'a> Shows<'a> for &'a [u8] {
    ghost bytes = { λ slice. slice };

    fn as_node(self) -> Option<NodeView<'a>> {
        match NodeView::parse(self) {
            Ok(view) => Some(view),
            Err(_) => None,
        }
    }
}

/// The node that a block is, as `Block::node` shows it, or `None` where it is none. A contract says of it as well that the
/// block's bytes are its spelling.
pub fn view_of<'a, D: Digest, A: Allocator>(block: &'a Arc<Block<D, A>, A>) -> Option<NodeView<'a>>
    ensures contents { result ≡ contents_of (read_node (arc_value block.now)) }
    ensures lawful { IfSome result (λ view. IsNodeOf (arc_value block.now) (shape_of view)) }
{
    are_bytes(block.bytes());
    block.node()
}

/// What holds of any bytes in memory.
fn are_bytes(bytes: &[u8])
    ensures bytes { IsBytes bytes.now }
    ensures short { length bytes.now < 2 ^ 64 }
{}
