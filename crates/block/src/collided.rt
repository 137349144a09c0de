ghost use Rattle.std.specs.Prelude.{◌≡◌, ℕ, List, IfOk};
ghost use Rattle.std.specs.Arc.{arc_value};
ghost use Rattle.spec.specs.Blocks.{IsClash};

use crate::block::Block;
use cid::Digest;
use std::alloc::{AllocError, Allocator, Global};
use std::marker::Model;
use std::sync::Arc;

/// Two blocks with one CID and different bytes: the digest has a collision.
///
/// No other pair can be made into it. A contract sees it as the pair of their bytes.
#[derive(Drop)]
#[derive_where(Debug)]
pub struct Collided<D: Digest, A: Allocator = Global> {
    one: Arc<Block<D, A>, A>,
    other: Arc<Block<D, A>, A>,
}

impl<D: Digest, A: Allocator> Model for Collided<D, A> {
    ghost Value = { List ℕ × List ℕ };

    ghost view = { λ c. (arc_value c.one, arc_value c.other) };

    ghost invariant = { λ c. IsClash D.digest_of (arc_value c.one) (arc_value c.other) };
}

impl<D: Digest, A: Allocator> Collided<D, A> {
    /// The pair of two blocks that clash. `Block::cid` and `Block::bytes` are the test.
    pub fn new(one: Arc<Block<D, A>, A>, other: Arc<Block<D, A>, A>) -> Collided<D, A>
        requires { IsClash D.digest_of (arc_value one) (arc_value other) }
        ensures { result ≡ (arc_value one, arc_value other) }
    {
        Collided { one, other }
    }

    /// The pair of two blocks that clash and stay shared with whoever has them. `AllocError` comes where memory was refused.
    pub fn of_shared(
        one: &Arc<Block<D, A>, A>,
        other: &Arc<Block<D, A>, A>,
    ) -> Result<Collided<D, A>, AllocError>
        requires { IsClash D.digest_of (arc_value one.now) (arc_value other.now) }
        ensures { IfOk result (λ pair. pair ≡ (arc_value one.now, arc_value other.now)) }
    {
        let one = Arc::try_clone(one)?;
        let other = Arc::try_clone(other)?;
        Ok(Collided::new(one, other))
    }

    /// One of the two.
    pub fn one(&self) -> &Arc<Block<D, A>, A>
        ensures value { arc_value result.now ≡ self.now.0 }
        ensures clash { IsClash D.digest_of self.now.0 self.now.1 }
    {
        &self.one
    }

    /// The other.
    pub fn other(&self) -> &Arc<Block<D, A>, A>
        ensures value { arc_value result.now ≡ self.now.1 }
        ensures clash { IsClash D.digest_of self.now.0 self.now.1 }
    {
        &self.other
    }
}
