//! Pairs of an old node that no change touches, which come to the edge as they stand.

ghost use Rattle.std.specs.Prelude.{◌≡◌, ◌+◌, ℕ, List, Option, true, None, is_some, length};
ghost use Rattle.rows.specs.Entries.{shape_at};
ghost use Rattle.edit.specs.Passing.{IsUntouched, IsPassed};
ghost use Rattle.key_changes.specs.Keyed.{are_ascending};
ghost use Rattle.edit.specs.States.{edge_in};
ghost use Rattle.edit.specs.Steps.{IsPassing};

use crate::edge::Edge;
use crate::hashed::HashedChange;
use crate::level::copy_untouched;
use cid::{Cid, Digest};
use rows::{DraftFault, KeyedEntries, Writer, to_cid};
use std::alloc::Allocator;
use std::clone::Clone;

/// What comes next of a node that is read pair by pair: a link, and the value of the pair after it, whose key the reader
/// has; no value where the link is the last one.
pub(crate) type Ahead = (Option<Cid>, Option<Cid>);

/// The next link of a node, and the pair after it.
pub(crate) fn ahead_of<A: Allocator>(rows: &mut KeyedEntries<'_, A>) -> Ahead
    ensures { shape_at result.0 result.1 rows.new ≡ rows.old.rest }
{
    let link = to_cid(rows.link());
    let value = to_cid(rows.next());
    (link, value)
}

/// Whether no change touches the pair with this key, below which stand so many layers, and the link before it, if there is
/// one.
pub(crate) fn is_untouched<D: Digest>(
    layer: u16,
    has_link: bool,
    key: &[u8],
    changes: &[HashedChange<'_, D>],
) -> bool
    requires { are_ascending changes.now ≡ true }
    ensures { (link : Option (List ℕ)) → has_link ≡ is_some link → result ≡ true
        → IsUntouched layer changes.now link key.now }
{
    if layer == 0 && has_link {
        return false;
    }
    let [first, ..] = changes else {
        return true;
    };
    first.key().cmp(key).is_gt()
}

impl<'a, D: Digest, A: Allocator + Clone> Edge<'a, D, A> {
    /// The next pairs of a node of this depth come as they stand, as far as no change touches them, and where the node's
    /// layer is open or could be, and nothing stands below it. What comes after them.
    pub(crate) fn pass(
        &mut self,
        layer: u16,
        depth: u16,
        rows: &mut KeyedEntries<'a, A>,
        changes: &[HashedChange<'_, D>],
    ) -> Result<Ahead, DraftFault>
        requires ascending { are_ascending changes.now ≡ true }
        ensures { IsPassing layer depth changes.now rows.old.rest self.old self.new
            (λ next. IsPassed layer depth changes.now rows.old.rest
            (shape_at next.0 next.1 rows.new) (edge_in self.old) (edge_in self.new)) result }
    {
        let None = self.rest else {
            return Ok(ahead_of(rows));
        };
        let count = self.levels.len();
        if count == usize::from(depth) + 1 {
            return self.pass_open(layer, depth, rows, changes);
        }
        if count == usize::from(depth) {
            return self.pass_first(layer, depth, rows, changes);
        }
        Ok(ahead_of(rows))
    }

    /// The same, where the node's layer is the lowest that is open, and nothing stands below it.
    fn pass_open(
        &mut self,
        layer: u16,
        depth: u16,
        rows: &mut KeyedEntries<'a, A>,
        changes: &[HashedChange<'_, D>],
    ) -> Result<Ahead, DraftFault>
        requires ascending { are_ascending changes.now ≡ true }
        requires open { length self.old.levels.items ≡ depth + 1 }
        requires clear { self.old.rest ≡ None }
        ensures { IsPassing layer depth changes.now rows.old.rest self.old self.new
            (λ next. IsPassed layer depth changes.now rows.old.rest
            (shape_at next.0 next.1 rows.new) (edge_in self.old) (edge_in self.new)) result }
    {
        let Some(mut level) = self.levels.pop() else {
            unreachable!()
        };
        let taken = copy_untouched(&mut level, layer, rows, changes)?;
        self.levels.push(level)?;
        Ok(taken)
    }

    /// The same, where all layers above the node's are open, and nothing stands below them.
    fn pass_first(
        &mut self,
        layer: u16,
        depth: u16,
        rows: &mut KeyedEntries<'a, A>,
        changes: &[HashedChange<'_, D>],
    ) -> Result<Ahead, DraftFault>
        requires ascending { are_ascending changes.now ≡ true }
        requires closed { length self.old.levels.items ≡ depth }
        requires clear { self.old.rest ≡ None }
        ensures { IsPassing layer depth changes.now rows.old.rest self.old self.new
            (λ next. IsPassed layer depth changes.now rows.old.rest
            (shape_at next.0 next.1 rows.new) (edge_in self.old) (edge_in self.new)) result }
    {
        let mut level = Writer::new(self.alloc()?);
        let taken = copy_untouched(&mut level, layer, rows, changes)?;
        if level.has_pairs() {
            self.levels.push(level)?;
        }
        Ok(taken)
    }
}
