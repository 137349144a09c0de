//! Two lists of pairs compared.

ghost use Rattle.std.specs.Prelude.{◌≡◌, ◌↔◌, ◌+◌, ◌<◌, ◌∷◌, [], length, IsTrue, IfSome, IfNone, IfOk, IfErr};
ghost use Rattle.edit_laws.specs.Pairs.{Ascending};
ghost use Rattle.difference_laws.specs.Laws.{IsDifference};
ghost use Rattle.difference.specs.Merged.{AreLast, IsLastOf, IsUnsorted, greatest_of, pairs_in, changes_told};

use crate::faults::DifferenceFault;
use crate::keys::Key;
use crate::line::Row;
use crate::outcome::KeyDifference;
use cid::Cid;
use std::alloc::Allocator;
use std::clone::Clone;
use std::cmp::Ordering;

/// The greatest key of two lists, with what each has of it.
#[derive(Drop)]
struct Greatest<A: Allocator> {
    key: Key<A>,
    before: Option<Cid>,
    after: Option<Cid>,
}

/// The pairs whose keys differ between two lists, in the order of the keys; `NotTree` where keys don't ascend.
pub(crate) fn merged<A: Allocator + Clone>(
    alloc: A,
    old: Vec<Row<A>, A>,
    new: Vec<Row<A>, A>,
) -> Result<Vec<KeyDifference<A>, A>, DifferenceFault>
    ensures changes { IfOk result (λ changes. IsDifference (changes_told changes.items)
        (pairs_in old.items) (pairs_in new.items)) }
    ensures ascending { IfOk result (λ changes. Ascending (pairs_in old.items)
        × Ascending (pairs_in new.items)) }
    ensures fault { IfErr result (IsUnsorted (pairs_in old.items) (pairs_in new.items)) }
{
    if !is_ascending(&old) || !is_ascending(&new) {
        return Err(DifferenceFault::NotTree);
    }
    let mut changes = Vec::new(alloc.clone()?);
    let mut old = old;
    let mut new = new;
    'rows: while let Some(last) = take_last(&mut old, &mut new) {
        if is_kept(&last) {
            continue;
        }
        let Greatest { key, before, after } = last;
        let key = key.into_vec(alloc.clone()?)?;
        changes.push(KeyDifference { key, before, after })?;
    }
    changes.reverse();
    Ok(changes)
}

/// Whether a key has the same in both.
fn is_kept<A: Allocator>(last: &Greatest<A>) -> bool
    ensures { IsTrue result ↔ (last.now.before ≡ last.now.after) }
{
    match (last.before, last.after) {
        (None, None) => true,
        (None, Some(_)) => false,
        (Some(_), None) => false,
        (Some(before), Some(after)) => before.is_same(&after),
    }
}

/// The greatest key goes from two lists, with what it has in each; `None` where both are empty.
fn take_last<A: Allocator>(
    old: &mut Vec<Row<A>, A>,
    new: &mut Vec<Row<A>, A>,
) -> Option<Greatest<A>>
    ensures last { IfSome result (λ last.
        IsLastOf (pairs_in old.old.items) (pairs_in new.old.items)
        (pairs_in old.new.items) (pairs_in new.new.items) (greatest_of last)) }
    ensures less { IfSome result (λ last. length old.new.items + length new.new.items
        < length old.old.items + length new.old.items) }
    ensures old_empty { IfNone result (old.old.items ≡ []) }
    ensures new_empty { IfNone result (new.old.items ≡ []) }
{
    match last_order(old, new)? {
        Ordering::Less => {
            let row = new.pop()?;
            Some(Greatest {
                key: row.key,
                before: None,
                after: Some(row.value),
            })
        }
        Ordering::Equal => {
            let row = old.pop()?;
            let other = new.pop()?;
            Some(Greatest {
                key: row.key,
                before: Some(row.value),
                after: Some(other.value),
            })
        }
        Ordering::Greater => {
            let row = old.pop()?;
            Some(Greatest {
                key: row.key,
                before: Some(row.value),
                after: None,
            })
        }
    }
}

/// How the last keys stand to each other: which list has the greater one; `None` where both are empty.
fn last_order<A: Allocator>(old: &[Row<A>], new: &[Row<A>]) -> Option<Ordering>
    ensures last { IfSome result (AreLast (pairs_in old.now) (pairs_in new.now)) }
    ensures old_empty { IfNone result (old.now ≡ []) }
    ensures new_empty { IfNone result (new.now ≡ []) }
{
    let [.., x] = old else {
        return if new.is_empty() {
            None
        } else {
            Some(Ordering::Less)
        };
    };
    let [.., y] = new else {
        return Some(Ordering::Greater);
    };
    Some(x.key.bytes().cmp(y.key.bytes()))
}

/// Whether keys ascend strictly.
fn is_ascending<A: Allocator>(rows: &[Row<A>]) -> bool
    ensures { IsTrue result ↔ Ascending (pairs_in rows.now) }
{
    let mut left = rows.len();
    while left > 0 {
        left -= 1;
        if !comes_first(&rows[left], &rows[left + 1..]) {
            return false;
        }
    }
    true
}

/// Whether a pair can come before these, whose keys ascend.
fn comes_first<A: Allocator>(row: &Row<A>, others: &[Row<A>]) -> bool
    ensures { Ascending (pairs_in others.now)
        → (IsTrue result ↔ Ascending (pairs_in (row.now ∷ others.now))) }
{
    let [next, ..] = others else {
        return true;
    };
    next.key.bytes().cmp(row.key.bytes()).is_gt()
}
