//! Whether two operations have one key.

ghost use Rattle.std.specs.Prelude.{◌≡◌, []};
ghost use Rattle.std.specs.Str.{bytes_eq};
ghost use Rattle.event_laws.specs.Verdict.{doubled_after, is_seen};
ghost use Rattle.commit_events.specs.Order.{keys_of};

use key_changes::KeyChange;

/// Whether an operation is of this key.
fn is_of(op: &KeyChange<'_>, key: &[u8]) -> bool
    ensures { result ≡ bytes_eq op.now.key key.now }
{
    op.key == key
}

/// Whether one of the operations is of this key.
fn has_key(ops: &[KeyChange<'_>], key: &[u8]) -> bool
    ensures { result ≡ is_seen (keys_of ops.now) key.now }
{
    for op in ops {
        if is_of(op, key) {
            return true;
        }
    }
    false
}

/// The place of the first operation that has the key of one before it, or `None`. A message has few enough of them that each
/// can be compared with all.
pub(crate) fn doubled(ops: &[KeyChange<'_>]) -> Option<usize>
    ensures { result ≡ doubled_after [] 0 ops.now }
{
    for (place, op) in ops.iter().enumerate() {
        if has_key(&ops[..place], op.key) {
            return Some(place);
        }
    }
    None
}
