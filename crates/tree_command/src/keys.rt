//! Which keys a listing takes.
ghost use Rattle.std.specs.Prelude.{◌≡◌};
ghost use Rattle.tree_command.specs.TreeText.{is_taken as is_taken_of};

use batches::is_repository_key;
use scratch::is_key;

/// Which keys a listing takes. A line with another key is faulty.
#[derive(Clone, Copy, PartialEq, Eq, Debug)]
pub enum Keys {
    /// Any key of a tree: 1 to 1,024 bytes.
    Any,
    /// The keys of a repository's records alone, `collection/rkey` (AT Protocol repository v3, paths).
    Paths,
}

/// Whether such a listing takes this key.
pub(crate) fn is_taken(taken: Keys, key: &[u8]) -> bool
    ensures { result ≡ is_taken_of taken key.now }
{
    match taken {
        Keys::Any => is_key(key),
        Keys::Paths => is_repository_key(key),
    }
}
