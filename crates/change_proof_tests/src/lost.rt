//! A root that no pairs have: behind `posts/22` hangs the whole old tree, also `posts/10`, which stands before it.

use change_proofs::{ChangeFault, KeyChange, are_key_changes, verify_change, verify_inversion};
use cid::{Cid, Sha256};

/// The node after: the key that came, and behind it the node before.
const TOP: &[u8] =
    b"\xa2\x61\x65\x81\xa4\x61\x6b\x48posts/22\x61\x70\x00\x61\x74\xd8\x2a\x58\x25\x00\x01\x71\x12\x20\x31\x06\xc5\xfc\x76\xb0\xb9\x19\x90\x76\xb5\x94\x39\x14\x8a\xe1\x73\x98\xa0\x01\x70\x6f\xd5\x1c\x76\x76\xa7\x65\x42\xdd\x1b\xa8\x61\x76\xd8\x2a\x58\x25\x00\x01\x71\x12\x20\xc1\x9a\x79\x7f\xa1\xfd\x59\x0c\xd2\xe5\xb4\x2d\x1c\xf5\xf2\x46\xe2\x9b\x91\x68\x4e\x2f\x87\x40\x4b\x81\xdc\x34\x5c\x7a\x56\xa0\x61\x6c\xf6";

/// The node before: `posts/10` and `posts/23`.
const OLD: &[u8] =
    b"\xa2\x61\x65\x82\xa4\x61\x6b\x48posts/10\x61\x70\x00\x61\x74\xf6\x61\x76\xd8\x2a\x58\x25\x00\x01\x71\x12\x20\xc1\x9a\x79\x7f\xa1\xfd\x59\x0c\xd2\xe5\xb4\x2d\x1c\xf5\xf2\x46\xe2\x9b\x91\x68\x4e\x2f\x87\x40\x4b\x81\xdc\x34\x5c\x7a\x56\xa0\xa4\x61\x6b\x42\x32\x33\x61\x70\x06\x61\x74\xf6\x61\x76\xd8\x2a\x58\x25\x00\x01\x71\x12\x20\xc1\x9a\x79\x7f\xa1\xfd\x59\x0c\xd2\xe5\xb4\x2d\x1c\xf5\xf2\x46\xe2\x9b\x91\x68\x4e\x2f\x87\x40\x4b\x81\xdc\x34\x5c\x7a\x56\xa0\x61\x6c\xf6";

#[test]
fn a_root_of_no_pairs_is_no_step(rt: HostRuntime) {
    let alloc = rt.alloc();
    let before = Cid::of::<Sha256>(OLD);
    let after = Cid::of::<Sha256>(TOP);
    assert!(rt; before.text() == *b"bafyreibra3c7y5vqxemza5vvsq4rjcxboomkaalqn7kry5twu5sufxi3va");
    assert!(rt; after.text() == *b"bafyreiamyktrst25ugxe3gjv45l42ivflm2wpqfg45drkoh35woe6wiubm");
    let changes = [KeyChange {
        key: b"posts/22".as_slice(),
        before: None,
        after: Some(Cid::of::<Sha256>(b"\xa0")),
    }];
    assert!(rt; are_key_changes(&changes));
    let blocks = [TOP, OLD];
    let undone = verify_inversion::<Sha256, 2, _, _>(alloc, before, after, &blocks, &changes);
    assert!(rt; matches!(undone, Ok(())));
    let done = verify_change::<Sha256, 2, _, _>(alloc, before, after, &blocks, &changes);
    assert!(rt; matches!(done, Err(ChangeFault::OtherRoot)));
}
