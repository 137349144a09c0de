//! What comes between two files, as a slice of a CAR file.
use crate::forms::EXPORT;
use crate::told::comes;
use std::test::Fail;

/// What comes to the key `a/b` by the key `a/c`, each with the record `a0`, in hexadecimal: the top of the new tree, which
/// links to the whole old one, and the record. A short program of its own has made it (`hashlib` of Python).
pub(crate) const SLICE: &[u8] = b"\
3aa265726f6f747381d82a582500017112205ba2900bc5c43c63297a3f5bfe01026bf180e4cd6b7acc30b41aaf4c26ce556a6776\
657273696f6e018b01017112205ba2900bc5c43c63297a3f5bfe01026bf180e4cd6b7acc30b41aaf4c26ce556aa2616581a4616b\
43612f636170006174f66176d82a58250001711220c19a797fa1fd590cd2e5b42d1cf5f246e29b91684e2f87404b81dc345c7a56\
a0616cd82a58250001711220ea510b542758b8fd5520b1fef9aa56486908f28895369e3a5764e2060bba58152501711220c19a79\
7fa1fd590cd2e5b42d1cf5f246e29b91684e2f87404b81dc345c7a56a0a0";

/// The header alone of a file whose root is the tree of the key `a/b`.
const NOTHING: &[u8] = b"\
3aa265726f6f747381d82a58250001711220ea510b542758b8fd5520b1fef9aa56486908f28895369e3a5764e2060bba58156776\
657273696f6e01";

#[test]
fn a_node_that_both_trees_have_does_not_come(rt: HostRuntime) -> Result<(), Fail> {
    let alloc = rt.alloc();
    let slice = hex::decode(alloc, SLICE)?;
    assert!(rt; comes(alloc, b"a/b a0", b"a/b a0\na/c a0", &slice));
    Ok(())
}

#[test]
fn nothing_comes(rt: HostRuntime) -> Result<(), Fail> {
    let alloc = rt.alloc();
    let nothing = hex::decode(alloc, NOTHING)?;
    assert!(rt; comes(alloc, b"a/b a0", b"a/b a0", &nothing));
    assert!(rt; comes(alloc, b"a/b a0\na/c a0", b"a/b a0", &nothing));
    Ok(())
}

#[test]
fn to_nothing_a_whole_export_comes(rt: HostRuntime) -> Result<(), Fail> {
    let alloc = rt.alloc();
    let export = hex::decode(alloc, EXPORT)?;
    assert!(rt; comes(alloc, b"", &export, &export));
    Ok(())
}
