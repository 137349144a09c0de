//! Files of each form, and what is written of them.
use crate::told::{A0, CIDS, RECORDS, in_form, tells};
use difference_commands::Form;
use std::alloc::{AllocError, Global};
use std::test::Fail;

/// The export of a repository with the key `a/b` and the record `a0`, in hexadecimal.
pub(crate) const EXPORT: &[u8] = b"\
3aa265726f6f747381d82a582500017112204fe13c1651d3f5341989e05676e35b7ffe623168b1b4b6160ebb176a5aa16b316776\
657273696f6e01d201017112204fe13c1651d3f5341989e05676e35b7ffe623168b1b4b6160ebb176a5aa16b31a6636469647364\
69643a7765623a6578616d706c652e636f6d637265766d336a7a6663696a706a327a326563736967584000010203040506070809\
0a0b0c0d0e0f101112131415161718191a1b1c1d1e1f202122232425262728292a2b2c2d2e2f303132333435363738393a3b3c3d\
3e3f6464617461d82a58250001711220ea510b542758b8fd5520b1fef9aa56486908f28895369e3a5764e2060bba581564707265\
76f66776657273696f6e036301711220ea510b542758b8fd5520b1fef9aa56486908f28895369e3a5764e2060bba5815a2616581\
a4616b43612f626170006174f66176d82a58250001711220c19a797fa1fd590cd2e5b42d1cf5f246e29b91684e2f87404b81dc34\
5c7a56a0616cf62501711220c19a797fa1fd590cd2e5b42d1cf5f246e29b91684e2f87404b81dc345c7a56a0a0";

/// The listing of the same repository.
fn listing(alloc: Global, key: &str) -> Result<Vec<u8>, AllocError> {
    let mut line = Vec::new(alloc);
    line.extend_from_slice(key.as_bytes())?;
    line.push(b' ')?;
    line.extend_from_slice(A0.as_bytes())?;
    Ok(line)
}

#[test]
fn each_form_beside_each(rt: HostRuntime) -> Result<(), Fail> {
    let alloc = rt.alloc();
    let export = hex::decode(alloc, EXPORT)?;
    let listing = listing(alloc, "a/b")?;
    let lines = b"\r\na/b a161610a\na/b A0\n".as_slice();
    let files = [export.as_slice(), listing.as_slice(), lines];
    for old in files {
        for new in files {
            assert!(rt; tells(alloc, CIDS, old, new, b""));
        }
    }
    Ok(())
}

#[test]
fn what_comes_and_goes(rt: HostRuntime) -> Result<(), Fail> {
    let alloc = rt.alloc();
    let export = hex::decode(alloc, EXPORT)?;
    let listing = listing(alloc, "a/c")?;
    let comes = format!(in alloc; "change a/b {A0} -\nchange a/c - {A0}\n")?;
    assert!(rt; tells(alloc, CIDS, &export, &listing, comes.as_bytes()));
    let goes = format!(in alloc; "change a/b - {A0}\nchange a/c {A0} -\n")?;
    assert!(rt; tells(alloc, CIDS, &listing, &export, goes.as_bytes()));
    let all = format!(in alloc; "change a/b {A0} -\n")?;
    assert!(rt; tells(alloc, CIDS, &export, b"", all.as_bytes()));
    assert!(rt; tells(alloc, CIDS, b"", b"\n\n", b""));
    Ok(())
}

#[test]
fn records_beside_their_cids(rt: HostRuntime) -> Result<(), Fail> {
    let alloc = rt.alloc();
    let export = hex::decode(alloc, EXPORT)?;
    let text = format!(in alloc; "change a/b {A0} - a0 -\nchange a/c - {A0} - a0\n")?;
    assert!(rt; tells(alloc, RECORDS, &export, b"a/c a0", text.as_bytes()));
    assert!(rt; tells(alloc, RECORDS, &export, b"a/b a0", b""));
    Ok(())
}

#[test]
fn a_form_that_is_told(rt: HostRuntime) -> Result<(), Fail> {
    let alloc = rt.alloc();
    let export = hex::decode(alloc, EXPORT)?;
    let listing = listing(alloc, "a/b")?;
    assert!(rt; tells(alloc, in_form(Form::Car), &export, &export, b""));
    assert!(rt; tells(alloc, in_form(Form::Listing), &listing, &listing, b""));
    assert!(rt; tells(alloc, in_form(Form::Records), b"a/b a0", b"a/b a0", b""));
    assert!(rt; !tells(alloc, in_form(Form::Car), &listing, &listing, b""));
    assert!(rt; !tells(alloc, in_form(Form::Records), &listing, &listing, b""));
    Ok(())
}
