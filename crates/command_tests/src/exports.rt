//! The commands on an export, by their values. The file comes from a program in another language
//! (examples/make_export.py), and not from the commands.
use crate::running::{joined, run};
use std::alloc::Global;
use std::process::Abort;
use std::random::RandomSource;
use std::sync::Wait;
use std::thread::Threads;

/// The export of a repository with the key `a/b` and the record `a0`: the signature is 64 bytes from 0 on.
const FILE: &[&str] = &[
    "3aa265726f6f747381d82a582500017112204fe13c1651d3f5341989e05676e35b7ffe623168b1b4b6160ebb176a5aa16b316776",
    "657273696f6e01d201017112204fe13c1651d3f5341989e05676e35b7ffe623168b1b4b6160ebb176a5aa16b31a6636469647364",
    "69643a7765623a6578616d706c652e636f6d637265766d336a7a6663696a706a327a326563736967584000010203040506070809",
    "0a0b0c0d0e0f101112131415161718191a1b1c1d1e1f202122232425262728292a2b2c2d2e2f303132333435363738393a3b3c3d",
    "3e3f6464617461d82a58250001711220ea510b542758b8fd5520b1fef9aa56486908f28895369e3a5764e2060bba581564707265",
    "76f66776657273696f6e036301711220ea510b542758b8fd5520b1fef9aa56486908f28895369e3a5764e2060bba5815a2616581",
    "a4616b43612f626170006174f66176d82a58250001711220c19a797fa1fd590cd2e5b42d1cf5f246e29b91684e2f87404b81dc34",
    "5c7a56a0616cf62501711220c19a797fa1fd590cd2e5b42d1cf5f246e29b91684e2f87404b81dc345c7a56a0a0",
];

/// How many bytes of it are the header, and how many are then the sections of the commit, of the node and of the record.
const HEADER: usize = 59;

const COMMIT: usize = 212;

const NODE: usize = 100;

/// What `commit` writes of it.
const SIGNED: &[&str] = &[
    "a563646964736469643a7765623a6578616d706c652e636f6d637265766d336a7a6663696a706a327a32656464617461d82a5825",
    "0001711220ea510b542758b8fd5520b1fef9aa56486908f28895369e3a5764e2060bba58156470726576f66776657273696f6e03",
    "\n",
    "000102030405060708090a0b0c0d0e0f101112131415161718191a1b1c1d1e1f202122232425262728292a2b2c2d2e2f30313233",
    "3435363738393a3b3c3d3e3f",
    "\n",
];

/// The command that writes the file.
const SIGN: &[&str] = &[
    "msthost",
    "car",
    "--did",
    "did:web:example.com",
    "--rev",
    "3jzfcijpj2z2e",
    "--sig",
    "000102030405060708090a0b0c0d0e0f101112131415161718191a1b1c1d1e1f202122232425262728292a2b2c2d2e2f303132333435363738393A3B3C3D3E3F",
];

/// The bytes of the file.
pub(crate) fn file<R: Abort>(rt: &R, alloc: Global) -> Vec<u8> {
    let digits = joined(alloc, FILE).expect(rt, "memory for the digits");
    hex::decode(alloc, &digits).expect(rt, "a file in hexadecimal")
}

/// Whether a command on the file writes this.
fn tells<T: Threads + Wait + RandomSource + Abort + Sync>(
    rt: &T,
    alloc: Global,
    words: &[&str],
    text: &[&str],
) -> bool {
    let text = joined(alloc, text).expect(rt, "memory for the text");
    run(rt, alloc, words, &file(rt, alloc)).is(0, &text, "")
}

#[test]
fn what_the_commands_tell(rt: HostRuntime) {
    let summary = [
        "did:web:example.com 3jzfcijpj2z2e ",
        "bafyreihkkefvij2yxd6vkifr7342uvsineepfcevg2pduv3e4idaxosycu 1\n",
    ];
    let cids = ["a/b bafyreigbtj4x7ip5legnfznufuopl4sg4knzc2cof6duas4b3q2fy6swua\n"];
    assert!(rt; tells(&rt, rt.alloc(), &["msthost", "check"], &summary));
    assert!(rt; tells(&rt, rt.alloc(), &["msthost", "records"], &["a/b a0\n"]));
    assert!(rt; tells(&rt, rt.alloc(), &["msthost", "records", "--cids"], &cids));
    assert!(rt; tells(&rt, rt.alloc(), &["msthost", "commit"], SIGNED));
}

/// The file that `car` writes with this signature is the one that the other program made.
#[test]
fn a_signed_file_is_written_and_read_back(rt: HostRuntime) {
    let alloc = rt.alloc();
    let written = run(&rt, alloc, SIGN, b"a/b a0\n");
    assert!(rt; written.is(0, &file(&rt, alloc), ""));
    let told = joined(alloc, SIGNED).expect(&rt, "memory for the text");
    assert!(rt; run(&rt, alloc, &["msthost", "commit"], &written.out).is(0, &told, ""));
}

/// Whether each command refuses a file with this word.
fn is_refused<T: Threads + Wait + RandomSource + Sync>(
    rt: &T,
    alloc: Global,
    file: &[u8],
    told: &str,
) -> bool {
    for command in ["check", "records", "commit"] {
        if !run(rt, alloc, &["msthost", command], file).is(1, b"", told) {
            return false;
        }
    }
    true
}

/// Whether the file with these bytes behind it is refused so.
fn is_refused_with<T: Threads + Wait + RandomSource + Abort + Sync>(
    rt: &T,
    alloc: Global,
    more: &[u8],
    told: &str,
) -> bool {
    let mut bytes = file(rt, alloc);
    bytes
        .extend_from_slice(more)
        .expect(rt, "memory for some bytes more");
    is_refused(rt, alloc, &bytes, told)
}

/// Whether so many of the file's bytes are refused so.
fn is_refused_at<T: Threads + Wait + RandomSource + Abort + Sync>(
    rt: &T,
    alloc: Global,
    length: usize,
    told: &str,
) -> bool {
    let bytes = file(rt, alloc);
    match bytes.get(..length) {
        Some(front) => is_refused(rt, alloc, front, told),
        None => false,
    }
}

#[test]
fn files_that_are_no_car(rt: HostRuntime) {
    let alloc = rt.alloc();
    assert!(rt; is_refused(&rt, alloc, b"a/b a0\n", "msthost: Car(BadHeader)\n"));
    assert!(rt; is_refused(&rt, alloc, b"", "msthost: Car(BadHeader)\n"));
    assert!(rt; is_refused_with(&rt, alloc, b"\x80\0", "msthost: Car(BadLength)\n"));
    assert!(rt; is_refused_with(&rt, alloc, b"\x01\0", "msthost: Car(BadCid)\n"));
    assert!(rt;
        is_refused_at(
            &rt,
            alloc,
            HEADER + COMMIT + NODE + 20,
            "msthost: Car(Truncated)\n"
        )
    );
}

#[test]
fn files_that_are_no_export(rt: HostRuntime) {
    let alloc = rt.alloc();
    let mut other = file(&rt, alloc);
    if let Some(last) = other.last_mut() {
        *last = 0xa1;
    }
    assert!(rt; is_refused(&rt, alloc, &other, "msthost: Misnamed\n"));
    assert!(rt; is_refused_at(&rt, alloc, HEADER, "msthost: NoCommit\n"));
    assert!(rt; is_refused_at(&rt, alloc, HEADER + COMMIT, "msthost: NotTheTree\n"));
    assert!(rt;
        is_refused_at(
            &rt,
            alloc,
            HEADER + COMMIT + NODE,
            "msthost: record 0: NoRecord\n"
        )
    );
}

/// What `car` writes has a commit that isn't signed.
#[test]
fn a_commit_that_is_not_signed(rt: HostRuntime) {
    let car = run(&rt, rt.alloc(), &["msthost", "car"], b"a/b a0\n");
    assert!(rt; car.status == 0);
    assert!(rt; is_refused(&rt, rt.alloc(), &car.out, "msthost: Commit(NotACommit)\n"));
}
