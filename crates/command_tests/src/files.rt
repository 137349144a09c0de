//! The files that `car` writes, by their values. The bytes come from a program in another language.
use crate::running::{joined, run};
use std::alloc::Global;
use std::random::RandomSource;
use std::sync::Wait;
use std::thread::Threads;

/// The file of a repository without writes.
const EMPTY_CAR: &[&str] = &[
    "3aa265726f6f747381d82a582500017112209dfefe61dd76ea3dcae5023880b08379d57adf20482d6fdbe2759289f647677b6776",
    "657273696f6e012b017112209dfefe61dd76ea3dcae5023880b08379d57adf20482d6fdbe2759289f647677ba2616580616cf6",
];

/// The file of a repository with the key `a/b` and the record `a0`, under the stamp that no word names.
const CAR: &[&str] = &[
    "3aa265726f6f747381d82a5825000171122011ae1b37c502e9d8eaa2b77b071266bb63250b58ae2298ac825f9fbd295cbc336776",
    "657273696f6e018a010171122011ae1b37c502e9d8eaa2b77b071266bb63250b58ae2298ac825f9fbd295cbc33a5636469647164",
    "69643a7765623a6c6f63616c686f7374637265766d323232323232323232323232326464617461d82a58250001711220ea510b54",
    "2758b8fd5520b1fef9aa56486908f28895369e3a5764e2060bba58156470726576f66776657273696f6e036301711220ea510b54",
    "2758b8fd5520b1fef9aa56486908f28895369e3a5764e2060bba5815a2616581a4616b43612f626170006174f66176d82a582500",
    "01711220c19a797fa1fd590cd2e5b42d1cf5f246e29b91684e2f87404b81dc345c7a56a0616cf62501711220c19a797fa1fd590c",
    "d2e5b42d1cf5f246e29b91684e2f87404b81dc345c7a56a0a0",
];

/// The same under the stamp `did:web:a.b`, `3jzfcijpj2z2a`.
const NAMED_CAR: &[&str] = &[
    "3aa265726f6f747381d82a58250001711220ea41e6ffb5318bd020b75a7eed8a54cdad7d62edd24aa50a3decc029a074b2686776",
    "657273696f6e01840101711220ea41e6ffb5318bd020b75a7eed8a54cdad7d62edd24aa50a3decc029a074b268a5636469646b64",
    "69643a7765623a612e62637265766d336a7a6663696a706a327a32616464617461d82a58250001711220ea510b542758b8fd5520",
    "b1fef9aa56486908f28895369e3a5764e2060bba58156470726576f66776657273696f6e036301711220ea510b542758b8fd5520",
    "b1fef9aa56486908f28895369e3a5764e2060bba5815a2616581a4616b43612f626170006174f66176d82a58250001711220c19a",
    "797fa1fd590cd2e5b42d1cf5f246e29b91684e2f87404b81dc345c7a56a0616cf62501711220c19a797fa1fd590cd2e5b42d1cf5",
    "f246e29b91684e2f87404b81dc345c7a56a0a0",
];

/// `car` under that stamp.
const NAMED: &[&str] = &[
    "msthost",
    "car",
    "--rev",
    "3jzfcijpj2z2a",
    "--did",
    "did:web:a.b",
];

/// Inputs, and the files of them, in hexadecimal.
static FILES: [(&[&str], &[u8], &[&str]); 7] = [
    (&["msthost", "car"], b"", EMPTY_CAR),
    (&["msthost", "car"], b"\n\r\n", EMPTY_CAR),
    (&["msthost", "car"], b"a/b a0", CAR),
    (&["msthost", "car"], b"\na/b a0\r\n\n", CAR),
    (&["msthost", "car"], b"a/b A161610a\na/b A0\n", CAR),
    (NAMED, b"a/b a0", NAMED_CAR),
    (NAMED, b"", EMPTY_CAR),
];

/// Whether these are the digits of such bytes.
fn are_digits_of(alloc: Global, digits: &[u8], bytes: &[u8]) -> bool {
    match hex::encode(alloc, bytes) {
        Ok(text) => text.as_bytes() == digits,
        Err(_) => false,
    }
}

/// Whether a command on this input writes this file, and is done.
fn has_file<T: Threads + Wait + RandomSource + Sync>(
    rt: &T,
    alloc: Global,
    words: &[&str],
    input: &[u8],
    digits: &[&str],
) -> bool {
    let ended = run(rt, alloc, words, input);
    match joined(alloc, digits) {
        Ok(digits) => { ended.is(0, &ended.out, "") && are_digits_of(alloc, &digits, &ended.out) }
        Err(_) => false,
    }
}

#[test]
fn files(rt: HostRuntime) {
    for (words, input, digits) in &FILES {
        assert!(rt;
            has_file(&rt, rt.alloc(), words, input, digits),
            "of {input:?}"
        );
    }
}
