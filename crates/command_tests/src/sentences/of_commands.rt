//! What the commands say of words, of lines and of scripts, and of reading and writing.
use crate::sentences::explained::is_explained;
use batches::RepoFault;
use cid::{CidFault, Sha256};
use console::{ReadFault, WriteFault};
use repository_commands::{LineFault, TextFault};
use run_command::{RunFault, ScriptFault};
use std::alloc::{AllocError, Global};
use tree_command::TreeFault;

#[test]
fn faults_of_a_listing(rt: HostRuntime) {
    let rows = [
        (
            tree_command::LineFault::BadLine,
            "line 7: BadLine",
            "BadLine",
            "the line has not the words that a line of this command has",
        ),
        (
            tree_command::LineFault::BadKey,
            "line 7: BadKey",
            "BadKey",
            "the key is not that of a record",
        ),
        (
            tree_command::LineFault::BadCid,
            "line 7: BadCid",
            "BadCid",
            "what follows the last space is no CID of version 1 with codec dag-cbor and hash SHA-256",
        ),
    ];
    for (fault, on_line, name, meaning) in &rows {
        let line = TreeFault::Line {
            number: 7,
            fault: *fault,
        };
        let told = format!(in rt.alloc(); "{line}").expect(&rt, "memory");
        let named = format!(in rt.alloc(); "{fault}").expect(&rt, "memory");
        assert!(rt;
            told.as_str() == *on_line && named.as_str() == *name,
            "{told}"
        );
        assert!(rt; is_explained(*name, *meaning), "{named}");
    }
}

#[test]
fn faults_without_a_line(rt: HostRuntime) {
    let rows = [
        (
            TreeFault::Clash,
            "Clash",
            "two different nodes have one CID",
        ),
        (TreeFault::NoMemory, "no memory", "memory was refused"),
        (
            TreeFault::ReadFailed,
            "read failed",
            "the input can't be read",
        ),
    ];
    for (fault, name, meaning) in &rows {
        let named = format!(in rt.alloc(); "{fault}").expect(&rt, "memory");
        assert!(rt;
            named.as_str() == *name && is_explained(*name, *meaning),
            "{named}"
        );
    }
}

#[test]
fn faults_of_a_text(rt: HostRuntime) {
    let rows: [(TextFault<Sha256>, &'static str, &'static str, &'static str); 10] = [
        (TextFault::BadDid, "BadDid", "BadDid", "the DID is not one"),
        (
            TextFault::BadRev,
            "BadRev",
            "BadRev",
            "the revision is not a timestamp identifier",
        ),
        (
            TextFault::BadSig,
            "BadSig",
            "BadSig",
            "the signature is not hexadecimal",
        ),
        (
            TextFault::NothingToSign,
            "NothingToSign",
            "NothingToSign",
            "no line puts a record, so there is no commit to sign",
        ),
        (
            TextFault::BadBefore(CidFault::BadBits),
            "BadBefore(BadBits)",
            "BadBefore",
            "the root before a change is no CID",
        ),
        (
            TextFault::BadAfter(CidFault::BadBits),
            "BadAfter(BadBits)",
            "BadAfter",
            "the root after a change is no CID",
        ),
        (
            TextFault::OtherBefore,
            "OtherBefore",
            "OtherBefore",
            "the text of the change has another root before it",
        ),
        (
            TextFault::OtherAfter,
            "OtherAfter",
            "OtherAfter",
            "the text of the change has another root after it",
        ),
        (
            TextFault::NoMemory,
            "no memory",
            "no memory",
            "memory was refused",
        ),
        (
            TextFault::ReadFailed,
            "read failed",
            "read failed",
            "the input can't be read",
        ),
    ];
    for (fault, told, name, meaning) in &rows {
        let named = format!(in rt.alloc(); "{fault}").expect(&rt, "memory");
        assert!(rt;
            named.as_str() == *told && is_explained(*name, *meaning),
            "{named}"
        );
    }
}

/// What a fault on line 7 is told as.
fn told_on_line(alloc: Global, fault: LineFault<Sha256>) -> Result<String, AllocError> {
    let line: TextFault<Sha256> = TextFault::Line { number: 7, fault };
    format!(in alloc; "{line}")
}

#[test]
fn faults_of_a_line(rt: HostRuntime) {
    let line = told_on_line(rt.alloc(), LineFault::BadLine).expect(&rt, "memory");
    assert!(rt; line.as_str() == "line 7: BadLine", "{line}");
    let value = told_on_line(rt.alloc(), LineFault::OtherValue).expect(&rt, "memory");
    assert!(rt; value.as_str() == "line 7: OtherValue", "{value}");
    let refusal = LineFault::Refused(RepoFault::KeyExists);
    let refused = told_on_line(rt.alloc(), refusal).expect(&rt, "memory");
    assert!(rt; refused.as_str() == "line 7: KeyExists", "{refused}");
}

#[test]
fn faults_of_a_run(rt: HostRuntime) {
    let rows = [
        (RunFault::BadDid, "BadDid", "BadDid", "the DID is not one"),
        (
            RunFault::BadScript(7),
            "line 7: BadScript",
            "BadScript",
            "the line is no line of a script",
        ),
        (
            RunFault::Uneven,
            "Uneven",
            "Uneven",
            "what the host's repositories and its table of blocks say of each other does not agree",
        ),
        (
            RunFault::NoMemory,
            "no memory",
            "no memory",
            "memory was refused",
        ),
        (
            RunFault::ReadFailed,
            "read failed",
            "read failed",
            "the input can't be read",
        ),
    ];
    for (fault, told, name, meaning) in &rows {
        let named = format!(in rt.alloc(); "{fault}").expect(&rt, "memory");
        assert!(rt;
            named.as_str() == *told && is_explained(*name, *meaning),
            "{named}"
        );
    }
}

#[test]
fn faults_of_a_script(rt: HostRuntime) {
    let rows = [
        (ScriptFault::BadScript(7), "line 7 is no line of a script"),
        (ScriptFault::NoMemory, "out of memory"),
    ];
    for (fault, sentence) in &rows {
        let told = format!(in rt.alloc(); "{fault}").expect(&rt, "memory");
        assert!(rt; told.as_str() == *sentence, "{told}");
    }
}

#[test]
fn faults_of_reading_and_writing(rt: HostRuntime) {
    let reads = [
        (ReadFault::NoMemory, "no memory"),
        (ReadFault::Failed, "read failed"),
    ];
    for (fault, name) in &reads {
        let told = format!(in rt.alloc(); "{fault}").expect(&rt, "memory");
        assert!(rt; told.as_str() == *name, "{told}");
    }
    let writes = [
        (WriteFault::NoMemory, "no memory", "memory was refused"),
        (
            WriteFault::Failed,
            "write failed",
            "the output can't be written",
        ),
    ];
    for (fault, name, meaning) in &writes {
        let told = format!(in rt.alloc(); "{fault}").expect(&rt, "memory");
        assert!(rt;
            told.as_str() == *name && is_explained(*name, *meaning),
            "{told}"
        );
    }
}
