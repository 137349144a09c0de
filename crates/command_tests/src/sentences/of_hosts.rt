//! What is said of hosts, of what they export, and of their close.
use crate::sentences::explained::is_explained;
use batches::RepoFault;
use cid::Sha256;
use closing::Mismatch;
use export::ExportFault;
use host::{ApplyFromFault, HostFault, OpenFault};
use host_exports::{CarFault, PrepareFault, ProveChangeFault, ProveFault, ProveInversionFault};
use std::alloc::{AllocError, Global};

#[test]
fn faults_of_an_export(rt: HostRuntime) {
    let rows = [
        (ExportFault::DeviceFault, "the output failed"),
        (ExportFault::NoMemory, "no memory"),
    ];
    for (fault, sentence) in &rows {
        let told = format!(in rt.alloc(); "{fault}").expect(&rt, "memory");
        let car = CarFault::Export(*fault);
        let of_host = format!(in rt.alloc(); "{car}").expect(&rt, "memory");
        assert!(rt;
            told.as_str() == *sentence && of_host.as_str() == *sentence,
            "{told}"
        );
    }
}

#[test]
fn faults_of_a_host(rt: HostRuntime) {
    let rows: [(HostFault<Sha256>, &'static str); 4] = [
        (HostFault::NoSuchRepository, "there is no such repository"),
        (
            HostFault::Refused(2, RepoFault::BadDid),
            "the batch is refused at write 2",
        ),
        (HostFault::NoMemory, "out of memory"),
        (
            HostFault::SeqFull,
            "the writer has no number for one more accepted call",
        ),
    ];
    for (fault, sentence) in &rows {
        let told = format!(in rt.alloc(); "{fault}").expect(&rt, "memory");
        assert!(rt; told.as_str() == *sentence, "{told}");
    }
    assert!(rt; is_explained("NoSuchRepository", "there is no such repository"));
    assert!(rt;
        is_explained(
            "SeqFull",
            "the writer has no number for one more accepted call"
        )
    );
}

#[test]
fn faults_of_a_batch_from_a_root(rt: HostRuntime) {
    let rows: [(ApplyFromFault<Sha256>, &'static str); 2] = [
        (ApplyFromFault::OtherRoot, "the repository has another root"),
        (
            ApplyFromFault::Host(HostFault::Refused(3, RepoFault::BadRev)),
            "the batch is refused at write 3",
        ),
    ];
    for (fault, sentence) in &rows {
        let told = format!(in rt.alloc(); "{fault}").expect(&rt, "memory");
        assert!(rt; told.as_str() == *sentence, "{told}");
    }
}

#[test]
fn faults_of_a_batch_that_is_not_told(rt: HostRuntime) {
    let rows: [(PrepareFault<Sha256>, &'static str); 2] = [
        (
            PrepareFault::NoSuchRepository,
            "there is no such repository",
        ),
        (
            PrepareFault::Refused(1, RepoFault::NoMemory),
            "the batch is refused at write 1",
        ),
    ];
    for (fault, sentence) in &rows {
        let told = format!(in rt.alloc(); "{fault}").expect(&rt, "memory");
        assert!(rt; told.as_str() == *sentence, "{told}");
    }
}

#[test]
fn faults_of_a_host_that_is_not_opened(rt: HostRuntime) {
    let rows = [
        (OpenFault::BadRepos, "not 1 to 1,024 repositories"),
        (OpenFault::BadWriters, "not 1 to 64 writers"),
        (OpenFault::BadQueue, "not 1 to 65,536 notices"),
        (OpenFault::BadBlocks, "not 1 to 1,048,576 blocks a shard"),
        (
            OpenFault::BadWrites,
            "not 1 to 1,048,576 writes a repository",
        ),
        (OpenFault::NoMemory, "out of memory"),
    ];
    for (fault, sentence) in &rows {
        let told = format!(in rt.alloc(); "{fault}").expect(&rt, "memory");
        assert!(rt; told.as_str() == *sentence, "{told}");
    }
}

/// What the faults of a host's CAR, of its proofs of keys and of its proofs of changes say.
fn told_of_exports(alloc: Global) -> Result<[String; 10], AllocError> {
    Ok([
        format!(in alloc; "{}", CarFault::NoSuchRepository)?,
        format!(in alloc; "{}", ProveFault::NoSuchRepository)?,
        format!(in alloc; "{}", ProveFault::NoMemory)?,
        format!(in alloc; "{}", ProveChangeFault::NoSuchRepository)?,
        format!(in alloc; "{}", ProveChangeFault::OtherRoot)?,
        format!(in alloc; "{}", ProveChangeFault::NoMemory)?,
        format!(in alloc; "{}", ProveInversionFault::NoSuchRepository)?,
        format!(in alloc; "{}", ProveInversionFault::OtherRoot)?,
        format!(in alloc; "{}", ProveInversionFault::OtherValue(7))?,
        format!(in alloc; "{}", ProveInversionFault::NoMemory)?,
    ])
}

#[test]
fn faults_of_what_a_host_exports(rt: HostRuntime) {
    let wanted = [
        "there is no such repository",
        "there is no such repository",
        "out of memory",
        "there is no such repository",
        "the repository has another root",
        "out of memory",
        "there is no such repository",
        "the repository has another root",
        "the key of change 7 has another value",
        "out of memory",
    ];
    let told = told_of_exports(rt.alloc()).expect(&rt, "memory");
    for (told, wanted) in told.iter().zip(&wanted) {
        assert!(rt; told.as_str() == *wanted, "{told}");
    }
}

#[test]
fn faults_of_a_close(rt: HostRuntime) {
    let rows = [
        (Mismatch::Numbers, "a repository's number is not its place"),
        (
            Mismatch::Counts,
            "the cores entered for a block are not those that have it",
        ),
        (
            Mismatch::Lists,
            "a repository has fewer writes than a writer has seen",
        ),
    ];
    for (fault, sentence) in &rows {
        let told = format!(in rt.alloc(); "{fault}").expect(&rt, "memory");
        assert!(rt; told.as_str() == *sentence, "{told}");
    }
}
