//! What is said of a file that is no export.
use crate::sentences::explained::is_explained;
use car_reader::CarFault as FileFault;
use export_commands::ExportFault as TextOfExportFault;
use repository_check::CheckFault;
use signed_commits::CommitFault;

#[test]
fn faults_of_a_file(rt: HostRuntime) {
    let rows = [
        (
            CheckFault::Car(FileFault::BadHeader),
            "Car(BadHeader)",
            "the file does not begin as a CAR with one root",
        ),
        (
            CheckFault::Car(FileFault::BadLength),
            "Car(BadLength)",
            "the length of a section is not a number in its shortest form",
        ),
        (
            CheckFault::Car(FileFault::Truncated),
            "Car(Truncated)",
            "the file ends within a section",
        ),
        (
            CheckFault::Car(FileFault::BadCid),
            "Car(BadCid)",
            "a section does not begin with a CID of a block",
        ),
        (
            CheckFault::Misnamed,
            "Misnamed",
            "the CID of a section is not that of its block",
        ),
        (
            CheckFault::NoCommit,
            "NoCommit",
            "the root is not in the file",
        ),
        (
            CheckFault::Commit(CommitFault::NotACommit),
            "Commit(NotACommit)",
            "the bytes are not those of a signed commit",
        ),
        (
            CheckFault::Commit(CommitFault::BadDid),
            "Commit(BadDid)",
            "the DID is not one",
        ),
        (
            CheckFault::Commit(CommitFault::BadRev),
            "Commit(BadRev)",
            "the revision is not a timestamp identifier",
        ),
        (
            CheckFault::NotTheTree,
            "NotTheTree",
            "the file does not have a whole tree under its commit",
        ),
    ];
    for (fault, name, sentence) in &rows {
        let told = format!(in rt.alloc(); "{fault}").expect(&rt, "memory");
        let text = TextOfExportFault::Check(*fault);
        let named = format!(in rt.alloc(); "{text}").expect(&rt, "memory");
        assert!(rt;
            told.as_str() == *sentence && named.as_str() == *name,
            "{named}: {told}"
        );
        assert!(rt; is_explained(*name, *sentence), "{named}");
    }
}
