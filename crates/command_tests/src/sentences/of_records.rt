//! What is said of a record that is none, and of one in a file.
use crate::sentences::explained::is_explained;
use batches::{RefusalName, RepoFault};
use cid::Sha256;
use dagcbor::CborFault;
use export_commands::ExportFault as TextOfExportFault;
use repository_check::{CheckFault, RecordFault};

#[test]
fn faults_of_a_record(rt: HostRuntime) {
    let rows = [
        (
            CborFault::Truncated,
            "BadRecord(Truncated)",
            "the bytes end inside an item",
        ),
        (
            CborFault::LongHead,
            "BadRecord(LongHead)",
            "a head is longer than its number needs",
        ),
        (
            CborFault::Indefinite,
            "BadRecord(Indefinite)",
            "an item has no definite length",
        ),
        (
            CborFault::BadTag,
            "BadRecord(BadTag)",
            "a tag other than 42, the one of links",
        ),
        (
            CborFault::BadLink,
            "BadRecord(BadLink)",
            "a link holds no CID",
        ),
        (
            CborFault::KeyNotText,
            "BadRecord(KeyNotText)",
            "the key of a map is no text",
        ),
        (
            CborFault::KeyOrder,
            "BadRecord(KeyOrder)",
            "the keys of a map are not distinct and in order",
        ),
        (
            CborFault::BadUtf8,
            "BadRecord(BadUtf8)",
            "a text is not UTF-8",
        ),
        (
            CborFault::Float,
            "BadRecord(Float)",
            "a floating-point number",
        ),
        (
            CborFault::Simple,
            "BadRecord(Simple)",
            "a simple value other than false, true and null",
        ),
        (
            CborFault::IntegerRange,
            "BadRecord(IntegerRange)",
            "a whole number does not fit 64 bits with a sign",
        ),
        (
            CborFault::TooDeep,
            "BadRecord(TooDeep)",
            "lists and maps lie more than 64 levels deep",
        ),
        (
            CborFault::Trailing,
            "BadRecord(Trailing)",
            "bytes follow the value",
        ),
        (CborFault::NoMemory, "BadRecord(NoMemory)", "out of memory"),
    ];
    for (fault, name, sentence) in &rows {
        let refusal: RepoFault<Sha256> = RepoFault::BadRecord(*fault);
        let told = format!(in rt.alloc(); "{fault}").expect(&rt, "memory");
        let named = format!(in rt.alloc(); "{}", RefusalName(&refusal)).expect(&rt, "memory");
        assert!(rt;
            told.as_str() == *sentence && named.as_str() == *name,
            "{named}: {told}"
        );
        assert!(rt; is_explained(*name, *sentence), "{named}");
    }
}

#[test]
fn faults_of_a_record_of_a_file(rt: HostRuntime) {
    let rows = [
        (
            RecordFault::BadKey,
            "record 7: BadKey",
            "record 7: the key is not that of a record",
        ),
        (
            RecordFault::NoRecord,
            "record 7: NoRecord",
            "record 7: the record is not in the file",
        ),
        (
            RecordFault::RecordSize,
            "record 7: RecordSize",
            "record 7: the record is too long",
        ),
        (
            RecordFault::BadRecord(CborFault::Float),
            "record 7: BadRecord(Float)",
            "record 7: the record is not DAG-CBOR: a floating-point number",
        ),
        (
            RecordFault::NotAMap,
            "record 7: NotAMap",
            "record 7: the record is not a map",
        ),
    ];
    for (fault, name, sentence) in &rows {
        let checked = CheckFault::Record(7, *fault);
        let told = format!(in rt.alloc(); "{checked}").expect(&rt, "memory");
        let text = TextOfExportFault::Check(checked);
        let named = format!(in rt.alloc(); "{text}").expect(&rt, "memory");
        assert!(rt;
            told.as_str() == *sentence && named.as_str() == *name,
            "{named}: {told}"
        );
    }
    assert!(rt; is_explained("NoRecord", "the record is not in the file"));
}
