//! The bytes of commits.

ghost use Rattle.spec.specs.Laws.Commits.{CommitIsMap, CommitReadsBack, CommitNamesStampAndRoot};

/// A commit is a map of `did`, `rev`, `data`, `prev` and `version`, in this order.
pub fn commit_is_a_map()
    ensures { CommitIsMap }
{}

/// A commit's bytes read as its value, in DAG-CBOR.
pub fn commit_reads_back()
    ensures { CommitReadsBack }
{}

/// A commit's bytes name its stamp and its root.
pub fn commit_names_stamp_and_root()
    ensures { CommitNamesStampAndRoot }
{}
