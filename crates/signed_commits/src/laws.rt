//! Laws that show what the definitions of signed commits mean.

ghost use Rattle.spec.specs.Laws.SignedCommits.{CommitReadsBack, OnlyCommitsAreRead};
ghost use Rattle.spec.specs.Laws.SignedCommits.{CommitIsDagCbor, SignsUnsigned};

/// A commit is read as it was written.
pub fn commit_reads_back()
    ensures { CommitReadsBack }
{}

/// What is read as a commit is the one spelling of what was read.
pub fn only_commits_are_read()
    ensures { OnlyCommitsAreRead }
{}

/// A commit is DAG-CBOR, with its signature and without it.
pub fn commit_is_dag_cbor()
    ensures { CommitIsDagCbor }
{}

/// Where no commit before is named, what is signed is the unsigned commit of the stamp over the root.
pub fn signs_unsigned()
    ensures { SignsUnsigned }
{}
