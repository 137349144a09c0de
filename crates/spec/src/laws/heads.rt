//! Heads of data items (RFC 8949, section 3) in the one form that DAG-CBOR allows.

ghost use Rattle.spec.specs.Laws.Heads.{HeadReadsBack, OnlyHeadsAreRead, NoHeadBeginsAnother};

/// A head is read as it was written, whatever follows it.
pub fn head_reads_back()
    ensures { HeadReadsBack }
{}

/// What is read as a head, other than of a simple value, is the shortest head of what was read.
pub fn only_heads_are_read()
    ensures { OnlyHeadsAreRead }
{}

/// No head begins another, and no two heads are spelled alike.
pub fn no_head_begins_another()
    ensures { NoHeadBeginsAnother }
{}
