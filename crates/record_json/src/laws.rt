//! Laws that show what the JSON form means. Each function is empty, and its contract is a law.

ghost use Rattle.record_json.specs.Laws.{FormIsJson, LinkTextReadsBack, TreeReadsBack, ReadsBack, OnlyFormsAreRead, NoTextForTwo};

/// The text of a lawful value that has one is JSON, and stands for the tree of objects, lists and texts by which the
/// data model defines it.
pub fn form_is_json()
    ensures { FormIsJson }
{}

/// The text of a CID of version 1 names that CID.
pub fn link_text_reads_back()
    ensures { LinkTextReadsBack }
{}

/// The tree of a value means that value.
pub fn tree_reads_back()
    ensures { TreeReadsBack }
{}

/// What is written of a record is read as that record.
pub fn reads_back()
    ensures { ReadsBack }
{}

/// What is read is a map, and each value in it has a JSON form.
pub fn only_forms_are_read()
    ensures { OnlyFormsAreRead }
{}

/// No two values have one text.
pub fn no_text_for_two()
    ensures { NoTextForTwo }
{}
