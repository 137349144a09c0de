//! What a check answers can be opened.

ghost use Rattle.checked_opening.specs.Laws.{ExportIsOpenable};

/// A repository that a file is the export of can be opened.
pub fn export_is_openable()
    ensures { ExportIsOpenable }
{}
