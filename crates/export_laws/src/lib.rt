//! Laws that show what exports mean, and the file of a signed commit.
//!
//! Each function here is empty, and its contract is a law. Those of two files, and of one file's order, are about `spec`'s
//! `Exports` and stated in its `Laws/Exports`; they stand in a crate of their own, as they need the laws of signed commits. The
//! others are about the file that a server serves, whose root is a signed commit: it is defined in `specs/SignedCars`, for
//! whoever writes it.
#![tactic(auto)]

ghost use Rattle.spec.specs.Laws.Exports.{ExportIsOfOne, ExportHasNoOrder};
ghost use Rattle.export_laws.specs.Laws.{ExportHasNoFault, SignedCarIsExport, SignedCarSignsCommit};

/// A file is the export of one repository.
pub fn export_is_of_one()
    ensures { ExportIsOfOne }
{}

/// Whether a file is an export doesn't depend on the order of its sections.
pub fn export_has_no_order()
    ensures { ExportHasNoOrder }
{}

/// An export has none of the faults for which a file is refused as one.
pub fn export_has_no_fault()
    ensures { ExportHasNoFault }
{}

/// The file of a signed commit over a lawful repository is the export of that commit and of the repository's records.
pub fn signed_car_is_export()
    ensures { SignedCarIsExport }
{}

/// What is signed there is the commit of the repository's last batch.
pub fn signed_car_signs_commit()
    ensures { SignedCarSignsCommit }
{}
