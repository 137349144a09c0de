//! Files of blocks.

ghost use Rattle.spec.specs.Laws.Cars.{HeaderIsDagCbor, CarReadsBack, OnlyCarsAreRead, ExportReadsBack};

/// The header of a file is spelled in DAG-CBOR, as a map of its one root and its version, after its length.
pub fn header_is_dag_cbor()
    ensures { HeaderIsDagCbor }
{}

/// A file of a root and sections is read as these.
pub fn car_reads_back()
    ensures { CarReadsBack }
{}

/// A file that is read is the one spelling of what was read.
pub fn only_cars_are_read()
    ensures { OnlyCarsAreRead }
{}

/// An export is read as its root and its blocks, each named by its CID.
pub fn export_reads_back()
    ensures { ExportReadsBack }
{}
