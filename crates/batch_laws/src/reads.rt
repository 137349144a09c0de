//! How many nodes are read and made, and which nodes one change reads.

ghost use Rattle.batch_laws.specs.Laws.Reads.{BatchReadsFew, BatchMakesFew, OnePutIsShort, OneDeleteIsShort, OnePutReadsPath, OneDeleteReads};

/// Beside the top a batch reads at most one node a layer for each put and two for each delete.
pub fn batch_reads_few()
    ensures { BatchReadsFew }
{}

/// Where the edge has n layers and the old top is of layer t, a batch makes at most n + t nodes for each change, and n - t
/// for the whole.
pub fn batch_makes_few()
    ensures { BatchMakesFew }
{}

/// A batch of one put reads at most one node a layer of the old tree, and makes at most two a layer of the higher tree.
pub fn one_put_is_short()
    ensures { OnePutIsShort }
{}

/// A batch of one delete reads at most two nodes a layer but for the top, and makes at most two a layer.
pub fn one_delete_is_short()
    ensures { OneDeleteIsShort }
{}

/// A batch of one put reads the path of its key, each node once, and no other node, whatever the source shows.
pub fn one_put_reads_the_path()
    ensures { OnePutReadsPath }
{}

/// A batch of one delete reads what a delete along the path does, in its order, whatever the source shows.
pub fn one_delete_reads_as_along_the_path()
    ensures { OneDeleteReads }
{}
