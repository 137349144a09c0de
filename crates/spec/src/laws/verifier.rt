//! A verifier's answer is right, and comes wherever the path is given.
ghost use Rattle.spec.specs.Laws.Verifier.{PathIsOfTree, PathIsShort, LayersAreFew, VerifierIsSound, VerifierIsComplete, PathVerifies};

/// Each block of a key's path is a node of the tree. A path has no more nodes than there are layers from the top one down
/// to 0, and with a digest of 32 bytes no key is above layer 256 / bits.
pub fn path_is_of_the_tree()
    ensures of_tree { PathIsOfTree }
    ensures short { PathIsShort }
    ensures few_layers { LayersAreFew }
{}

/// For each ascending list of pairs with this root whose nodes clash with no given block, an answer is the key's value in
/// that list. The given blocks may clash among themselves.
pub fn answer_is_right()
    ensures { VerifierIsSound }
{}

/// For each such list there is an answer where each block of the key's path is given, beside any other blocks that clash
/// with no node. The path alone is enough where no two nodes clash.
pub fn answer_comes_with_the_path()
    ensures complete { VerifierIsComplete }
    ensures alone { PathVerifies }
{}
