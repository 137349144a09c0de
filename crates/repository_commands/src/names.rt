//! The names of the faults of a root, of a proof and of a change.
ghost use Rattle.std.specs.Prelude.{◌≡◌, Some};
ghost use Rattle.repository_commands.specs.Names.{bad_node_name as bad_node_name_of, change_fault_name as change_fault_name_of, proof_fault_name as proof_fault_name_of, root_fault_name as root_fault_name_of};

use change_proofs::ChangeFault;
use cid::CidFault;
use export::ProofFault;
use node::NodeFault;
use std::fmt;

/// The name of a fault of a root's text.
pub(crate) fn root_fault_name(fault: &CidFault) -> &'static str
    ensures { result.now ≡ root_fault_name_of fault.now }
{
    match fault {
        CidFault::BadLength => "BadLength",
        CidFault::BadPrefix => "BadPrefix",
        CidFault::BadLetter => "BadLetter",
        CidFault::BadBits => "BadBits",
        CidFault::NotThisProfile => "NotThisProfile",
    }
}

/// The name of a fault of a key or of a proof; a fault inside it stands in parentheses.
pub(crate) fn proof_fault_name(fault: &ProofFault) -> &'static str
    ensures { result.now ≡ proof_fault_name_of fault.now }
{
    match fault {
        ProofFault::BlockMissing => "BlockMissing",
        ProofFault::BadNode(fault) => bad_node_name(fault),
        ProofFault::TooDeep => "TooDeep",
        ProofFault::KeyLength => "KeyLength",
    }
}

/// The name of a proof's fault for a fault of a node.
fn bad_node_name(fault: &NodeFault) -> &'static str
    ensures { result.now ≡ bad_node_name_of fault.now }
{
    match fault {
        NodeFault::NotNode => "BadNode(NotNode)",
        NodeFault::BadPrefix => "BadNode(BadPrefix)",
        NodeFault::KeyOrder => "BadNode(KeyOrder)",
        NodeFault::KeyLength => "BadNode(KeyLength)",
    }
}

/// A fault of a change, shown by its name; the CID of a block that it names stands in parentheses.
#[derive(Drop)]
pub(crate) struct ChangeName<'a>(pub(crate) &'a ChangeFault);

impl fmt::Display for ChangeName<'_> {
    ghost output = { λ name. Some (change_fault_name_of name.0.now) };

    fn fmt<W: fmt::Write>(&self, f: &mut fmt::Formatter<W>) -> fmt::Result {
        match self.0 {
            ChangeFault::BlockMissing(cid) => write!(f, "BlockMissing({cid})"),
            ChangeFault::BadNode(cid) => write!(f, "BadNode({cid})"),
            ChangeFault::TooDeep => f.write_str("TooDeep"),
            ChangeFault::NotTree => f.write_str("NotTree"),
            ChangeFault::OtherValue(_) => f.write_str("OtherValue"),
            ChangeFault::OtherRoot => f.write_str("OtherRoot"),
            ChangeFault::NoMemory => f.write_str("NoMemory"),
        }
    }
}
