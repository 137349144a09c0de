//! One line of the input.
ghost use Rattle.std.specs.Prelude.{◌≡◌, true, false, IfNone, IfSome};
ghost use Rattle.std.specs.List.{list_any, before_last, after_last};
ghost use Rattle.spec.specs.Reading.{Gives};
ghost use Rattle.console.specs.Lines.{is_space};
ghost use Rattle.tree_command.specs.TreeText.{pair_of_line as pair_of_line_of};
ghost use Rattle.tree_command.specs.Fault.{some_line_fault_of};

use crate::fault::LineFault;
use crate::keys::{Keys, is_taken};
use bstr::ByteSlice;
use cid::Cid;

/// The key and the CID of a line `KEY CID`: the key is all before the last space, and whether it is taken is tested first.
#[tactic(auto, unfolding(crate::specs::TreeText::pair_of_line))]
pub(crate) fn pair_of_line(taken: Keys, line: &[u8]) -> Result<(&[u8], Cid), LineFault>
    ensures { Gives (λ e. (e.0.now, e.1)) some_line_fault_of result
        (pair_of_line_of taken line.now) }
{
    let Some((key, text)) = around_last_space(line) else {
        return Err(LineFault::BadLine);
    };
    if !is_taken(taken, key) {
        return Err(LineFault::BadKey);
    }
    match Cid::from_text(text) {
        Ok(cid) => Ok((key, cid)),
        Err(_) => Err(LineFault::BadCid),
    }
}

/// What stands before the last space and what stands after it, if there is one.
#[tactic(auto, using(crate::proofs::Spaces::no_space, crate::proofs::Spaces::last_space))]
fn around_last_space(line: &[u8]) -> Option<(&[u8], &[u8])>
    ensures none { IfNone result (list_any is_space line.now ≡ false) }
    ensures some { IfSome result (λ _. list_any is_space line.now ≡ true) }
    ensures before { IfSome result (λ parts. parts.0.now ≡ before_last is_space line.now) }
    ensures after { IfSome result (λ parts. parts.1.now ≡ after_last is_space line.now) }
{
    let space = line.rfind_byte(b' ')?;
    Some((&line[..space], &line[space + 1..]))
}
