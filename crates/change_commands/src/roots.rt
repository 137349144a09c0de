//! The two roots that are known.
ghost use Rattle.std.specs.Prelude.{◌≡◌, true, false, IfErr};
ghost use Rattle.spec.specs.Reading.{Gives};
ghost use Rattle.spec.specs.Cid.{cid_of_text};
ghost use Rattle.repository_commands.specs.Faults.{text_fault_of, is_of_words};
ghost use Rattle.repository_commands.specs.Refusals.{is_refusal};
ghost use Rattle.change_commands.specs.Texts.{or_bad_after, or_bad_before, roots_check, roots_of as roots_of_words};
ghost use Rattle.change_commands.specs.Views.{roots_of as view_of_roots, told_of};

use crate::told::Told;
use cid::{Cid, Digest};
use repository_commands::TextFault;

/// The roots before and after a change.
#[derive(Clone, Copy)]
pub(crate) struct Roots {
    before: Cid,
    after: Cid,
}

/// The roots of two words; the first is tested first.
pub(crate) fn roots_of<D: Digest>(before: &[u8], after: &[u8]) -> Result<Roots, TextFault<D>>
    ensures roots { Gives view_of_roots text_fault_of result (roots_of_words before.now after.now) }
    ensures words { IfErr result (λ e. is_of_words e ≡ true) }
    ensures refused { IfErr result (λ e. is_refusal e ≡ false) }
{
    Ok(Roots {
        before: before_of(before)?,
        after: after_of(after)?,
    })
}

/// The root before a change, of its text.
fn before_of<D: Digest>(text: &[u8]) -> Result<Cid, TextFault<D>>
    ensures root { Gives (λ root. root) text_fault_of result
        (or_bad_before (cid_of_text text.now)) }
    ensures words { IfErr result (λ e. is_of_words e ≡ true) }
    ensures refused { IfErr result (λ e. is_refusal e ≡ false) }
{
    match Cid::from_text(text) {
        Ok(root) => Ok(root),
        Err(fault) => Err(TextFault::BadBefore(fault)),
    }
}

/// The root after it, of its text.
fn after_of<D: Digest>(text: &[u8]) -> Result<Cid, TextFault<D>>
    ensures root { Gives (λ root. root) text_fault_of result (or_bad_after (cid_of_text text.now)) }
    ensures words { IfErr result (λ e. is_of_words e ≡ true) }
    ensures refused { IfErr result (λ e. is_refusal e ≡ false) }
{
    match Cid::from_text(text) {
        Ok(root) => Ok(root),
        Err(fault) => Err(TextFault::BadAfter(fault)),
    }
}

/// Whether what is told of a change is told of these roots.
pub(crate) fn check_roots<D: Digest>(roots: &Roots, told: &Told<'_>) -> Result<(), TextFault<D>>
    ensures check { Gives (λ ok. ok) text_fault_of result
        (roots_check (view_of_roots roots.now) (told_of told.now)) }
    ensures refused { IfErr result (λ e. is_refusal e ≡ false) }
{
    if told.before != roots.before {
        return Err(TextFault::OtherBefore);
    }
    if told.after != roots.after {
        return Err(TextFault::OtherAfter);
    }
    Ok(())
}
