//! What steps mean that follow one another.

ghost use Rattle.step_laws.specs.ChainLaws.{StepsAreTrue, StepsFromNothing, StepsLeadTo};

/// Steps that are shown, one after the other, lead from the root of some pairs to the root of those that all changes leave.
pub fn steps_are_true()
    ensures { StepsAreTrue }
{}

/// So from the empty tree on.
pub fn steps_from_nothing()
    ensures { StepsFromNothing }
{}

/// And whatever pairs have the last root are those that all changes leave, where no node of the one tree clashes with one of
/// the other.
pub fn steps_lead_to_the_pairs()
    ensures { StepsLeadTo }
{}
