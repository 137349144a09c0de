//! The rule that each step of each thread keeps: for each writer, what was received of it and then what the queue holds
//! of it is what it sent, numbered 1, 2, .. in order.
//!
//! The types here are words of that rule. What they hold exists in proofs alone, and no value of them is made.
use crate::notice::Notice;
use crossbeam_queue::protocol::{Join, Lesson, Outcome, Protocol, Split};
use crossbeam_queue::{Pass, RuledArrayQueue};
use std::collections::LinkedList;

/// What one writer sent in all, in order.
pub struct Account {
    pub writer: u32,
    pub sent: LinkedList<Notice>,
}

/// What a pass knows: a writer's pass the account of that writer; the feed how many writers' passes were made, what was
/// received, and the accounts of the passes that joined it.
pub struct View {
    pub feeds: bool,
    pub made: u32,
    pub received: LinkedList<Notice>,
    pub accounts: LinkedList<Account>,
}

/// The rule.
pub struct InOrder;

impl Protocol<Notice, View> for InOrder {
    ghost use Rattle.std.specs.Prelude.{[]};
    ghost use Rattle.notices.specs.Rule.{feeder, Kept};

    ghost holds = { Kept };

    ghost first = { feeder 0 [] [] };
}

/// The feed makes the pass of one writer more.
pub struct Opens;

impl Split<View> for Opens {
    ghost use Rattle.std.specs.Prelude.{[], ◌+◌};
    ghost use Rattle.notices.specs.Rule.{feeder, sender};

    ghost left = { λ v. feeder (v.made + 1) v.received v.accounts };

    ghost right = { λ v. sender v.made [] };
}

/// The feed takes in a writer's pass, with its account.
pub struct Joins;

impl Join<View> for Joins {
    ghost use Rattle.std.specs.Prelude.{◌++◌};
    ghost use Rattle.notices.specs.Rule.{feeder, nobody};

    ghost both = { λ v w. feeder v.made v.received (v.accounts ++ w.accounts) };

    ghost spent = { nobody };
}

/// A writer puts a notice into the queue, or finds it full.
pub struct Puts;

impl Outcome<Notice, View> for Puts {
    ghost use Rattle.notices.specs.Steps.{HasPut};

    ghost then = { HasPut };
}

impl Lesson<Notice, View> for Puts {
    ghost use Rattle.notices.specs.Steps.{EndsWith};

    ghost fact = { EndsWith };
}

/// The feed takes a notice out of the queue, or finds it empty.
pub struct Takes;

impl Outcome<Notice, View> for Takes {
    ghost use Rattle.notices.specs.Steps.{HasTaken};

    ghost then = { HasTaken };
}

impl Lesson<Notice, View> for Takes {
    ghost use Rattle.notices.specs.Steps.{Balances};

    ghost fact = { Balances };
}

/// The feed looks at the accounts that joined it.
pub struct Looks;

impl Lesson<Notice, View> for Looks {
    ghost use Rattle.notices.specs.Steps.{AreDistinct};

    ghost fact = { λ v items. AreDistinct v.made v.accounts };
}

/// The queue of the kit, under the rule.
pub type Ring<A> = RuledArrayQueue<Notice, View, InOrder, A>;

/// A pass of that queue. It has no bytes.
pub type Ticket = Pass<Notice, View>;
