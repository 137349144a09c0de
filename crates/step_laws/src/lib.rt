//! Steps from one root to the next, which can be trusted forward: where the root before is that of some pairs, a step that is
//! shown leads to the root of these pairs with its changes done.
//!
//! A verdict of `change_laws` undoes changes on nodes of the tree after, and speaks of whatever pairs have the root after: of a
//! root that no pairs have it says nothing. A step is the same verdict with its roots exchanged and its changes turned round. It
//! reads nodes of the tree before, which who follows a repository knows to be one: from the empty tree on, or from a root that
//! was once computed from all pairs, each root that a shown step leads to is that of pairs again.
//!
//! The definitions stand in `specs/`, to be read in this order: `Turned` turns changes round; `Step` says what a step's verdict
//! is, and `StepLaws` what it means; `Chain` has one step after another, and `ChainLaws` what that means; `StepRows` has a root
//! that no pairs have.
//! Each function here is a law of them, and does nothing when it is called.
#![tactic(auto)]

pub mod chains;
pub mod steps;
