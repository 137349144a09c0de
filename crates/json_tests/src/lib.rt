//! Tests of records as JSON: worked texts, written and read, values without a form, texts that are no records, records, large
//! values, want of memory. The texts come from a program in another language, and not from what is tested; others are on what
//! the AT Protocol publishes on its data model (`published`).
#![tactic(auto)]

#[cfg(test)]
mod faults;
#[cfg(test)]
mod forms;
#[cfg(test)]
mod large;
#[cfg(test)]
mod layouts;
#[cfg(test)]
mod memory;
#[cfg(test)]
mod no_form;
#[cfg(test)]
mod published;
#[cfg(test)]
mod records;
#[cfg(test)]
mod texts;
