//! What a command line asks for.

use record_forms::Form;

/// What a message tells of.
#[derive(Clone, Copy, PartialEq, Eq, Debug)]
pub enum Subject {
    /// The batch of the input: `#commit`.
    Batch,
    /// The repository that the input leaves: `#sync`.
    State,
}

/// What a message tells beside its subject, as words of a command line.
#[derive(Clone, Copy)]
pub struct EventWords<'a> {
    /// Whose repository it is.
    pub did: &'a str,
    /// The revision of the batch, or of the repository.
    pub rev: &'a str,
    /// The revision of the batch before, if one is told: of a state none is.
    pub since: Option<&'a str>,
    /// The message's number in the stream.
    pub seq: u64,
    /// When it is sent.
    pub time: &'a str,
    /// The signature of the commit, in hexadecimal.
    pub sig: &'a str,
}

/// A command on messages, with what its words say.
#[derive(Clone, Copy)]
pub enum EventCommand<'a> {
    /// Write the message of the repository of the input, and of the batch of the input on it.
    Write {
        /// What it tells of.
        subject: Subject,
        /// What it tells beside that.
        words: EventWords<'a>,
        /// The form of the records of the input.
        form: Form,
    },
    /// Write a line of each message of the input, where all are true.
    Check {
        /// The text of the CID of the tree's root before the first message.
        previous: &'a str,
        /// With JSON also the operations and their records, a line each.
        form: Form,
    },
}
