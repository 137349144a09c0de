//! The command that the words name.

use crate::versions::Reading;
use crate::writers::Load;

/// What is measured.
#[derive(Clone, Copy, Drop)]
pub enum Command {
    Store {
        count: u32,
        rounds: u32,
    },
    Read {
        rounds: u32,
    },
    Build {
        rounds: u32,
    },
    Difference {
        rounds: u32,
    },
    Get {
        count: u32,
        rounds: u32,
    },
    Edit {
        count: u32,
        rounds: u32,
    },
    Notices {
        count: u32,
        senders: u32,
        rounds: u32,
    },
    Apply {
        count: u32,
        batch: u32,
        rounds: u32,
    },
    ApplyFlat {
        count: u32,
        rounds: u32,
    },
    Export {
        count: u32,
        rounds: u32,
    },
    Messages {
        count: u32,
        rounds: u32,
    },
    Hosts(Load),
    Versions(Reading),
}

/// The most keys or blocks of one repository.
const MOST: u32 = 1_000_000;

impl Command {
    /// The command of these words, the program's name left out, or `None` where they are none.
    pub fn from_words(words: &[String]) -> Option<Command> {
        let [name, rest @ ..] = words else {
            return None;
        };
        let numbers = numbers(rest)?;
        match rest.len() {
            1 => of_one(name, numbers[0]),
            2 => of_two(name, numbers[0], numbers[1]),
            3 => of_three(name, numbers[0], numbers[1], numbers[2]),
            4 => of_four(name, numbers),
            _ => None,
        }
    }
}

/// The numbers that the first four words are, 0 for those that aren't there.
fn numbers(words: &[String]) -> Option<[u32; 4]> {
    let mut numbers = [0; 4];
    for place in 0..4 {
        if let Some(word) = words.get(place) {
            numbers[place] = word.parse().ok()?;
        }
    }
    Some(numbers)
}

fn of_one(name: &str, rounds: u32) -> Option<Command> {
    match name {
        "read" => Some(Command::Read { rounds }),
        "build" => Some(Command::Build { rounds }),
        "difference" => Some(Command::Difference { rounds }),
        _ => None,
    }
}

fn of_two(name: &str, count: u32, rounds: u32) -> Option<Command> {
    match name {
        _ if count > MOST => None,
        "store" => Some(Command::Store { count, rounds }),
        "get" => Some(Command::Get { count, rounds }),
        "edit" => Some(Command::Edit { count, rounds }),
        "apply-flat" if count <= 500_000 => Some(Command::ApplyFlat { count, rounds }),
        "export" => Some(Command::Export { count, rounds }),
        "messages" => Some(Command::Messages { count, rounds }),
        _ => None,
    }
}

fn of_three(name: &str, first: u32, second: u32, third: u32) -> Option<Command> {
    match name {
        "notices" if second >= 1 && second <= 64 => Some(Command::Notices {
            count: first,
            senders: second,
            rounds: third,
        }),
        "apply" if first <= MOST && second >= 1 => Some(Command::Apply {
            count: first,
            batch: second,
            rounds: third,
        }),
        "versions" if first >= 1 && first <= 64 && third <= MOST => Some(Command::Versions(
            Reading {
                readers: first,
                readings: second,
                batches: third,
            },
        )),
        _ => None,
    }
}

fn of_four(name: &str, numbers: [u32; 4]) -> Option<Command> {
    let [repos, writers, batches, size] = numbers;
    if name == "hosts" && repos >= 1 && writers >= 1 && batches <= MOST {
        Some(Command::Hosts(Load {
            repos,
            writers,
            batches,
            size,
        }))
    } else {
        None
    }
}
