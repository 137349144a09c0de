//! Measurements. Without arguments it prints its usage.
#![tactic(auto)]

mod blocks;
mod command;
mod desks;
mod differences;
mod edits;
mod exports;
mod hashing;
mod hosts;
mod look_ups;
mod made;
mod messages;
mod plans;
mod queues;
mod records;
mod repositories;
mod trees;
mod versions;
mod watch;
mod writers;

use crate::command::Command;
use crate::edits::{Edits, Turn};
use crate::exports::Exported;
use crate::messages::Messages;
use crate::plans::Plan;
use crate::repositories::{Measured, Took};
use crate::versions::Reading;
use crate::watch::Meter;
use crate::writers::Load;
use std::alloc::{AllocError, Global};
use std::rt::Files;
use std::sync::Wait;
use std::thread::Threads;
use std::time::{Clock, CpuClock};
use std::{env, io};

const USAGE: &str = "\
usage: bench store COUNT ROUNDS
         makes COUNT blocks, at most 1,000,000, and then ROUNDS times acquires and releases all of them in one shard
       bench read ROUNDS
         reads each of three records of about 300 bytes ROUNDS times
       bench build ROUNDS < LISTING
         reads lines of key and CID, sorts them, and builds their tree ROUNDS times
       bench difference ROUNDS < LISTINGS
         reads two listings of lines of key and CID with an empty line between them, builds both trees, and compares these
         ROUNDS times
       bench get COUNT ROUNDS
         makes a tree of COUNT keys, at most 1,000,000, and looks 10,000 of them up ROUNDS times
       bench edit COUNT ROUNDS
         makes a tree of COUNT keys, at most 1,000,000, puts a quarter as many more, at most 10,000, deletes these again
         and then as many of the first, ROUNDS times
       bench notices COUNT SENDERS ROUNDS
         sends COUNT notices from SENDERS threads, 1 to 64, through a queue of 1,024 to one taker, ROUNDS times
       bench apply COUNT BATCH ROUNDS
         makes a repository of COUNT keys, at most 1,000,000, with records of 288 bytes, and puts a quarter as many more, at
         most 10,000, and deletes these again, BATCH a batch, ROUNDS times, in turns with edits of its tree alone
       bench apply-flat COUNT ROUNDS
         makes a repository of COUNT keys, at most 500,000, that are all of layer 0, and puts ten more and deletes these
         again, one a batch, ROUNDS times, in turns with edits of its tree alone
       bench export COUNT ROUNDS
         makes a repository of COUNT keys, at most 1,000,000, with records of 288 bytes, writes its CAR to memory, and proves
         10,000 of its keys and verifies the proofs, ROUNDS times
       bench messages COUNT ROUNDS
         makes a repository of COUNT keys, at most 1,000,000, with records of 288 bytes, puts a quarter as many more, at most
         1,000, one a batch, and writes the message of each, checks it and hashes its bytes, ROUNDS times
       bench hosts REPOS WRITERS BATCHES SIZE
         opens a host of REPOS repositories, 1 to 1,024, and WRITERS writers, 1 to 64, each in a thread of its own, which
         put BATCHES batches, at most 1,000,000, of SIZE records of 288 bytes each: one batch after the other goes to the
         next writer and to the next repository; then closes the host
       bench versions READERS READINGS BATCHES
         opens a host of one repository, puts half of BATCHES records, at most 1,000,000, and has READERS threads, 1 to 64,
         read a version READINGS times each, while nobody writes, and then while the other half is put";

fn main(rt: HostRuntime) -> io::Result<()> {
    let alloc = rt.alloc();
    match command_of(&rt)? {
        Some(Command::Store { count, rounds }) => print_store(&rt, count, rounds),
        Some(Command::Read { rounds }) => print_read(&rt, rounds),
        Some(Command::Build { rounds }) => print_build(&rt, rounds),
        Some(Command::Difference { rounds }) => print_difference(&rt, rounds),
        Some(Command::Get { count, rounds }) => print_get(&rt, count, rounds),
        Some(Command::Edit { count, rounds }) => print_edit(&rt, count, rounds),
        Some(
            Command::Notices {
                count,
                senders,
                rounds,
            },
        ) => print_notices(&rt, alloc, count, senders, rounds),
        Some(
            Command::Apply {
                count,
                batch,
                rounds,
            },
        ) => print_apply(
            &rt,
            alloc,
            Plan::usual(alloc, count),
            batch as usize,
            rounds,
        ),
        Some(Command::ApplyFlat { count, rounds }) => {
            print_apply(&rt, alloc, Plan::flat(alloc, count), 1, rounds)
        }
        Some(Command::Export { count, rounds }) => print_export(&rt, alloc, count, rounds),
        Some(Command::Messages { count, rounds }) => print_messages(&rt, alloc, count, rounds),
        Some(Command::Hosts(load)) => print_hosts(&rt, alloc, load),
        Some(Command::Versions(reading)) => print_versions(&rt, alloc, reading),
        None => println!(rt; "{USAGE}"),
    }
}

/// The command that the program's words are.
fn command_of(rt: &HostRuntime) -> io::Result<Option<Command>> {
    let words: Vec<String> = env::args(rt)?.skip(1).collect(rt.alloc())?;
    Ok(Command::from_words(&words))
}

fn print_store(rt: &HostRuntime, count: u32, rounds: u32) -> io::Result<()> {
    match blocks::measure(rt.alloc(), count, rounds) {
        Ok(held) => println!(rt; "{held} acquired and released"),
        Err(fault) => println!(rt; "refused: {fault}"),
    }
}

/// Prints for each record how many millions of bytes a second were read.
fn print_read(rt: &HostRuntime, rounds: u32) -> io::Result<()> {
    let alloc = rt.alloc();
    for record in &records::RECORDS {
        let bytes = hex::decode(alloc, record.text).unwrap_or(Vec::new(alloc));
        let meter = Meter::start(rt);
        let found = records::measure(alloc, &bytes, rounds);
        let micros = meter.nanos(rt) / 1000;
        let read = u128::from(found) * bytes.len() as u128;
        println!(rt;
            "{}: {} bytes, {} MB/s",
            record.name,
            bytes.len(),
            read / micros.max(1)
        )?;
    }
    Ok(())
}

/// Prints how long the tree of the listing on standard input took.
fn print_build(rt: &HostRuntime, rounds: u32) -> io::Result<()> {
    let alloc = rt.alloc();
    let listing = io::read_to_string(alloc, rt.stdin())?;
    let pairs = trees::pairs(alloc, listing.as_bytes())?;
    match trees::measure(rt, alloc, &pairs, rounds) {
        Some(built) => println!(rt;
            "{} keys, {} nodes, {} microseconds, {} its hashing alone",
            pairs.len(),
            built.nodes,
            built.least / 1000,
            built.hash / 1000
        ),
        None => println!(rt; "the tree can't be built"),
    }
}

/// Prints what the trees of the two listings on standard input differ by, and how long comparing them took at the least.
fn print_difference(rt: &HostRuntime, rounds: u32) -> io::Result<()> {
    let alloc = rt.alloc();
    let listings = io::read_to_string(alloc, rt.stdin())?;
    let (old, new) = trees::two(alloc, listings.as_bytes())?;
    match differences::measure(rt, alloc, &old, &new, rounds) {
        Some(compared) => println!(rt;
            "{} changes, {} nodes come, {} go, {} reads, {} ns at the least",
            compared.changes, compared.come, compared.go, compared.reads, compared.least
        ),
        None => println!(rt; "refused"),
    }
}

/// How many keys are looked up in a round.
const ASKED: usize = 10_000;

/// Prints how long a look-up took, at the least, over all nodes of a tree in memory.
fn print_get(rt: &HostRuntime, count: u32, rounds: u32) -> io::Result<()> {
    let alloc = rt.alloc();
    let pairs = made::pairs(alloc, count)?;
    let places = made::some(alloc, pairs.len(), ASKED)?;
    let blocks = trees::nodes(alloc, &pairs).unwrap_or(Vec::new(alloc));
    let Some(found) = look_ups::measure(rt, alloc, &blocks, &pairs, &places, rounds) else {
        return println!(rt; "refused");
    };
    println!(rt;
        "{} keys, {} nodes, {} of {} found, {} reads in all, {} ns a look-up at the least",
        pairs.len(),
        blocks.len(),
        found.found,
        places.len(),
        found.reads,
        found.least / (places.len() as u128).max(1)
    )
}

/// Prints how long a put, its delete and a delete of a first key took, at the least.
fn print_edit(rt: &HostRuntime, count: u32, rounds: u32) -> io::Result<()> {
    let plan = Plan::usual(rt.alloc(), count)?;
    match edits::measure(rt, rt.alloc(), &plan, rounds) {
        Some(edits) => print_edits(rt, &edits)?,
        None => println!(rt; "refused")?,
    }
    for size in [1, 10, 100, 1_000, 10_000] {
        match edits::measure_batches(rt, rt.alloc(), &plan, size, rounds) {
            Some(turn) => print_turn(rt, "put", &turn, size)?,
            None => println!(rt; "refused")?,
        }
    }
    Ok(())
}

fn print_edits(rt: &HostRuntime, edits: &Edits) -> io::Result<()> {
    print_turn(rt, "put", &edits.puts, 1)?;
    print_turn(rt, "delete of what was put", &edits.undone, 1)?;
    print_turn(rt, "delete of a first key", &edits.deletes, 1)?;
    match edits.root {
        Some(root) => println!(rt; "the last root is {root}"),
        None => Ok(()),
    }
}

/// Prints what the edits of one kind did.
fn print_turn(rt: &HostRuntime, name: &str, turn: &Turn, size: usize) -> io::Result<()> {
    let done = &turn.done;
    let edits = u128::from(done.edits).max(1);
    println!(rt;
        "{name}, {size} at once: {} edits, {} blocks read, {} added, {} dropped, {} ns an edit at the least, {} its hashing alone",
        done.edits,
        done.reads,
        done.added,
        done.dropped,
        turn.least / edits,
        turn.hash / edits
    )
}

/// Prints how long a notice took from its sender to the taker, at the least.
fn print_notices<R: Threads + Wait + Sync + Clock + Print>(
    rt: &R,
    alloc: Global,
    count: u32,
    senders: u32,
    rounds: u32,
) -> io::Result<()> {
    let told = queues::measure(rt, alloc, count, senders, rounds)?;
    println!(rt;
        "{} received, their numbers add up to {}, {} ns a notice at the least",
        told.received,
        told.sum,
        told.least / u128::from(told.received).max(1)
    )
}

/// Prints what a write to a repository took at the least, beside an edit of its tree alone, and what memory a record takes.
fn print_apply<R: Wait + CpuClock + Files + Print>(
    rt: &R,
    alloc: Global,
    plan: Result<Plan, AllocError>,
    batch: usize,
    rounds: u32,
) -> io::Result<()> {
    let plan = plan?;
    match repositories::measure(rt, alloc, &plan, batch, rounds) {
        Some(measured) => {
            let writes = plan.places.new.len() as u128;
            print_applied(rt, plan.keys() as u128, writes, batch, &measured)
        }
        None => println!(rt; "refused"),
    }
}

/// Prints what was measured of a repository with so many keys and so many writes.
fn print_applied<R: Print>(
    rt: &R,
    keys: u128,
    writes: u128,
    batch: usize,
    measured: &Measured,
) -> io::Result<()> {
    println!(rt; "{keys} keys, {writes} writes, {batch} a batch")?;
    print_took(rt, "put", &measured.puts, writes)?;
    print_took(rt, "delete", &measured.deletes, writes)?;
    println!(rt;
        "{} nodes come with the puts one by one, {} with their batches at once",
        measured.added, measured.left
    )?;
    if let Some(grown) = measured.grown {
        println!(rt;
            "{} bytes of memory a key and its record of 288 bytes",
            u128::from(grown) / keys.max(1)
        )?;
    }
    match measured.commit {
        Some(commit) => println!(rt; "the last commit is {commit}"),
        None => Ok(()),
    }
}

/// Prints the nanoseconds of a write.
fn print_took<R: Print>(rt: &R, name: &str, took: &Took, writes: u128) -> io::Result<()> {
    let writes = writes.max(1);
    println!(rt;
        "{name}: {} ns a write at the least, {} by edit alone, {} its hashing alone",
        took.applied / writes,
        took.alone / writes,
        took.hash / writes
    )
}

/// Prints what the CAR of a repository took at the least, and the proof of one of its keys.
fn print_export<R: Wait + CpuClock + Print>(
    rt: &R,
    alloc: Global,
    count: u32,
    rounds: u32,
) -> io::Result<()> {
    let plan = Plan::usual(alloc, count)?;
    match repositories::export(rt, alloc, &plan, rounds) {
        Some(exported) => print_exported(rt, plan.keys(), &exported),
        None => println!(rt; "refused"),
    }
}

/// Prints what was measured of the exports of a repository with so many keys.
fn print_exported<R: Print>(rt: &R, keys: usize, exported: &Exported) -> io::Result<()> {
    println!(rt;
        "{keys} keys, a CAR of {} bytes, {} microseconds at the least",
        exported.bytes,
        exported.car / 1000
    )?;
    let proofs = &exported.proofs;
    let keys = u128::from(proofs.keys).max(1);
    println!(rt;
        "{} proofs of {} nodes, each {} ns to prove and {} ns to verify at the least, {} ns its digests alone",
        proofs.keys,
        proofs.nodes,
        proofs.prove / keys,
        proofs.verify / keys,
        proofs.hash / keys
    )
}

/// Prints what the messages of batches of one put took at the least.
fn print_messages<R: Wait + CpuClock + Print>(
    rt: &R,
    alloc: Global,
    count: u32,
    rounds: u32,
) -> io::Result<()> {
    let plan = Plan::with_more(alloc, count, 1_000)?;
    match repositories::messages(rt, alloc, &plan, rounds) {
        Some(messages) => print_measured(rt, plan.keys(), &messages),
        None => println!(rt; "refused"),
    }
}

/// Prints what was measured of the messages of a repository with so many keys.
fn print_measured<R: Print>(rt: &R, keys: usize, measured: &Messages) -> io::Result<()> {
    let messages = u128::from(measured.messages).max(1);
    println!(rt;
        "{keys} keys, {} messages of {} bytes in all, {} taken, {}",
        measured.messages, measured.bytes, measured.taken, measured.chain
    )?;
    println!(rt;
        "a message: {} ns to write, {} ns to check, {} ns to hash, at the least",
        measured.write / messages,
        measured.check / messages,
        measured.hash / messages
    )
}

/// Prints how long the writers of a host took, and how long its close.
fn print_hosts<R: Threads + Wait + Sync + Clock + Print>(
    rt: &R,
    alloc: Global,
    load: Load,
) -> io::Result<()> {
    let Some(measured) = hosts::measure(rt, alloc, load) else {
        return println!(rt; "refused");
    };
    println!(rt;
        "{} repositories, {} writers: {} writes accepted by {} revisions in {} microseconds",
        load.repos,
        load.writers,
        measured.accepted,
        measured.revisions,
        measured.puts / 1000
    )?;
    println!(rt;
        "{} blocks, closed in {} microseconds, ended in {}",
        measured.blocks,
        measured.close / 1000,
        measured.end / 1000
    )
}

/// Prints how many readings of a version there were a second.
fn print_versions<R: Threads + Wait + Sync + Clock + Print>(
    rt: &R,
    alloc: Global,
    reading: Reading,
) -> io::Result<()> {
    let Some(measured) = versions::measure(rt, alloc, reading) else {
        return println!(rt; "refused");
    };
    println!(rt;
        "{} readers: {} readings a second while nobody writes, {} beside {} writes in {} microseconds",
        reading.readers,
        a_second(reading, measured.alone),
        a_second(reading, measured.beside),
        measured.accepted,
        measured.beside / 1000
    )
}

/// How many readings of all readers there were a second, where they took so many nanoseconds.
fn a_second(reading: Reading, nanos: u128) -> u128 {
    let readings = u128::from(reading.readers) * u128::from(reading.readings);
    readings.saturating_mul(1_000_000_000) / nanos.max(1)
}
