//! Lines as tables give them.

use batches::Stamp;
use repo_fixtures::batch::{DID, Step, writes_of};
use scripts::{Call, Line};
use std::alloc::{AllocError, Global};

/// What a row calls.
#[derive(Clone, Copy)]
pub(crate) enum Doing<'a> {
    Apply(&'a [Step<'a>]),
    Get(&'a [u8]),
}

/// A worker, a repository, and what is called. The line's number is the row's place from 1.
pub(crate) type Row<'a> = (u32, u32, Doing<'a>);

/// The timestamp identifier that comes so many after the first one, below 32,768.
fn rev_of(number: usize) -> [u8; 13] {
    let digits = b"234567abcdefghijklmnopqrstuvwxyz";
    let mut rev = [b'2'; 13];
    rev[12] = digits[number % 32];
    rev[11] = digits[number / 32 % 32];
    rev[10] = digits[number / 1024 % 32];
    rev
}

/// The stamp of the line of this number.
fn stamp_of(alloc: Global, number: usize) -> Result<Stamp, AllocError> {
    let did = Vec::from_slice(alloc, DID)?;
    let rev = Vec::from_slice(alloc, &rev_of(number))?;
    Ok(Stamp { did, rev })
}

/// The call of the line of this number.
fn call_of(alloc: Global, number: usize, doing: Doing<'_>) -> Result<Call, AllocError> {
    match doing {
        Doing::Apply(steps) => {
            let writes = writes_of(alloc, steps)?;
            Ok(Call::Apply(stamp_of(alloc, number)?, writes))
        }
        Doing::Get(key) => Ok(Call::Get(Vec::from_slice(alloc, key)?)),
    }
}

/// The line of this number.
pub(crate) fn line_of(alloc: Global, number: usize, row: Row<'_>) -> Result<Line, AllocError> {
    let (worker, repo, doing) = row;
    let call = call_of(alloc, number, doing)?;
    Ok(Line {
        number,
        worker,
        repo,
        call,
    })
}

/// The lines of these rows.
pub(crate) fn lines_of(alloc: Global, rows: &[Row<'_>]) -> Result<Vec<Line>, AllocError> {
    let mut lines = Vec::new(alloc);
    let mut number = 0usize;
    for row in rows {
        number = number.saturating_add(1);
        lines.push(line_of(alloc, number, *row)?)?;
    }
    Ok(lines)
}
