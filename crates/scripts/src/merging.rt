//! The answers of all workers in the order of the lines.

ghost use Rattle.std.specs.Prelude.{◌≡◌, ◌<◌, length, map, All, IfOk};
ghost use Rattle.scripts.specs.Merging.{AreEnough, AreOwn};

use crate::script::Line;
use std::alloc::{AllocError, Global};
use std::collections::VecDeque;

/// The answers in the order of the lines: for each line the next one of its worker's.
pub(crate) fn in_order<X: Drop>(
    alloc: Global,
    mut given: Vec<VecDeque<X>>,
    lines: &[Line],
) -> Result<Vec<X>, AllocError>
    requires workers { All (λ l. l.worker < length given.items) lines.now }
    requires enough { AreEnough lines.now (map (λ q. q.items) given.items) }
    ensures all { IfOk result (λ v. length v.items ≡ length lines.now) }
    ensures own { IfOk result (λ v. AreOwn lines.now v.items (map (λ q. q.items) given.items)) }
{
    let mut answers = Vec::with_capacity(alloc, lines.len())?;
    for line in lines {
        match given[line.worker as usize].pop_front() {
            Some(answer) => answers.push_reserved(answer),
            None => unreachable!(),
        }
    }
    Ok(answers)
}
