//! What the lines of an input give: the records of a repository, and behind the first empty line the writes of a batch.
ghost use Rattle.std.specs.Prelude.{◌≡◌, is_ok, IfOk, IfSome, OnOk};
ghost use Rattle.repository_commands.specs.Views.{write_read};
ghost use Rattle.change_commands.specs.Stories.{nothing_told, story_in, taken_into, write_on as write_on_of};
ghost use Rattle.change_commands.specs.Views.{story_of as view_of_story};

use crate::write_lines::write_of_line;
use batches::Write;
use bstr::ByteSlice;
use console::{ReadFault, read_all};
use record_forms::{Form, WordFault};
use repository_commands::{Puts, put_of_line};
use std::alloc::{AllocError, Global};
use std::io::Read;

/// The puts of a repository and the writes of a batch, up to the first line that is none.
#[derive(Drop)]
pub struct Story {
    /// The puts, before the first empty line.
    pub before: Puts<Global>,
    /// The writes, behind it.
    pub batch: Puts<Global>,
    /// Whether there was an empty line.
    pub is_parted: bool,
}

impl Story {
    /// Of no line.
    fn none(alloc: Global) -> Story
        ensures { view_of_story result ≡ nothing_told }
    {
        Story {
            before: Puts::none(alloc),
            batch: Puts::none(alloc),
            is_parted: false,
        }
    }

    /// With what a line of this number gives. Whether that is a write.
    fn take(
        &mut self,
        alloc: Global,
        form: Form,
        number: u64,
        line: &[u8],
    ) -> Result<bool, AllocError>
        ensures taken { OnOk result (view_of_story self.new ≡ taken_into self.old.is_parted
            (view_of_story self.old) number (write_on_of form self.old.is_parted line.now)) }
        ensures going_on { IfOk result
            (λ more. more ≡ is_ok (write_on_of form self.old.is_parted line.now)) }
    {
        let write = write_on(alloc, form, self.is_parted, line)?;
        if self.is_parted {
            self.batch.take(number, write)
        } else {
            self.before.take(number, write)
        }
    }
}

/// What all that the reader still gives says. The input is let go before it is used.
pub fn read_story<R: Read>(alloc: Global, form: Form, input: &mut R) -> Result<Story, ReadFault>
    ensures { IfOk result (λ story. IfSome (R.remaining input.old)
        (λ xs. view_of_story story ≡ story_in form xs)) }
{
    let bytes = read_all(alloc, input)?;
    match story_of(alloc, form, &bytes) {
        Ok(story) => Ok(story),
        Err(_) => Err(ReadFault::NoMemory),
    }
}

/// What the lines of an input say.
fn story_of(alloc: Global, form: Form, input: &[u8]) -> Result<Story, AllocError>
    ensures { IfOk result (λ story. view_of_story story ≡ story_in form input.now) }
{
    let mut story = Story::none(alloc);
    let mut number = 0;
    for line in input.lines() {
        number += 1;
        if line.is_empty() {
            story.is_parted = true;
            continue;
        }
        let is_write = story.take(alloc, form, number, line)?;
        if !is_write {
            return Ok(story);
        }
    }
    Ok(story)
}

/// The write of a line before the first empty one, or behind it; or why it is none.
fn write_on(
    alloc: Global,
    form: Form,
    is_parted: bool,
    line: &[u8],
) -> Result<Result<Write, WordFault>, AllocError>
    ensures { IfOk result (λ write. write_read write ≡ write_on_of form is_parted line.now) }
{
    if is_parted {
        write_of_line(alloc, form, line)
    } else {
        put_of_line(alloc, form, line)
    }
}
