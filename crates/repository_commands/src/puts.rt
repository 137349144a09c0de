//! The puts that the lines of an input give.
ghost use Rattle.std.specs.Prelude.{◌≡◌, is_ok, IfOk, IfSome, OnOk};
ghost use Rattle.record_forms.specs.Records.{record_of_word as record_of};
ghost use Rattle.repository_commands.specs.Puts.{given_in, nothing_given, put_of, put_of_line as put_of_line_of, taken};
ghost use Rattle.repository_commands.specs.Views.{given_of, write_read};

use batches::Write;
use console::{ReadFault, numbered_lines, read_all, space_in};
use record_forms::{Form, WordFault, record_of_word};
use std::alloc::{AllocError, Allocator};
use std::io::Read;

/// The writes of some lines, up to the first line that is none.
#[derive(Drop)]
pub struct Puts<A: Allocator> {
    /// The number of each write's line.
    pub numbers: Vec<u64, A>,
    /// The writes.
    pub writes: Vec<Write<A>, A>,
    /// The line that is none, if there is one.
    pub stop: Option<Stop<A>>,
}

/// A line that is no write.
#[derive(Drop)]
pub struct Stop<A: Allocator> {
    /// Its number.
    pub number: u64,
    /// What is wrong with it.
    pub fault: WordFault<A>,
}

impl<A: Allocator + Copy> Puts<A> {
    /// None so far.
    pub fn none(alloc: A) -> Puts<A>
        ensures { given_of result ≡ nothing_given }
    {
        Puts {
            numbers: Vec::new(alloc),
            writes: Vec::new(alloc),
            stop: None,
        }
    }

    /// With the write of this line after the others, or with a line that is none. Whether it was one.
    pub fn take(
        &mut self,
        number: u64,
        write: Result<Write<A>, WordFault<A>>,
    ) -> Result<bool, AllocError>
        ensures taken { OnOk result (given_of self.new
            ≡ taken (given_of self.old) number (write_read write)) }
        ensures going_on { IfOk result (λ more. more ≡ is_ok write) }
    {
        match write {
            Ok(write) => {
                self.numbers.push(number)?;
                self.writes.push(write)?;
                Ok(true)
            }
            Err(fault) => {
                self.stop = Some(Stop { number, fault });
                Ok(false)
            }
        }
    }
}

/// The puts of all that the reader still gives. The input is let go before they are used.
pub fn read_puts<A: Allocator + Copy, R: Read>(
    alloc: A,
    form: Form,
    input: &mut R,
) -> Result<Puts<A>, ReadFault>
    ensures { IfOk result (λ puts. IfSome (R.remaining input.old)
        (λ xs. given_of puts ≡ given_in form xs)) }
{
    let bytes = read_all(alloc, input)?;
    match puts_of_input(alloc, form, &bytes) {
        Ok(puts) => Ok(puts),
        Err(_) => Err(ReadFault::NoMemory),
    }
}

/// The puts of the lines of an input.
fn puts_of_input<A: Allocator + Copy>(
    alloc: A,
    form: Form,
    input: &[u8],
) -> Result<Puts<A>, AllocError>
    ensures { IfOk result (λ puts. given_of puts ≡ given_in form input.now) }
{
    let mut puts = Puts::none(alloc);
    for (number, line) in numbered_lines(input) {
        let is_put = puts.take(number, put_of_line(alloc, form, line)?)?;
        if !is_put {
            return Ok(puts);
        }
    }
    Ok(puts)
}

/// The put of a line `KEY HEX` or `KEY JSON`, by the form of records, or why it is none.
pub fn put_of_line<A: Allocator + Copy>(
    alloc: A,
    form: Form,
    line: &[u8],
) -> Result<Result<Write<A>, WordFault<A>>, AllocError>
    ensures { IfOk result (λ put. write_read put ≡ put_of_line_of form line.now) }
{
    let space = space_in(line);
    if space == line.len() {
        return Ok(Err(WordFault::BadWord));
    }
    put_of_words(alloc, form, &line[..space], &line[space + 1..])
}

/// The put of a key and of the word of a record, or why they are none.
fn put_of_words<A: Allocator + Copy>(
    alloc: A,
    form: Form,
    key: &[u8],
    word: &[u8],
) -> Result<Result<Write<A>, WordFault<A>>, AllocError>
    ensures { IfOk result (λ put. write_read put ≡ put_of key.now (record_of form word.now)) }
{
    if key.is_empty() {
        return Ok(Err(WordFault::BadWord));
    }
    match record_of_word(alloc, form, word)? {
        Ok(bytes) => Ok(Ok(Write::Put(Vec::from_slice(alloc, key)?, bytes))),
        Err(fault) => Ok(Err(fault)),
    }
}
