//! A writer of the standard library as an output.

ghost use Rattle.std.specs.Prelude.{◌≡◌, ◌<◌, ◌≤◌, suc, length, IfOk, OnOk, OnErr};
ghost use Rattle.export.specs.Outs.{held, Holds, TakesFirst, WriterTakes};

use crate::out::{Failed, Out};
use crate::taken::Taken;
use counts::Count;
use std::io::Write;
use std::marker::Model;

/// A writer of the standard library as an output. It fails where the writer answers an error of whatever kind, and where
/// it takes none of the bytes.
///
/// A contract sees it as the writer, its bytes, and how often it has failed. The bytes are those that the writer held from
/// the start, where a contract knows what it holds, and after them those that it has taken. So of a writer of a type that
/// always tells what it holds, as a vector, these bytes are what it holds.
#[derive(Drop)]
pub struct ToWriter<W: Write> {
    writer: W,
    taken: Taken,
    failures: Count,
}

impl<W: Write> Model for ToWriter<W> {
    ghost use Rattle.export.specs.Outs.{Holds, Writing};

    ghost Value = { Writing W };

    ghost view = { λ w. record {
      writer = w.writer;
      taken = w.taken.bytes;
      failures = w.failures.times;
    } };

    ghost invariant = { λ w. Holds (λ v. W.contents v) w.writer w.taken.bytes };
}

impl<W: Write> ToWriter<W> {
    /// This writer, of which nothing was asked so far.
    pub fn new(writer: W) -> ToWriter<W>
        ensures { result ≡ record {
          writer = writer;
          taken = held (W.contents writer);
          failures = 0;
        } }
    {
        let taken = Taken::after(&writer);
        ToWriter {
            writer,
            taken,
            failures: Count::never(),
        }
    }

    /// The writer. It holds what it held from the start, and then what was taken: so a contract knows of a vector that a
    /// file was written behind what stood in it.
    pub fn into_writer(self) -> W
        ensures writer { result ≡ self.writer }
        ensures bytes { Holds (λ w. W.contents w) result self.taken }
    {
        self.writer
    }
}

impl<W: Write> Out for ToWriter<W> {
    ghost taken = { λ w. w.taken };

    ghost failures = { λ w. w.failures };

    /// Hands the bytes to the writer. What is taken is then among what it holds, where that is known.
    fn write(&mut self, bytes: &[u8]) -> Result<usize, Failed>
        ensures some { 0 < length bytes.now → IfOk result (λ count. 0 < count) }
        ensures within { IfOk result (λ count. count ≤ length bytes.now) }
        ensures taken { IfOk result (TakesFirst self.old.taken self.new.taken bytes.now) }
        ensures went { OnOk result (self.new.failures ≡ self.old.failures) }
        ensures refused { OnErr result (self.new.taken ≡ self.old.taken) }
        ensures failed { OnErr result (self.new.failures ≡ suc self.old.failures) }
        ensures writer { WriterTakes (λ w. W.contents w) self.old self.new result bytes.now }
    {
        if bytes.is_empty() {
            return Ok(0);
        }
        match self.writer.write(bytes) {
            Ok(count) if count > 0 => {
                self.taken = self.taken.with(&bytes[..count]);
                Ok(count)
            }
            _ => {
                self.failures = self.failures.once_more();
                Err(Failed)
            }
        }
    }
}
