//! What is shown of an input that takes long to be read.
use crate::decimal::Decimal;
use std::io::{self, Read, Write};
use std::time::{Clock, Duration, Instant};

/// A reader that shows how many bytes it has read, where it is told to and reading takes longer than a second.
#[derive(Drop)]
pub struct Watched<R, X, C> {
    input: R,
    progress: Option<Progress<X, C>>,
}

impl<R: Read, X: Write, C: Clock + Drop> Watched<R, X, C> {
    /// Over this reader, by this clock. Nothing is shown where `err` is `None`.
    pub fn new(input: R, err: Option<X>, clock: C) -> Watched<R, X, C> {
        let progress = match err {
            Some(err) => Some(Progress::new(err, clock)),
            None => None,
        };
        Watched { input, progress }
    }
}

impl<R: Read, X: Write, C: Clock> Read for Watched<R, X, C> {
    ghost remaining = { λ s. R.remaining s.input };

    fn read(&mut self, buf: &mut [u8]) -> io::Result<usize> {
        if let Some(progress) = &mut self.progress {
            progress.begin();
        }
        let read = self.input.read(buf);
        if let Some(progress) = &mut self.progress {
            match &read {
                Ok(count) if *count > 0 => progress.add(*count),
                _ => progress.clear(),
            }
        }
        read
    }
}

/// How many bytes were read since when, on a line of `err` that is written over and over.
#[derive(Drop)]
struct Progress<X, C> {
    err: X,
    clock: C,
    /// When reading began, once it has, and where the clock can be read.
    began: Option<Instant>,
    /// When the line was written last, where it stands.
    shown: Option<Instant>,
    bytes: u64,
}

impl<X: Write, C: Clock> Progress<X, C> {
    fn new(err: X, clock: C) -> Progress<X, C> {
        Progress {
            err,
            clock,
            began: None,
            shown: None,
            bytes: 0,
        }
    }

    /// Notes when reading begins.
    fn begin(&mut self) {
        if self.began.is_none() {
            self.began = Instant::now(&self.clock).ok();
        }
    }

    /// Counts what was read, and shows the count where it is time for that.
    fn add(&mut self, count: usize) {
        self.bytes = self.bytes.saturating_add(count as u64);
        if let Ok(now) = Instant::now(&self.clock) {
            if self.is_due(now) {
                let _ = write!(self.err, "\r{} bytes read", Decimal(self.bytes));
                let _ = self.err.flush();
                self.shown = Some(now);
            }
        }
    }

    /// Whether the count is to be shown: a second after the beginning, and then five times a second.
    fn is_due(&self, now: Instant) -> bool {
        match (self.began, self.shown) {
            (Some(_), Some(shown)) => now.duration_since(shown) >= Duration::from_millis(200),
            (Some(began), None) => now.duration_since(began) >= Duration::from_secs(1),
            (None, _) => false,
        }
    }

    /// Takes the line away, where it stands.
    fn clear(&mut self) {
        if self.shown.is_some() {
            let _ = write!(self.err, "\r{:31}\r", "");
            let _ = self.err.flush();
            self.shown = None;
        }
    }
}
