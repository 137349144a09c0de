//! Clocks that never stop a measurement.

use std::time::{Clock, CpuClock, Duration, Instant};

/// The moment at which something began, where the clock can be read.
#[derive(Clone, Copy, Drop)]
pub struct Watch {
    start: Option<Instant>,
}

impl Watch {
    pub fn start<R: Clock>(rt: &R) -> Watch {
        match Instant::now(rt) {
            Ok(start) => Watch { start: Some(start) },
            Err(_) => Watch { start: None },
        }
    }

    /// How many nanoseconds have passed, or the greatest number of them where the clock can't be read.
    pub fn nanos<R: Clock>(&self, rt: &R) -> u128 {
        let Some(start) = self.start else {
            return u128::MAX;
        };
        match start.elapsed(rt) {
            Ok(passed) => passed.as_nanos(),
            Err(_) => u128::MAX,
        }
    }
}

/// How much processor time the process had taken when something began, where the system tells it. Other work on the machine
/// disturbs this less than the time on the wall.
#[derive(Clone, Copy, Drop)]
pub struct Meter {
    start: Option<Duration>,
}

impl Meter {
    pub fn start<R: CpuClock>(rt: &R) -> Meter {
        match rt.process_cpu_time() {
            Ok(start) => Meter { start: Some(start) },
            Err(_) => Meter { start: None },
        }
    }

    /// How many nanoseconds a meter tells of nothing, on average, as it takes time to read it.
    pub fn of_nothing<R: CpuClock>(rt: &R) -> u128 {
        let mut sum = 0u128;
        for _ in 0..1_000 {
            let meter = Meter::start(rt);
            sum = sum.saturating_add(meter.nanos(rt));
        }
        sum / 1_000
    }

    /// How many nanoseconds it took since then, or the greatest number of them where the system doesn't tell.
    pub fn nanos<R: CpuClock>(&self, rt: &R) -> u128 {
        let Some(start) = self.start else {
            return u128::MAX;
        };
        match rt.process_cpu_time() {
            Ok(end) => end.saturating_sub(start).as_nanos(),
            Err(_) => u128::MAX,
        }
    }
}
