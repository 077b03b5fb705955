//! Lines that are made again and again, with another call of the device that fails each time, and there the machine stops.
use crate::checks::{Databases, databases_of, opened};
use crate::desk::Desk;
use crate::fault::{Fault, Finding};
use std::alloc::Global;

/// How the machine stops: which of the writes that aren't durable are left. None; the first of each file; the first, and half of the last; all.
const CHOICES: [u64; 4] = [0, 1, (1 << 63) + 1, (1 << 63) - 1];

/// So many calls fail from one on: more than one line makes, so that no call is made in a machine that has stopped.
const REST: u64 = 64;

/// More calls than an opening makes.
const MOST: u64 = 1000;

/// Makes all of these lines over a new store, of which the calls fail that begin at these moments.
pub fn make_all(
    alloc: Global,
    desk: &mut Desk,
    lines: &[String],
    failing: &[u64],
) -> Result<(), Fault> {
    desk.begin(failing.to_vec(alloc)?)?;
    for line in lines {
        let _ = desk.make(line.as_str());
    }
    Ok(())
}

/// The moment of the store behind these lines.
pub fn moment_behind(
    alloc: Global,
    desk: &mut Desk,
    lines: &[String],
    failing: &[u64],
) -> Result<u64, Fault> {
    make_all(alloc, desk, lines, failing)?;
    Ok(desk.moment())
}

/// The moments from this one on.
fn from(alloc: Global, moment: u64) -> Result<Vec<u64>, Fault> {
    let mut moments = Vec::new(alloc);
    for later in 0..REST {
        moments.push(moment.saturating_add(later))?;
    }
    Ok(moments)
}

/// Why a sweep ended behind a stop in this call by this choice.
fn found(call: u64, choice: u64, fault: Fault) -> Fault {
    match fault {
        Fault::Wrong(finding) => Fault::Found(call, choice, finding),
        Fault::NotOpened(refused) => Fault::Found(call, choice, Finding::NotOpened(refused)),
        other => other,
    }
}

/// What is swept where the machine stops in a call.
#[derive(Drop)]
struct Stopping<'a> {
    alloc: Global,
    lines: &'a [String],
    /// The moment of the store before the first line that is swept.
    first: u64,
    databases: &'a Databases,
}

impl Stopping<'_> {
    /// Makes the lines up to the first of which a call fails, as all from this moment on do; there the machine stops.
    fn stop_at(&self, desk: &mut Desk, moment: u64, choice: u64) -> Result<(), Fault> {
        desk.begin(from(self.alloc, moment)?)?;
        for line in self.lines {
            if !desk.has_faults() {
                let _ = desk.make(line.as_str());
            }
        }
        desk.stop(choice);
        Ok(())
    }

    /// The same where the machine stops once more, in this call of the opening; and whether the opening made that call.
    fn opened_again(
        &self,
        desk: &mut Desk,
        moment: u64,
        choice: u64,
        later: u64,
    ) -> Result<(u64, bool), Fault> {
        self.stop_at(desk, moment, choice)?;
        let second = desk.moment().saturating_add(later);
        desk.fail_at(from(self.alloc, second)?);
        let has_failed = desk.open().is_err();
        desk.stop(choice);
        Ok((opened(self.alloc, desk, self.databases)?, has_failed))
    }

    /// How many calls the opening makes behind a stop in this call, each of which was stopped as well.
    fn stops(&self, desk: &mut Desk, moment: u64, choice: u64) -> Result<u64, Fault> {
        self.stop_at(desk, moment, choice)?;
        let first = opened(self.alloc, desk, self.databases)?;
        for later in 0..MOST {
            let (number, has_failed) = self.opened_again(desk, moment, choice, later)?;
            if number != first {
                return Err(Fault::Wrong(Finding::Moved));
            }
            if !has_failed {
                return Ok(later);
            }
        }
        Err(Fault::Wrong(Finding::Endless))
    }

    /// How many stops there are in openings behind a stop in this call by each choice.
    fn call(&self, desk: &mut Desk, moment: u64) -> Result<u64, Fault> {
        let mut total: u64 = 0;
        for choice in CHOICES {
            match self.stops(desk, moment, choice) {
                Ok(count) => total = total.saturating_add(count),
                Err(fault) => {
                    let call = moment.saturating_sub(self.first);
                    return Err(found(call, choice, fault));
                }
            }
        }
        Ok(total)
    }
}

/// Sweeps the lines behind the first so many: how many stops there are in their calls and behind the last, and how many in the openings behind these.
pub fn stop_each(
    alloc: Global,
    desk: &mut Desk,
    lines: &[String],
    mark: usize,
) -> Result<String, Fault> {
    let front = &lines[..mark.min(lines.len())];
    let first = moment_behind(alloc, desk, front, &[])?;
    make_all(alloc, desk, lines, &[])?;
    let databases = databases_of(alloc, desk)?;
    let last = desk.moment();
    let stopping = Stopping {
        alloc,
        lines,
        first,
        databases: &databases,
    };
    let mut again: u64 = 0;
    for moment in first..=last {
        again = again.saturating_add(stopping.call(desk, moment)?);
    }
    let stops = last
        .saturating_sub(first)
        .saturating_add(1)
        .saturating_mul(4);
    Ok(format!(in alloc; "{stops} stops, {again} in openings")?)
}

/// What is swept where one call alone fails.
#[derive(Clone, Copy)]
struct Failing<'a> {
    alloc: Global,
    lines: &'a [String],
    /// The moment of the store before the first line that is swept.
    first: u64,
}

impl Failing<'_> {
    /// Makes all lines, of whose calls this one fails alone; behind them the machine stops. What is then opened is to be behind some of the first transactions that were made so.
    fn stop(&self, desk: &mut Desk, call: u64, choice: u64) -> Result<u64, Fault> {
        let mut moments = Vec::new(self.alloc);
        moments.push(self.first.saturating_add(call))?;
        make_all(self.alloc, desk, self.lines, moments.as_slice())?;
        let databases = databases_of(self.alloc, desk)?;
        desk.stop(choice);
        opened(self.alloc, desk, &databases)
    }

    /// The same by each choice.
    fn call(&self, desk: &mut Desk, call: u64) -> Result<(), Fault> {
        for choice in CHOICES {
            match self.stop(desk, call, choice) {
                Ok(_) => {}
                Err(fault) => return Err(found(call, choice, fault)),
            }
        }
        Ok(())
    }
}

/// Lets each call of the lines behind the first so many fail alone: how many there are.
pub fn fail_each(
    alloc: Global,
    desk: &mut Desk,
    lines: &[String],
    mark: usize,
) -> Result<String, Fault> {
    let front = &lines[..mark.min(lines.len())];
    let first = moment_behind(alloc, desk, front, &[])?;
    let last = moment_behind(alloc, desk, lines, &[])?;
    let calls = last.saturating_sub(first);
    let failing = Failing {
        alloc,
        lines,
        first,
    };
    for call in 0..calls {
        failing.call(desk, call)?;
    }
    Ok(format!(in alloc; "{calls} calls")?)
}
