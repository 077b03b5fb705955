//! Binds many paths by an include-exclude list of many rules, so that the binding can be timed. It prints how many there
//! are of both, and how the paths were bound.

use choosers::{Binder, Bound, read_rules};
use std::alloc::Global;
use std::io;

/// How many paths are bound where no number is given.
pub(crate) const USUAL_PATHS: u32 = 1000;

/// How many rules there are.
const RULES: u32 = 200;

/// The hexadecimal digit that a number ends in.
fn digit(number: u32) -> u8 {
    b"0123456789abcdef"[(number % 16) as usize]
}

/// The line of a rule: of two in a row the first leaves paths out, and the second binds others.
fn line(number: u32) -> [u8; 26] {
    let mut line = if number % 2 == 0 {
        *b"EXCLUDE /.../d00/.../*a*7\n"
    } else {
        *b"INCLUDE /.../d00/*b*.txt \n"
    };
    line[14] = digit(number / 16);
    line[15] = digit(number);
    line
}

/// A path in one of 256 folders.
fn path(number: u32) -> [u8; 31] {
    let mut path = *b"/usr/share/d00/doc/file00000a07";
    path[12] = digit(number / 16);
    path[13] = digit(number);
    path[23] = digit(number / 4096);
    path[24] = digit(number / 256);
    path[25] = digit(number / 16);
    path[26] = digit(number / 3);
    path[30] = digit(number / 5);
    path
}

/// A binder by these rules; none for want of memory.
fn binder(alloc: Global) -> Option<Binder> {
    let mut text = Vec::new(alloc);
    for number in 0..RULES {
        text.extend_from_slice(&line(number)).ok()?;
    }
    if text.len() > 1 << 20 {
        return None;
    }
    read_rules(alloc, text.as_slice()).ok().map(Binder::new)
}

/// How many paths were bound by a rule, by default, and not at all.
#[derive(Clone, Copy, Debug)]
struct Counts {
    by_rule: u32,
    default: u32,
    excluded: u32,
}

impl Counts {
    /// Counts one path more.
    fn add(&mut self, bound: Bound) {
        match bound {
            Bound::ByRule(_) => self.by_rule = self.by_rule.saturating_add(1),
            Bound::Default => self.default = self.default.saturating_add(1),
            Bound::Excluded => self.excluded = self.excluded.saturating_add(1),
        }
    }
}

/// Binds so many paths.
fn bind(binder: &Binder, paths: u32) -> Counts {
    let mut counts = Counts {
        by_rule: 0,
        default: 0,
        excluded: 0,
    };
    for number in 0..paths {
        counts.add(binder.bind(&path(number)));
    }
    counts
}

/// Binds so many paths by the rules.
pub(crate) fn report(rt: &impl Print, alloc: Global, paths: u32) -> io::Result<()> {
    match binder(alloc) {
        Some(binder) => {
            let counts = bind(&binder, paths);
            println!(rt;
                "{paths} paths, {} rules: {} by a rule, {} by default, {} left out",
                binder.rules().len(),
                counts.by_rule,
                counts.default,
                counts.excluded
            )
        }
        None => println!(rt; "want of memory"),
    }
}
