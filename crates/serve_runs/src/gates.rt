//! Gates before the steps of jobs, and what is printed of jobs that run side by side.
use crate::answer::number;
use crew::Gate;
use std::alloc::{AllocError, Global};
use std::sync::atomic::{AtomicBool, AtomicU32, Ordering};

/// So many turns an actor is held at most.
const TURNS: u32 = 1 << 30;

/// Holds each of so many actors before its second step until all of them have come there. What the first one waits for comes only where they run side by side.
#[derive(Drop)]
pub struct Holding {
    many: u32,
    here: AtomicU32,
    is_over: AtomicBool,
}

impl Holding {
    /// A gate for so many actors.
    pub fn new(many: u32) -> Holding {
        Holding {
            many,
            here: AtomicU32::new(0),
            is_over: AtomicBool::new(false),
        }
    }

    /// Whether one was held to its limit.
    pub fn told(&self) -> &'static str {
        if self.is_over.load(Ordering::SeqCst) {
            "held to the limit"
        } else {
            "all came"
        }
    }
}

impl Gate for Holding {
    fn pass(&self, _actor: u32, turn: u64, _last: u64) {
        if turn != 1 {
            return;
        }
        let _before = self.here.fetch_add(1, Ordering::SeqCst);
        for _ in 0..TURNS {
            if self.here.load(Ordering::SeqCst) >= self.many {
                return;
            }
        }
        self.is_over.store(true, Ordering::SeqCst);
    }
}

/// A word that is printed, or what stands for it where it is the number of one of the first `many` objects.
fn without_object<'a>(word: &'a str, many: u32, open: &'a str) -> &'a str {
    let Some(digits) = word.strip_prefix("object=") else {
        return word;
    };
    match number(digits) {
        Ok(object) if object >= 1 && object <= many => open,
        _ => word,
    }
}

/// A printed line joins the others.
fn push_line(text: &mut String, line: &str, many: u32, open: &str) -> Result<(), AllocError> {
    let mut is_first = true;
    for word in line.split(' ') {
        if !is_first {
            text.push(' ')?;
        }
        text.push_str(without_object(word, many, open))?;
        is_first = false;
    }
    text.push('\n')
}

/// What was put, with `1..many` for each object's number that is one of these: which of them a job gets is open.
pub fn without_objects(alloc: Global, put: &str, many: u32) -> Result<String, AllocError> {
    let open = format!(in alloc; "object=1..{many}")?;
    let mut text = String::new(alloc);
    for line in put.lines() {
        push_line(&mut text, line, many, &open)?;
    }
    Ok(text)
}
