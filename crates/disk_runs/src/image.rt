//! An image that is written to a file of the store in memory.
use crate::answer::{Fault, bytes_text, done, truth_text, word_text};
use crate::calls::ready;
use crate::words::{bytes, large, number};
use db_image::{Image, Mark, Phase, Progress};
use mem_store::MemStore;
use std::alloc::Global;
use std::mem;

/// The image that is being written.
#[derive(Drop)]
pub struct Images {
    image: Option<Image>,
}

fn mark(word: &str) -> Result<Mark, Fault> {
    match word {
        "server" => Ok(Mark::Server),
        "backup" => Ok(Mark::Backup),
        _ => Err(Fault::NoCommand),
    }
}

fn phase_word(phase: Phase) -> &'static str {
    match phase {
        Phase::Begun => "begun",
        Phase::Written(_) => "written in part",
        Phase::Durable => "durable",
        Phase::Open => "open",
        Phase::Failed => "failed",
    }
}

fn progress_word(progress: Progress) -> &'static str {
    match progress {
        Progress::More => "more",
        Progress::Done => "done",
    }
}

/// The number and the payload in the file.
fn read_whole(
    alloc: Global,
    store: &mut MemStore,
    file: &str,
    kind: &str,
) -> Result<Option<(u64, Vec<u8>)>, Fault> {
    let found = Image::read(alloc, store, number(file)?, mark(kind)?)?;
    Ok(found)
}

fn image_text(alloc: Global, number: u64, payload: &[u8]) -> Result<String, Fault> {
    let digits = bytes_text(alloc, payload)?;
    Ok(format!(in alloc; "number {number}, payload {digits}")?)
}

fn read(alloc: Global, store: &mut MemStore, file: &str, kind: &str) -> Result<String, Fault> {
    match read_whole(alloc, store, file, kind)? {
        Some((number, payload)) => image_text(alloc, number, &payload),
        None => word_text(alloc, "shut"),
    }
}

fn same(
    alloc: Global,
    store: &mut MemStore,
    file: &str,
    kind: &str,
    wanted: &str,
    pieces: &[&str],
) -> Result<String, Fault> {
    let wanted = large(wanted)?;
    let bytes = bytes(alloc, pieces)?;
    match read_whole(alloc, store, file, kind)? {
        Some((number, payload)) => truth_text(
            alloc,
            number == wanted && payload.as_slice() == bytes.as_slice(),
        ),
        None => word_text(alloc, "shut"),
    }
}

impl Images {
    /// No image.
    pub fn new() -> Images {
        Images { image: None }
    }

    fn begin(
        &mut self,
        alloc: Global,
        file: &str,
        kind: &str,
        number_word: &str,
        pieces: &[&str],
    ) -> Result<String, Fault> {
        let payload = bytes(alloc, pieces)?;
        let image = Image::begin(payload, mark(kind)?, large(number_word)?, number(file)?);
        drop(mem::replace(&mut self.image, Some(image)));
        done(alloc)
    }

    fn next(&mut self, alloc: Global, store: &mut MemStore) -> Result<String, Fault> {
        let image = self.image.as_mut().ok_or(Fault::NotMade)?;
        ready(store)?;
        let progress = image.next(store)?;
        word_text(alloc, progress_word(progress))
    }

    fn phase(&self, alloc: Global) -> Result<String, Fault> {
        match &self.image {
            Some(image) => word_text(alloc, phase_word(image.phase())),
            None => Err(Fault::NotMade),
        }
    }

    /// What a line about the image is answered.
    pub fn answer(
        &mut self,
        alloc: Global,
        store: &mut MemStore,
        words: &[&str],
    ) -> Result<String, Fault> {
        match words {
            ["begin", file, kind, number, pieces @ ..] => {
                self.begin(alloc, file, kind, number, pieces)
            }
            ["next"] => self.next(alloc, store),
            ["phase"] => self.phase(alloc),
            ["read", file, kind] => read(alloc, store, file, kind),
            ["same", file, kind, number, pieces @ ..] => {
                same(alloc, store, file, kind, number, pieces)
            }
            _ => Err(Fault::NoCommand),
        }
    }
}
