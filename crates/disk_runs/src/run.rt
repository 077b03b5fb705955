//! A run over a script.
use crate::answer::{Fault, text};
use crate::folder::Folder;
use crate::mem_folder::MemFolder;
use crate::memory::Memory;
use crate::names::Names;
use crate::streams::Streams;
use crate::trees::Trees;
use crate::words::words_of;
use crate::{ends, frame, system};
use std::alloc::AllocError;

/// What the lines are about: a store in memory, one over a folder in memory, two in folders of the system, the files of a folder in memory
/// and of one of the system, a source and a sink in memory, and the files of a client.
#[derive(Drop)]
pub struct Run {
    rt: HostRuntime,
    memory: Memory,
    folder: MemFolder,
    first: Folder,
    second: Folder,
    names: Names,
    streams: Streams,
    trees: Trees,
}

impl Run {
    /// An empty store in memory, one over an empty folder in memory, and none in a folder of the system.
    pub fn new(rt: HostRuntime) -> Run {
        let alloc = rt.alloc();
        Run {
            rt,
            memory: Memory::new(alloc),
            folder: MemFolder::new(alloc),
            first: Folder::new(),
            second: Folder::new(),
            names: Names::new(rt),
            streams: Streams::new(alloc),
            trees: Trees::new(rt),
        }
    }

    /// What a line about streams, or about a store in memory, is answered.
    fn on_streams(&mut self, words: &[&str]) -> Result<String, Fault> {
        match words {
            ["source", words @ ..] => self.streams.on_source(self.rt.alloc(), words),
            ["sink", words @ ..] => self.streams.on_sink(self.rt.alloc(), words),
            ["stream", words @ ..] => ends::answer(&self.rt, words),
            ["folder", words @ ..] => self.folder.answer(self.rt.alloc(), words),
            ["files", words @ ..] => self.names.on_memory(self.rt.alloc(), words),
            ["real", words @ ..] => self.names.on_real(self.rt.alloc(), words),
            ["client", words @ ..] => self.trees.on_memory(self.rt.alloc(), words),
            ["tree", words @ ..] => self.trees.on_folder(self.rt.alloc(), words),
            _ => self.memory.answer(self.rt.alloc(), words),
        }
    }

    /// What a line is answered.
    fn answer(&mut self, words: &[&str]) -> Result<String, Fault> {
        match words {
            [] => Ok(String::new(self.rt.alloc())),
            ["first", words @ ..] => self.first.answer(&self.rt, words),
            ["second", words @ ..] => self.second.answer(&self.rt, words),
            ["system", words @ ..] => system::answer(&self.rt, words),
            ["frame", words @ ..] => frame::answer(self.rt.alloc(), words),
            _ => self.on_streams(words),
        }
    }

    /// What the line is answered. A line that begins with `#` is a comment, and is given back.
    pub fn line(&mut self, line: &str) -> Result<String, AllocError> {
        let alloc = self.rt.alloc();
        if line.starts_with('#') {
            return String::from_str(alloc, line);
        }
        let words = words_of(alloc, line)?;
        let answered = self.answer(words.as_slice());
        text(alloc, answered)
    }
}
