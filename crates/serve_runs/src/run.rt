//! A run over the commands.
use crate::answer::{Fault, large, number, numbers, text};
use crate::bench::Bench;
use crate::blank::BlankStore;
use crate::call::{Said, Under, call, call_alone, last_line, text_of, words_of};
use crate::gates::{Holding, without_objects};
use crate::trials::Trial;
use crate::{echo, files, recovering, sweeps, trees};
use choosers::Binder;
use client_trees::MemTree;
use crew::{Gate, OpenGate};
use hex::{decode, encode};
use mem_files::{MemReader, MemWriter};
use mem_store::MemStore;
use std::alloc::{AllocError, Global};
use std::mem;
use std::sync::Wait;
use std::thread::Threads;
use store_api::Store;
use tree_api::{MemSink, MemSource};

/// How many bytes a stream moves at a time at the most, and which of its calls fail.
#[derive(Drop)]
struct Way {
    most: usize,
    failing: Vec<u64>,
}

/// The store and the clients' trees that the commands are about, and what the next call of the server is given.
#[derive(Drop)]
pub struct Run<'a, R> {
    rt: &'a R,
    alloc: Global,
    store: MemStore,
    trees: Vec<MemTree>,
    script: String,
    rules: String,
    source: Way,
    sink: Way,
}

/// A stream that moves all at once, and doesn't fail.
fn plain(alloc: Global) -> Way {
    Way {
        most: usize::MAX,
        failing: Vec::new(alloc),
    }
}

/// The way that the words name.
fn read_way(alloc: Global, most: &str, calls: &[&str]) -> Result<Way, Fault> {
    Ok(Way {
        most: number(most)? as usize,
        failing: numbers(alloc, calls)?,
    })
}

/// A reader of the text; of no bytes at a time it gives all.
fn reader(alloc: Global, text: &str, way: Way) -> Result<MemReader, AllocError> {
    let Way { most, failing } = way;
    let source = MemSource::new(alloc, text.as_bytes().to_vec(alloc)?).with_failing(failing);
    Ok(MemReader::new(if most > 0 {
        source.giving_at_most(most)
    } else {
        source
    }))
}

fn writer(alloc: Global, way: Way) -> MemWriter {
    let Way { most, failing } = way;
    MemWriter::new(MemSink::new(alloc).with_failing(failing), most)
}

impl<'a, R> Run<'a, R> {
    /// An empty store, no trees, and no script.
    pub fn new(rt: &'a R, alloc: Global) -> Run<'a, R> {
        Run {
            rt,
            alloc,
            store: MemStore::new(alloc),
            trees: Vec::new(alloc),
            script: String::new(alloc),
            rules: String::new(alloc),
            source: plain(alloc),
            sink: plain(alloc),
        }
    }

    fn done(&self) -> Result<String, Fault> {
        Ok(String::from_str(self.alloc, "done")?)
    }

    /// The script, which is empty then.
    fn take_script(&mut self) -> String {
        mem::replace(&mut self.script, String::new(self.alloc))
    }

    /// The include-exclude list, which is empty then.
    fn take_binder(&mut self) -> Result<Binder, Fault> {
        let rules = mem::replace(&mut self.rules, String::new(self.alloc));
        trees::binder_of(self.alloc, rules.as_bytes())
    }

    /// The bytes that a word spells; `-` spells none.
    fn bytes(&self, word: &str) -> Result<Vec<u8>, Fault> {
        if word == "-" {
            return Ok(Vec::new(self.alloc));
        }
        match decode(self.alloc, word) {
            Ok(bytes) => Ok(bytes),
            Err(_) => Err(Fault::NoCommand),
        }
    }

    fn start_again(&mut self) -> Result<String, Fault> {
        drop(mem::replace(&mut self.store, MemStore::new(self.alloc)));
        self.done()
    }

    /// So many empty trees, in place of those that were there.
    fn plant(&mut self, count: &str) -> Result<String, Fault> {
        let trees = trees::empty(self.alloc, number(count)?)?;
        drop(mem::replace(&mut self.trees, trees));
        self.done()
    }

    fn put_file(
        &mut self,
        tree: &str,
        path: &str,
        mtime: &str,
        bytes: &str,
    ) -> Result<String, Fault> {
        let bytes = self.bytes(bytes)?;
        trees::put(self.alloc, &mut self.trees, tree, path, mtime, &bytes)?;
        self.done()
    }

    fn fail_tree(&mut self, tree: &str, calls: &[&str]) -> Result<String, Fault> {
        trees::fail_at(self.alloc, &mut self.trees, tree, calls)?;
        self.done()
    }

    fn stop(&mut self, choice: &str) -> Result<String, Fault> {
        files::stop(self.alloc, &mut self.store, large(choice)?);
        self.done()
    }

    fn fail(&mut self, words: &[&str]) -> Result<String, Fault> {
        let moments = numbers(self.alloc, words)?;
        files::fail_at(self.alloc, &mut self.store, moments);
        self.done()
    }

    fn write(&mut self, file: &str, offset: &str, bytes: &str) -> Result<String, Fault> {
        let bytes = self.bytes(bytes)?;
        files::write(&mut self.store, number(file)?, large(offset)?, &bytes)?;
        self.done()
    }

    fn show(&self, file: &str) -> Result<String, Fault> {
        Ok(encode(self.alloc, self.store.bytes(number(file)?))?)
    }

    fn faults(&self, file: &str) -> Result<String, Fault> {
        let count = self.store.faults(number(file)?);
        Ok(format!(in self.alloc; "{count}")?)
    }

    fn moment(&self) -> Result<String, Fault> {
        let moment = self.store.moment();
        Ok(format!(in self.alloc; "{moment}")?)
    }

    fn set_source(&mut self, most: &str, calls: &[&str]) -> Result<String, Fault> {
        self.source = read_way(self.alloc, most, calls)?;
        self.done()
    }

    fn set_sink(&mut self, most: &str, calls: &[&str]) -> Result<String, Fault> {
        self.sink = read_way(self.alloc, most, calls)?;
        self.done()
    }

    fn letters(&mut self, count: &str) -> Result<String, Fault> {
        let count = number(count)?.min(65536) as usize;
        let letters = "x".repeat(self.alloc, count)?;
        self.script.push_str(&letters)?;
        self.done()
    }

    fn long(&mut self, count: &str) -> Result<String, Fault> {
        let done = self.letters(count)?;
        self.script.push('\n')?;
        Ok(done)
    }

    fn empty(&mut self, count: &str) -> Result<String, Fault> {
        for _ in 0..number(count)?.min(1 << 20) {
            self.script.push('\n')?;
        }
        self.done()
    }

    fn add_text(&mut self, digits: &str) -> Result<String, Fault> {
        let bytes = self.bytes(digits)?;
        match str::from_utf8(&bytes) {
            Ok(text) => self.script.push_str(text)?,
            Err(_) => return Err(Fault::NoCommand),
        }
        self.done()
    }

    /// Runs the script over an answerer that gives each line back.
    fn echo(&mut self) -> Result<String, Fault> {
        let alloc = self.alloc;
        let script = self.take_script();
        let from = mem::replace(&mut self.source, plain(alloc));
        let to = mem::replace(&mut self.sink, plain(alloc));
        let from = reader(alloc, &script, from)?;
        Ok(echo::answer(alloc, from, writer(alloc, to))?)
    }

    fn pieces(&mut self) -> Result<String, Fault> {
        let script = self.take_script();
        Ok(echo::pieces(self.alloc, &script)?)
    }

    fn sink_faults(&mut self) -> Result<String, Fault> {
        let script = self.take_script();
        Ok(echo::sink_faults(self.alloc, &script)?)
    }

    /// What a command on the script is answered.
    fn on_script(&mut self, words: &[&str]) -> Result<String, Fault> {
        match words {
            ["days", count] => self.days(count),
            ["long", count] => self.long(count),
            ["letters", count] => self.letters(count),
            ["empty", count] => self.empty(count),
            ["text", digits] => self.add_text(digits),
            ["echo"] => self.echo(),
            ["pieces"] => self.pieces(),
            ["sinks"] => self.sink_faults(),
            _ => Err(Fault::NoCommand),
        }
    }

    fn days(&mut self, count: &str) -> Result<String, Fault> {
        for _ in 0..number(count)?.min(1 << 20) {
            self.script.push_str("DAY 1\n")?;
        }
        self.done()
    }

    /// The trial of the script, which is empty then.
    fn trial(&mut self, choice: &str) -> Result<Trial<'a, R>, Fault> {
        let choice = large(choice)?;
        let script = self.take_script();
        Ok(Trial::new(self.rt, self.alloc, choice, script)?)
    }
}

impl<R: Threads + Wait + Sync> Run<'_, R> {
    /// Calls the server over the store and the trees.
    fn ask<G: Gate + Sync>(&mut self, words: &[&str], gate: &G) -> Result<Said, Fault> {
        let alloc = self.alloc;
        let script = self.take_script();
        let from = mem::replace(&mut self.source, plain(alloc));
        let to = mem::replace(&mut self.sink, plain(alloc));
        let from = reader(alloc, &script, from)?;
        let binder = self.take_binder()?;
        let under = Under {
            store: mem::replace(&mut self.store, MemStore::new(alloc)),
            trees: mem::replace(&mut self.trees, Vec::new(alloc)),
        };
        let (under, answered) = call(
            self.rt,
            alloc,
            words,
            under,
            binder,
            from,
            writer(alloc, to),
            gate,
        )?;
        let Under { store, trees } = under;
        drop(mem::replace(&mut self.store, store));
        drop(mem::replace(&mut self.trees, trees));
        Ok(answered)
    }

    fn call(&mut self, words: &[&str]) -> Result<String, Fault> {
        let answered = self.ask(words, &OpenGate)?;
        Ok(words_of(self.alloc, &answered, text_of(&answered))?)
    }

    fn call_long(&mut self, words: &[&str]) -> Result<String, Fault> {
        let answered = self.ask(words, &OpenGate)?;
        Ok(words_of(self.alloc, &answered, last_line(&answered))?)
    }

    /// The same, where it is open which of so many objects has which number.
    fn call_any(&mut self, many: &str, words: &[&str]) -> Result<String, Fault> {
        let many = number(many)?;
        let answered = self.ask(words, &OpenGate)?;
        let put = without_objects(self.alloc, text_of(&answered), many)?;
        Ok(words_of(self.alloc, &answered, &put)?)
    }

    /// The same, where so many actors are held, and whether all of them came.
    fn call_held(&mut self, many: &str, words: &[&str]) -> Result<String, Fault> {
        let many = number(many)?;
        let gate = Holding::new(many);
        let answered = self.ask(words, &gate)?;
        let put = without_objects(self.alloc, text_of(&answered), many)?;
        let told = words_of(self.alloc, &answered, &put)?;
        let came = gate.told();
        Ok(format!(in self.alloc; "{told}\n{came}")?)
    }

    fn call_blank(&mut self, moment: &str, bytes: &str, words: &[&str]) -> Result<String, Fault> {
        let alloc = self.alloc;
        let script = self.take_script();
        let store = BlankStore::new(large(moment)?, self.bytes(bytes)?);
        let from = reader(alloc, &script, plain(alloc))?;
        let (_store, answered) = call_alone(
            self.rt,
            alloc,
            words,
            store,
            from,
            writer(alloc, plain(alloc)),
        )?;
        Ok(words_of(alloc, &answered, text_of(&answered))?)
    }

    /// What a command on the trees is answered.
    fn on_trees(&mut self, words: &[&str]) -> Result<String, Fault> {
        match words {
            ["trees", count] => self.plant(count),
            ["put", tree, path, mtime, bytes] => self.put_file(tree, path, mtime, bytes),
            ["tree", tree, path] => trees::show(self.alloc, &self.trees, tree, path),
            ["break", tree, calls @ ..] => self.fail_tree(tree, calls),
            _ => self.on_store(words),
        }
    }

    /// What a command on many stores is answered, each of whose calls can fail; none where it is no such command.
    fn sweep(&mut self, bench: Bench, words: &[&str]) -> Result<Option<String>, Fault> {
        Ok(Some(match words {
            ["stops", choice] => sweeps::stops(bench, &self.trial(choice)?)?,
            ["again", choice] => sweeps::again(bench, &self.trial(choice)?)?,
            ["opens", choice] => sweeps::opens(bench, &self.trial(choice)?, &self.store)?,
            ["faults"] => sweeps::faults(bench, &self.trial("0")?)?,
            _ => return Ok(None),
        }))
    }

    /// What a restore of the database is answered that is tried with each of its calls.
    fn restore(&mut self, words: &[&str]) -> Result<String, Fault> {
        match words {
            ["stops", choice, words @ ..] => {
                recovering::stops(&self.trial(choice)?, words, &self.store)
            }
            ["faults", words @ ..] => recovering::faults(&self.trial("0")?, words, &self.store),
            _ => Err(Fault::NoCommand),
        }
    }

    /// The same over the calls of a store, and what another command on the script is answered.
    fn on_calls(&mut self, words: &[&str]) -> Result<String, Fault> {
        match self.sweep(Bench::Devices, words)? {
            Some(text) => Ok(text),
            None => self.on_script(words),
        }
    }

    /// What a command on the store is answered.
    fn on_store(&mut self, words: &[&str]) -> Result<String, Fault> {
        match words {
            ["new"] => self.start_again(),
            ["stop", choice] => self.stop(choice),
            ["fail", moments @ ..] => self.fail(moments),
            ["write", file, offset, bytes] => self.write(file, offset, bytes),
            ["show", file] => self.show(file),
            ["faults", file] => self.faults(file),
            ["moment"] => self.moment(),
            ["folder", words @ ..] => self.sweep(Bench::Folders, words)?.ok_or(Fault::NoCommand),
            ["restore", words @ ..] => self.restore(words),
            _ => self.on_calls(words),
        }
    }

    /// What a command is answered.
    fn answer(&mut self, words: &[&str]) -> Result<String, Fault> {
        match words {
            ["do", words @ ..] => self.call(words),
            ["last", words @ ..] => self.call_long(words),
            ["any", many, words @ ..] => self.call_any(many, words),
            ["held", many, words @ ..] => self.call_held(many, words),
            ["blank", moment, bytes, words @ ..] => self.call_blank(moment, bytes, words),
            ["source", most, calls @ ..] => self.set_source(most, calls),
            ["sink", most, calls @ ..] => self.set_sink(most, calls),
            _ => self.on_trees(words),
        }
    }

    /// What the line is answered: a comment is given back, and a line of the script or of the include-exclude list has no answer.
    pub fn line(&mut self, line: &str) -> Result<Option<String>, AllocError> {
        if line.is_empty() || line.starts_with('#') {
            return Ok(Some(String::from_str(self.alloc, line)?));
        }
        if let Some(line) = line.strip_prefix("| ") {
            self.script.push_str(line)?;
            self.script.push('\n')?;
            return Ok(None);
        }
        if let Some(line) = line.strip_prefix("& ") {
            self.rules.push_str(line)?;
            self.rules.push('\n')?;
            return Ok(None);
        }
        if let Some(line) = line.strip_prefix("% ") {
            self.script.push_str(line)?;
            return Ok(None);
        }
        let words: Vec<&str> = line.split_whitespace().collect(self.alloc)?;
        let answered = self.answer(words.as_slice());
        Ok(Some(text(self.alloc, answered)?))
    }
}
