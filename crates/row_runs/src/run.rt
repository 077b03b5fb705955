//! A run over a script.
use crate::answer::{Answer, Fault, text};
use crate::words::{large, number, path, words_of};
use crate::{copies, parts, policy, questions, retention, rows, spaces, versions};
use kinds::Refusal;
use object_rows::Objects;
use policy_domains::Domains;
use std::alloc::{AllocError, Global};
use std::mem;

/// What the commands are about.
#[derive(Drop)]
pub struct Run {
    alloc: Global,
    domains: Domains,
    objects: Objects,
}

impl Run {
    /// The policy of a new server, and no nodes.
    pub fn new(alloc: Global) -> Result<Self, Refusal> {
        Ok(Run {
            alloc,
            domains: Domains::fresh(alloc)?,
            objects: Objects::new(alloc),
        })
    }

    fn become_objects(&mut self, objects: Objects) {
        drop(mem::replace(&mut self.objects, objects));
    }

    fn start_again(&mut self) -> Result<Answer, Fault> {
        let domains = Domains::fresh(self.alloc)?;
        drop(mem::replace(&mut self.domains, domains));
        self.become_objects(Objects::new(self.alloc));
        Ok(Answer::Done)
    }

    fn copy(&mut self) -> Result<Answer, Fault> {
        let domains = self.domains.clone()?;
        drop(mem::replace(&mut self.domains, domains));
        let objects = self.objects.clone()?;
        self.become_objects(objects);
        Ok(Answer::Done)
    }

    fn take_up(&mut self, made: Option<Objects>) -> Answer {
        match made {
            Some(objects) => {
                self.become_objects(objects);
                Answer::Done
            }
            None => Answer::Nothing,
        }
    }

    fn made(&mut self, words: &[&str]) -> Result<Answer, Fault> {
        let made = parts::made(self.alloc, words)?;
        Ok(self.take_up(made))
    }

    fn made_again(&mut self) -> Result<Answer, Fault> {
        let rows = self.domains.rows().clone()?;
        let domains = Domains::from_rows(self.alloc, rows)?;
        drop(mem::replace(&mut self.domains, domains));
        let made = parts::made_again(self.alloc, &self.objects)?;
        Ok(self.take_up(made))
    }

    /// What a command on policy is answered.
    fn on_policy(&mut self, command: &str, words: &[&str]) -> Result<Answer, Fault> {
        match command {
            "validate" => policy::validate(self.alloc, &self.domains, words),
            "rule" => policy::rule(self.alloc, &self.domains, words),
            "archived" => policy::archive_rule(self.alloc, &self.domains, words),
            _ => policy::change(self.alloc, &mut self.domains, command, words),
        }
    }

    /// What a command on the whole is answered.
    fn on_all(&mut self, command: &str, words: &[&str]) -> Result<Answer, Fault> {
        match command {
            "new" => self.start_again(),
            "copy" => self.copy(),
            "again" => self.made_again(),
            "parts" => self.made(words),
            "retained" => retention::ask(words),
            _ => self.on_policy(command, words),
        }
    }

    /// What a command on nodes, filespaces and copies is answered.
    fn on_rows(&mut self, command: &str, words: &[&str]) -> Result<Answer, Fault> {
        match command {
            "node" => spaces::node(self.alloc, &mut self.objects, words),
            "filespace" => spaces::filespace(self.alloc, &mut self.objects, words),
            "named" => spaces::named(self.alloc, &self.objects, words),
            "add" => copies::add(self.alloc, &mut self.objects, words),
            "replace" => copies::replace(self.alloc, &mut self.objects, words),
            "drop" => copies::drop_copy(&mut self.objects, words),
            _ => self.on_all(command, words),
        }
    }

    /// What a command on versions is answered.
    fn on_versions(&mut self, command: &str, words: &[&str]) -> Result<Answer, Fault> {
        match command {
            "insert" => versions::insert(self.alloc, &mut self.objects, words),
            "gone" => versions::gone(self.alloc, &mut self.objects, words),
            "undo" => versions::undo(self.alloc, &mut self.objects, words),
            "rebind" => versions::rebind(self.alloc, &mut self.objects, words),
            "remove" => versions::remove(self.alloc, &mut self.objects, words),
            _ => self.on_rows(command, words),
        }
    }

    /// What a command is answered.
    fn answer(&mut self, words: &[&str]) -> Result<Answer, Fault> {
        match words {
            ["has" | "in" | "space" | "holds" | "count" | "left", ..] => {
                questions::ask(&self.objects, words)
            }
            [command, words @ ..] => self.on_versions(command, words),
            [] => Err(Fault::NoCommand),
        }
    }

    fn answer_text(&mut self, words: &[&str]) -> Result<String, AllocError> {
        let answered = self.answer(words);
        text(self.alloc, &answered)
    }

    /// The versions of a path.
    fn show(&self, filespace: &str, of: &str) -> Result<String, Fault> {
        let filespace = number(filespace)?;
        let of = path(self.alloc, of)?;
        Ok(rows::group(self.alloc, self.objects.group(filespace, &of))?)
    }

    /// The version of an object.
    fn find(&self, object: &str) -> Result<String, Fault> {
        let object = large(object)?;
        Ok(rows::version(self.alloc, self.objects.find(object))?)
    }

    /// The text, or the words for why there is none.
    fn words_for(&self, made: Result<String, Fault>) -> Result<String, AllocError> {
        match made {
            Ok(text) => Ok(text),
            Err(fault) => text(self.alloc, &Err(fault)),
        }
    }

    /// What the line with these words is answered.
    fn say(&mut self, words: &[&str]) -> Result<String, AllocError> {
        match words {
            [] => Ok(String::new(self.alloc)),
            ["domains"] => rows::domains(self.alloc, &self.domains),
            ["show", filespace, of] => self.words_for(self.show(filespace, of)),
            ["find", object] => self.words_for(self.find(object)),
            ["unretained", words @ ..] => self.words_for(retention::places(self.alloc, words)),
            words => self.answer_text(words),
        }
    }

    /// What the line is answered. A line that begins with `#` is a comment, and is given back.
    pub fn line(&mut self, line: &str) -> Result<String, AllocError> {
        if line.starts_with('#') {
            return String::from_str(self.alloc, line);
        }
        let words = words_of(self.alloc, line)?;
        self.say(words.as_slice())
    }
}
