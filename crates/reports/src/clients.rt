// The rows of client nodes, filespaces, versions and archived objects.
ghost use Rattle.std.specs.Prelude.{◌≡◌, ◌++◌, codes, decimal};
ghost use Rattle.inventory_work.specs.Lists.{Writes};
ghost use Rattle.reports.specs.ClientRows.{state_text, until_text, row_of_node, row_of_filespace, row_of_version, row_of_archive};

use crate::pieces::{
    put_digest, put_number, put_number_or_dash, put_or_dash, put_path, put_word, yes_or_no,
};
use crate::rows::Row;
use inventory_answers::{FilespaceLine, HeldLine, NodeLine, VersionLine};
use kinds::{Day, ObjectSize, Refusal};

fn state_text(since: Option<Day>) -> &'static [u8]
    ensures { result.now ≡ state_text since }
{
    match since {
        None => b"ACTIVE",
        Some(_) => b"INACTIVE",
    }
}

fn day_number(day: Option<Day>) -> Option<u64>
    ensures { result ≡ day }
{
    match day {
        None => None,
        Some(day) => Some(u64::from(day.number())),
    }
}

fn put_until(text: &mut Vec<u8>, words: &[u8], day: Option<u32>) -> Result<(), Refusal>
    ensures { Writes result text.old.items text.new.items (words.now ++ until_text day) }
{
    match day {
        None => put_word(text, words, b"NOLIMIT"),
        Some(day) => put_number(text, words, u64::from(day)),
    }
}

// The numbers of a stored file.
fn put_file(
    text: &mut Vec<u8>,
    object: u64,
    size: ObjectSize,
    mtime: u64,
    stored: Day,
) -> Result<(), Refusal>
    ensures { Writes result text.old.items text.new.items (codes " object=" ++ decimal object ++ codes " size=" ++ decimal size ++ codes " mtime=" ++ decimal mtime ++ codes " stored=" ++ decimal stored) }
{
    put_number(text, b" object=", object)?;
    put_number(text, b" size=", size.bytes())?;
    put_number(text, b" mtime=", mtime)?;
    put_number(text, b" stored=", u64::from(stored.number()))?;
    Ok(())
}

impl Row for NodeLine {
    ghost printed = { row_of_node };

    fn write(&self, text: &mut Vec<u8>) -> Result<(), Refusal> {
        put_number(text, b"NODE ", u64::from(self.number))?;
        put_word(text, b" ", self.name.as_bytes())?;
        put_word(text, b" domain=", self.domain.as_bytes())?;
        Ok(())
    }
}

impl Row for FilespaceLine {
    ghost printed = { row_of_filespace };

    fn write(&self, text: &mut Vec<u8>) -> Result<(), Refusal> {
        put_or_dash(text, b"FILESPACE ", &self.node)?;
        put_number(text, b" ", u64::from(self.number))?;
        put_path(text, b" ", self.name.as_bytes())?;
        put_number(text, b" files=", self.files)?;
        put_number(text, b" versions=", self.versions)?;
        Ok(())
    }
}

impl Row for VersionLine {
    ghost printed = { row_of_version };

    fn write(&self, text: &mut Vec<u8>) -> Result<(), Refusal> {
        put_path(text, b"VERSION ", self.path.as_bytes())?;
        put_file(text, self.object, self.size, self.mtime, self.stored)?;
        put_number_or_dash(text, b" since=", day_number(self.since))?;
        put_word(text, b" class=", self.class.as_bytes())?;
        put_word(text, b" state=", state_text(self.since))?;
        put_word(text, b" owed=", yes_or_no(self.owed))?;
        put_digest(text, b" sha256=", &self.digest)?;
        Ok(())
    }
}

impl Row for HeldLine {
    ghost printed = { row_of_archive };

    fn write(&self, text: &mut Vec<u8>) -> Result<(), Refusal> {
        put_path(text, b"ARCHIVE ", self.path.as_bytes())?;
        put_file(text, self.object, self.size, self.mtime, self.stored)?;
        put_until(text, b" until=", self.until)?;
        put_word(text, b" owed=", yes_or_no(self.owed))?;
        put_digest(text, b" sha256=", &self.digest)?;
        Ok(())
    }
}
