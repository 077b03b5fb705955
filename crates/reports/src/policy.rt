// The rows of policy domains, policy sets, management classes and backup copy groups.
ghost use Rattle.std.specs.Prelude.{◌≡◌, ◌++◌, codes};
ghost use Rattle.inventory_work.specs.Lists.{Writes};
ghost use Rattle.reports.specs.PolicyRows.{limit_text, mode_text, still_text, row_of_domain, row_of_set, row_of_class, row_of_group};

use crate::pieces::{put_number, put_or_dash, put_word, yes_or_no};
use crate::rows::Row;
use inventory_answers::{ClassLine, DomainLine, GroupLine, SetLine};
use kinds::{BackupRule, Limit, Refusal, Still};

fn put_limit(text: &mut Vec<u8>, words: &[u8], limit: Limit) -> Result<(), Refusal>
    ensures { Writes result text.old.items text.new.items (words.now ++ limit_text limit) }
{
    match limit {
        Limit::At(n) => put_number(text, words, u64::from(n)),
        Limit::NoLimit => put_word(text, words, b"NOLIMIT"),
    }
}

// The limits of a copy group.
fn put_limits(text: &mut Vec<u8>, rule: &BackupRule) -> Result<(), Refusal>
    ensures { Writes result text.old.items text.new.items (codes " verexists=" ++ limit_text rule.now.ver_exists ++ codes " verdeleted=" ++ limit_text rule.now.ver_deleted ++ codes " retextra=" ++ limit_text rule.now.ret_extra ++ codes " retonly=" ++ limit_text rule.now.ret_only) }
{
    put_limit(text, b" verexists=", rule.ver_exists)?;
    put_limit(text, b" verdeleted=", rule.ver_deleted)?;
    put_limit(text, b" retextra=", rule.ret_extra)?;
    put_limit(text, b" retonly=", rule.ret_only)?;
    Ok(())
}

fn mode_text(absolute: bool) -> &'static [u8]
    ensures { result.now ≡ mode_text absolute }
{
    if absolute { b"ABSOLUTE" } else { b"MODIFIED" }
}

fn still_text(still: Still) -> &'static [u8]
    ensures { result.now ≡ still_text still }
{
    match still {
        Still::ShrStatic => b"SHRSTATIC",
        Still::Static => b"STATIC",
    }
}

impl Row for DomainLine {
    ghost printed = { row_of_domain };

    fn write(&self, text: &mut Vec<u8>) -> Result<(), Refusal> {
        put_word(text, b"DOMAIN ", self.name.as_bytes())?;
        put_number(
            text,
            b" backretention=",
            u64::from(self.back_retention.count()),
        )?;
        put_word(text, b" active=", yes_or_no(self.active))?;
        Ok(())
    }
}

impl Row for SetLine {
    ghost printed = { row_of_set };

    fn write(&self, text: &mut Vec<u8>) -> Result<(), Refusal> {
        put_word(text, b"SET ", self.domain.as_bytes())?;
        put_word(text, b" ", self.set.as_bytes())?;
        put_or_dash(text, b" default=", &self.default_class)?;
        Ok(())
    }
}

impl Row for ClassLine {
    ghost printed = { row_of_class };

    fn write(&self, text: &mut Vec<u8>) -> Result<(), Refusal> {
        put_word(text, b"CLASS ", self.domain.as_bytes())?;
        put_word(text, b" ", self.set.as_bytes())?;
        put_word(text, b" ", self.class.as_bytes())?;
        put_word(text, b" group=", yes_or_no(self.group))?;
        Ok(())
    }
}

impl Row for GroupLine {
    ghost printed = { row_of_group };

    fn write(&self, text: &mut Vec<u8>) -> Result<(), Refusal> {
        put_word(text, b"GROUP ", self.domain.as_bytes())?;
        put_word(text, b" ", self.set.as_bytes())?;
        put_word(text, b" ", self.class.as_bytes())?;
        put_or_dash(text, b" destination=", &self.destination)?;
        put_number(text, b" frequency=", u64::from(self.rule.frequency))?;
        put_limits(text, &self.rule)?;
        put_word(text, b" mode=", mode_text(self.rule.absolute))?;
        put_word(text, b" serialization=", still_text(self.rule.still))?;
        Ok(())
    }
}
