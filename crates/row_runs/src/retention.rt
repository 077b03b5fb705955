//! Which versions a rule retains, as lines ask it.
use crate::answer::{Answer, Fault};
use crate::words::{day, is_there, number, small};
use copy_groups::{retained, unretained};
use kinds::{BackupRule, Day, Limit, Refusal, RuleFound, Still};
use std::alloc::{AllocError, Global};

/// The rule of a copy group that is defined without parameters: 2 versions of a file that is there for 30 days, the last one of a
/// file that is gone for 60.
pub fn usual_rule() -> BackupRule {
    BackupRule {
        destination: 1,
        frequency: 0,
        ver_exists: Limit::At(2),
        ver_deleted: Limit::At(1),
        ret_extra: Limit::At(30),
        ret_only: Limit::At(60),
        absolute: false,
        still: Still::ShrStatic,
    }
}

/// The rule of a copy group with NOLIMIT everywhere.
fn rule_without_limits() -> BackupRule {
    BackupRule {
        ver_exists: Limit::NoLimit,
        ver_deleted: Limit::NoLimit,
        ret_extra: Limit::NoLimit,
        ret_only: Limit::NoLimit,
        ..usual_rule()
    }
}

fn rule_of(word: &str) -> Result<RuleFound, Fault> {
    match word {
        "own" => Ok(RuleFound::Own(usual_rule())),
        "default" => Ok(RuleFound::Default(usual_rule())),
        "nolimit" => Ok(RuleFound::Own(rule_without_limits())),
        days => Ok(RuleFound::Grace(small(days)?)),
    }
}

fn is_retained(rule: &RuleFound, active: bool, since: Day, today: Day, place: u32) -> Answer {
    if since <= today {
        Answer::Is(retained(rule, active, since, today, place))
    } else {
        Answer::Unmet
    }
}

/// Whether a version is retained, `RULE there|gone SINCE TODAY PLACE`.
pub fn ask(words: &[&str]) -> Result<Answer, Fault> {
    let [rule, file, since, today, place] = words else {
        return Err(Fault::NoCommand);
    };
    let rule = rule_of(rule)?;
    let active = is_there(file)?;
    Ok(is_retained(&rule, active, day(since)?, day(today)?, number(place)?))
}

/// A group of three versions.
#[derive(Clone, Copy)]
struct Group {
    rule: RuleFound,
    active: bool,
    today: Day,
    newest: Day,
    second: Day,
    third: Day,
}

fn read_group(words: &[&str]) -> Result<Group, Fault> {
    let [rule, file, today, newest, second, third] = words else {
        return Err(Fault::NoCommand);
    };
    Ok(Group {
        rule: rule_of(rule)?,
        active: is_there(file)?,
        today: day(today)?,
        newest: day(newest)?,
        second: day(second)?,
        third: day(third)?,
    })
}

/// The places that are not retained; none where a day is yet to come.
fn places_of(alloc: Global, group: &Group) -> Result<Option<Vec<u32>>, Refusal> {
    let rule = &group.rule;
    let today = group.today;
    let (newest, second, third) = (group.newest, group.second, group.third);
    if newest > today || second > today || third > today {
        return Ok(None);
    }
    let days = [newest, second, third];
    let places = if group.active {
        unretained(alloc, rule, true, days.as_slice(), today)?
    } else {
        unretained(alloc, rule, false, days.as_slice(), today)?
    };
    Ok(Some(places))
}

fn put_places(alloc: Global, places: &[u32]) -> Result<String, AllocError> {
    let mut out = String::from_str(alloc, "places")?;
    for place in places {
        write!(out, " {place}")?;
    }
    Ok(out)
}

/// The places of the versions that are not retained, `RULE there|gone TODAY DAY DAY DAY`.
pub fn places(alloc: Global, words: &[&str]) -> Result<String, Fault> {
    let group = read_group(words)?;
    match places_of(alloc, &group)? {
        Some(places) => Ok(put_places(alloc, places.as_slice())?),
        None => Ok(String::from_str(alloc, "unmet")?),
    }
}
