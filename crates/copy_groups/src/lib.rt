//! Which versions of a file the rule of a backup copy group retains.
#![tactic(auto)]

ghost use Rattle.std.specs.Prelude.{◌≡◌, ◌≤◌, ◌<◌, ◌^◌, ◌-◌, ℕ, IsTrue, All, length};
ghost use Rattle.kinds.specs.Answers.{AnswersBy};
ghost use Rattle.kinds.specs.declared.rule.RuleFound.{RuleFound};
ghost use Rattle.copy_groups.specs.Retention.{is_below, is_kept, is_kept_by, retained, is_owed, is_held_on, inactive, is_unretained, unretained};
ghost use Rattle.copy_groups.specs.Laws.{IsNotTighterRule, HasNoLimitRule};

use kinds::{BackupRule, Day, Limit, Refusal, RuleFound};
use std::alloc::Global;

fn is_below(limit: Limit, number: usize) -> bool
    ensures { result ≡ is_below limit number }
{
    match limit {
        Limit::At(n) => number < n as usize,
        Limit::NoLimit => true,
    }
}

fn is_kept(rule: &BackupRule, active: bool, days: usize, place: usize) -> bool
    ensures { result ≡ is_kept rule.now active days place }
{
    if active {
        is_below(rule.ver_exists, place) && is_below(rule.ret_extra, days)
    } else {
        let span = if place == 0 {
            rule.ret_only
        } else {
            rule.ret_extra
        };
        is_below(rule.ver_deleted, place) && is_below(span, days)
    }
}

fn is_kept_by(rule: &RuleFound, active: bool, days: usize, place: usize) -> bool
    ensures { result ≡ is_kept_by rule.now active days place }
{
    match rule {
        RuleFound::Own(rule) => is_kept(rule, active, days, place),
        RuleFound::Default(rule) => is_kept(rule, active, days, place),
        RuleFound::Grace(count) => days < *count as usize,
    }
}

/// How many days have passed since this one; none where it is to come.
fn days_since(since: Day, today: Day) -> usize
    ensures { result ≡ today - since }
{
    today.number().saturating_sub(since.number()) as usize
}

fn is_retained(rule: &RuleFound, active: bool, since: Day, today: Day, place: usize) -> bool
    ensures { result ≡ retained rule.now active since today place }
{
    (active && place == 0) || is_kept_by(rule, active, days_since(since, today), place)
}

/// Whether a version is retained: by this rule, in a group that has an active version or not, inactive since this day (of the active version it
/// isn't looked at), today, and at this place, counted from 0 at the newest (TSM Administrator's Guide: VEREXISTS, VERDELETED, RETEXTRA, RETONLY,
/// BACKRETENTION; that places count from the newest and that the day on which a version became inactive counts as 0 is decided here).
#[tactic(auto, using(crate::proofs::Wider::retained_wider))]
pub fn retained(rule: &RuleFound, active: bool, since: Day, today: Day, place: u32) -> bool
    requires { since ≤ today }
    ensures value { result ≡ retained rule.now active since today place }

    // A higher number of versions or a longer retention never takes a version away.
    ensures wider { (other : RuleFound) → IsNotTighterRule rule.now other
        → IsTrue result → IsTrue (retained other active since today place) }

    // A version that isn't retained never becomes retained as days pass.
    ensures later { (day : ℕ) → today ≤ day → IsTrue (retained rule.now active since day place) → IsTrue result }

    // NOLIMIT everywhere retains everything.
    ensures unlimited { HasNoLimitRule rule.now → IsTrue result }
{
    is_retained(rule, active, since, today, place as usize)
}

/// Whether an archived object that is kept until a day, or without a limit where there is none, is owed today: before that day.
pub fn is_held_on(today: Day, until: Option<u32>) -> bool
    ensures { result ≡ is_held_on today until }
{
    match until {
        None => true,
        Some(day) => today.number() < day,
    }
}

/// Whether a version is retained by the rule that was found for it, where there is one: in a group that has an active version or not, inactive since
/// this day, or active, today, and at this place, counted from 0 at the newest. An active version is, and so is each one without a rule.
pub fn is_owed(
    rule: &Option<RuleFound>,
    active: bool,
    since: Option<Day>,
    today: Day,
    place: usize,
) -> bool
    ensures { result ≡ is_owed rule.now active since today place }
{
    match (rule, since) {
        (Some(rule), Some(since)) => is_retained(rule, active, since, today, place),
        (None, _) => true,
        (Some(_), None) => true,
    }
}

fn is_unretained(rule: &RuleFound, active: bool, since: &[Day], today: Day, place: u32) -> bool
    requires there { place < length since.now }
    ensures { result ≡ is_unretained rule.now active since.now today place }
{
    !is_retained(rule, active, since[place as usize], today, place as usize)
}

/// The places, counted from 0 at the newest, of the versions that this rule doesn't retain today, in descending order. The group's days stand
/// newest first; an active version has a day too, which isn't looked at. Its one refusal is want of memory.
pub fn unretained(
    alloc: Global,
    rule: &RuleFound,
    active: bool,
    since: &[Day],
    today: Day,
) -> Result<Vec<u32>, Refusal>
    requires past { All (λ day. day ≤ today) (inactive active since.now) }
    requires few { length since.now < 2 ^ 32 }
    ensures { AnswersBy (λ v. v.items) result (unretained rule.now active since.now today) }
{
    let mut places = Vec::new(alloc);
    'places: for place in 0..since.len() {
        if is_unretained(rule, active, since, today, place as u32) {
            places.push(place as u32)?;
        }
    }
    places.reverse();
    Ok(places)
}
