//! The policy domains, as lines ask for them.
use crate::answer::{Answer, Fault};
use crate::retention::usual_rule;
use crate::words::{days, define_or_delete, name, number, verb};
use kinds::{ArchiveGroup, ArchiveRule, BackupRule, CopyGroup, Limit, Name, PolicyChange};
use policy_domains::{Domains, names_active};
use std::alloc::Global;

/// `define|update|delete DOMAIN DAYS`.
fn domain_change(alloc: Global, words: &[&str]) -> Result<PolicyChange, Fault> {
    let [what, domain, span] = words else {
        return Err(Fault::NoCommand);
    };
    Ok(PolicyChange::Domain {
        verb: verb(what)?,
        back_retention: days(span)?,
        domain: name(alloc, domain)?,
    })
}

/// `define|delete DOMAIN SET`.
fn set_change(alloc: Global, words: &[&str]) -> Result<PolicyChange, Fault> {
    let [what, domain, set] = words else {
        return Err(Fault::NoCommand);
    };
    Ok(PolicyChange::Set {
        verb: define_or_delete(what)?,
        domain: name(alloc, domain)?,
        set: name(alloc, set)?,
    })
}

/// `define|delete DOMAIN SET CLASS`.
fn class_change(alloc: Global, words: &[&str]) -> Result<PolicyChange, Fault> {
    let [what, domain, set, class] = words else {
        return Err(Fault::NoCommand);
    };
    Ok(PolicyChange::Class {
        verb: define_or_delete(what)?,
        domain: name(alloc, domain)?,
        set: name(alloc, set)?,
        class: name(alloc, class)?,
    })
}

/// A copy group that is defined without parameters, with this destination.
fn group_to(pool: &str) -> Result<CopyGroup, Fault> {
    let rule = BackupRule {
        destination: number(pool)?,
        ..usual_rule()
    };
    CopyGroup::new(rule).ok_or(Fault::NoCommand)
}

/// `define|update|delete DOMAIN SET CLASS POOL`.
fn group_change(alloc: Global, words: &[&str]) -> Result<PolicyChange, Fault> {
    let [what, domain, set, class, pool] = words else {
        return Err(Fault::NoCommand);
    };
    Ok(PolicyChange::Group {
        verb: verb(what)?,
        group: group_to(pool)?,
        domain: name(alloc, domain)?,
        set: name(alloc, set)?,
        class: name(alloc, class)?,
    })
}

/// An archive copy group by which objects are kept for so many days, with this destination.
fn archive_to(pool: &str, days: &str) -> Result<ArchiveGroup, Fault> {
    let rule = ArchiveRule {
        destination: number(pool)?,
        ret_ver: Limit::At(number(days)?),
    };
    ArchiveGroup::new(rule).ok_or(Fault::NoCommand)
}

/// `define|update|delete DOMAIN SET CLASS POOL DAYS`.
fn archive_change(alloc: Global, words: &[&str]) -> Result<PolicyChange, Fault> {
    let [what, domain, set, class, pool, days] = words else {
        return Err(Fault::NoCommand);
    };
    Ok(PolicyChange::ArchiveGroup {
        verb: verb(what)?,
        group: archive_to(pool, days)?,
        domain: name(alloc, domain)?,
        set: name(alloc, set)?,
        class: name(alloc, class)?,
    })
}

/// `DOMAIN SET CLASS`.
fn assignment(alloc: Global, words: &[&str]) -> Result<PolicyChange, Fault> {
    let [domain, set, class] = words else {
        return Err(Fault::NoCommand);
    };
    Ok(PolicyChange::Assign {
        domain: name(alloc, domain)?,
        set: name(alloc, set)?,
        class: name(alloc, class)?,
    })
}

/// `DOMAIN SET`.
fn activation(alloc: Global, words: &[&str]) -> Result<PolicyChange, Fault> {
    let [domain, set] = words else {
        return Err(Fault::NoCommand);
    };
    Ok(PolicyChange::Activate {
        domain: name(alloc, domain)?,
        set: name(alloc, set)?,
    })
}

fn change_of(alloc: Global, command: &str, words: &[&str]) -> Result<PolicyChange, Fault> {
    match command {
        "domain" => domain_change(alloc, words),
        "set" => set_change(alloc, words),
        "class" => class_change(alloc, words),
        "group" => group_change(alloc, words),
        "archive" => archive_change(alloc, words),
        "assign" => assignment(alloc, words),
        "activate" => activation(alloc, words),
        _ => Err(Fault::NoCommand),
    }
}

/// Makes the change, where it doesn't name the set ACTIVE.
fn make(domains: &mut Domains, change: &PolicyChange) -> Result<Answer, Fault> {
    if names_active(change) {
        return Ok(Answer::Unmet);
    }
    domains.change(change)?;
    Ok(Answer::Done)
}

/// Makes the change that the command spells.
pub fn change(
    alloc: Global,
    domains: &mut Domains,
    command: &str,
    words: &[&str],
) -> Result<Answer, Fault> {
    let change = change_of(alloc, command, words)?;
    let made = make(domains, &change);
    drop(change);
    made
}

/// Whether a set may be activated, `DOMAIN SET`.
pub fn validate(alloc: Global, domains: &Domains, words: &[&str]) -> Result<Answer, Fault> {
    let [domain, set] = words else {
        return Err(Fault::NoCommand);
    };
    domains.validate(&name(alloc, domain)?, &name(alloc, set)?)?;
    Ok(Answer::Done)
}

/// The rule of a class, where its domain is there.
fn rule_in(domains: &Domains, domain: &Name, class: &Name) -> Answer {
    if domains.rows().contains_key(domain) {
        Answer::Rule(domains.rule_of(domain, class))
    } else {
        Answer::Unmet
    }
}

/// The rule by which the versions of a class are kept, `DOMAIN CLASS`.
pub fn rule(alloc: Global, domains: &Domains, words: &[&str]) -> Result<Answer, Fault> {
    let [domain, class] = words else {
        return Err(Fault::NoCommand);
    };
    Ok(rule_in(domains, &name(alloc, domain)?, &name(alloc, class)?))
}

/// The archive rule of a class, where its domain is there.
fn archive_rule_in(domains: &Domains, domain: &Name, class: &Name) -> Answer {
    if domains.rows().contains_key(domain) {
        match domains.archive_of(domain, class) {
            Some(rule) => Answer::Archive(rule),
            None => Answer::Nothing,
        }
    } else {
        Answer::Unmet
    }
}

/// The rule by which objects are kept that are archived under a class, `DOMAIN CLASS`.
pub fn archive_rule(alloc: Global, domains: &Domains, words: &[&str]) -> Result<Answer, Fault> {
    let [domain, class] = words else {
        return Err(Fault::NoCommand);
    };
    Ok(archive_rule_in(domains, &name(alloc, domain)?, &name(alloc, class)?))
}
