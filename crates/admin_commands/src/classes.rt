// Commands of management classes and copy groups.
ghost use Rattle.std.specs.Prelude.{◌≡◌};
ghost use Rattle.kinds.specs.Answers.{Answers, AnswersBy};
ghost use Rattle.inventory_answers.specs.declared.query.Query.TheVariants as query;
ghost use Rattle.admin_commands.specs.Orders.{class_needs, class_work, show};
ghost use Rattle.admin_commands.specs.Policy.{is_absolute, absolute_or, group_changed, new_rule, other_rule, destination_for, define_group, update_rule, update_group, delete_group, archive_changed, new_archive, other_archive, define_archive, update_archive_rule, update_archive, delete_archive};

use crate::changes::{archive_group, assign, class, group};
use crate::found::{archive_of, behind, group_of, number_found};
use crate::looks::{classes, groups, one, pool, with_pool_if};
use crate::work::Work;
use admin_words::command::ClassCommand;
use admin_words::policy::{
    ArchiveDefinition, ArchiveUpdate, GroupDefinition, GroupUpdate, NamedClass, NamedSet,
};
use admin_words::words::Mode;
use inventory_answers::{Answer, Query};
use kinds::{
    ArchiveGroup, ArchiveRule, BackupRule, CopyGroup, DefineOrDelete, Name, Refusal, Verb,
    bad_value,
};
use std::alloc::Global;

pub(crate) fn class_needs(alloc: Global, command: &ClassCommand) -> Result<Vec<Query>, Refusal>
    ensures { AnswersBy (λ v. v.items) result (class_needs command.now) }
{
    match command {
        ClassCommand::AssignClass(_) => Ok(Vec::new(alloc)),
        ClassCommand::DefineArchiveGroup(it) => one(alloc, pool(&it.destination)?),
        ClassCommand::DefineClass(_) => Ok(Vec::new(alloc)),
        ClassCommand::DefineGroup(it) => one(alloc, pool(&it.destination)?),
        ClassCommand::DeleteArchiveGroup(it) => one(alloc, classes(&it.domain, &it.set)?),
        ClassCommand::DeleteClass(_) => Ok(Vec::new(alloc)),
        ClassCommand::DeleteGroup(it) => one(alloc, groups(&it.domain, &it.set)?),
        ClassCommand::QueryClass(_) => Ok(Vec::new(alloc)),
        ClassCommand::QueryGroup(_) => Ok(Vec::new(alloc)),
        ClassCommand::UpdateArchiveGroup(it) => {
            with_pool_if(alloc, classes(&it.domain, &it.set)?, &it.destination)
        }
        ClassCommand::UpdateGroup(it) => {
            with_pool_if(alloc, groups(&it.domain, &it.set)?, &it.destination)
        }
    }
}

fn is_absolute(mode: Mode) -> bool
    ensures { result ≡ is_absolute mode }
{
    match mode {
        Mode::Modified => false,
        Mode::Absolute => true,
    }
}

fn group_changed(
    verb: Verb,
    domain: &Name,
    set: &Name,
    class: &Name,
    rule: BackupRule,
) -> Result<Work, Refusal>
    ensures { Answers result (group_changed verb domain.now set.now class.now rule) }
{
    match CopyGroup::new(rule) {
        None => Err(bad_value()),
        Some(copy_group) => group(verb, domain, set, class, copy_group),
    }
}

fn new_rule(it: &GroupDefinition, destination: u32) -> BackupRule
    ensures { result ≡ new_rule it.now destination }
{
    BackupRule {
        destination,
        frequency: it.frequency,
        ver_exists: it.ver_exists,
        ver_deleted: it.ver_deleted,
        ret_extra: it.ret_extra,
        ret_only: it.ret_only,
        absolute: is_absolute(it.mode),
        still: it.still,
    }
}

fn absolute_or(mode: Option<Mode>, old: bool) -> bool
    ensures { result ≡ absolute_or mode old }
{
    match mode {
        None => old,
        Some(mode) => is_absolute(mode),
    }
}

fn other_rule(it: &GroupUpdate, old: &BackupRule, destination: u32) -> BackupRule
    ensures { result ≡ other_rule it.now old.now destination }
{
    BackupRule {
        destination,
        frequency: it.frequency.unwrap_or(old.frequency),
        ver_exists: it.ver_exists.unwrap_or(old.ver_exists),
        ver_deleted: it.ver_deleted.unwrap_or(old.ver_deleted),
        ret_extra: it.ret_extra.unwrap_or(old.ret_extra),
        ret_only: it.ret_only.unwrap_or(old.ret_only),
        absolute: absolute_or(it.mode, old.absolute),
        still: it.still.unwrap_or(old.still),
    }
}

fn destination_for(name: &Option<Name>, old: u32, answers: &[Answer]) -> Option<u32>
    ensures { result ≡ destination_for name.now old answers.now }
{
    match name {
        None => Some(old),
        Some(_) => number_found(answers),
    }
}

fn define_group(it: &GroupDefinition, answers: &[Answer]) -> Result<Work, Refusal>
    ensures { Answers result (define_group it.now answers.now) }
{
    match number_found(answers) {
        None => Err(Refusal::NotFound),
        Some(number) => group_changed(
            Verb::Define,
            &it.domain,
            &it.set,
            &it.class,
            new_rule(it, number),
        ),
    }
}

/// The copy group of the class gets what is given of the update.
fn update_rule(it: &GroupUpdate, old: &BackupRule, answers: &[Answer]) -> Result<Work, Refusal>
    ensures { Answers result (update_rule it.now old.now answers.now) }
{
    match destination_for(&it.destination, old.destination, answers) {
        None => Err(Refusal::NotFound),
        Some(number) => group_changed(
            Verb::Update,
            &it.domain,
            &it.set,
            &it.class,
            other_rule(it, old, number),
        ),
    }
}

fn update_group(it: &GroupUpdate, answers: &[Answer]) -> Result<Work, Refusal>
    ensures { Answers result (update_group it.now answers.now) }
{
    match group_of(answers, &it.class) {
        None => Err(Refusal::NotFound),
        Some(old) => update_rule(it, &old.rule, behind(answers)),
    }
}

fn delete_group(it: &NamedClass, answers: &[Answer]) -> Result<Work, Refusal>
    ensures { Answers result (delete_group it.now answers.now) }
{
    match group_of(answers, &it.class) {
        None => Err(Refusal::NotFound),
        Some(old) => group_changed(Verb::Delete, &it.domain, &it.set, &it.class, old.rule),
    }
}

fn archive_changed(
    verb: Verb,
    domain: &Name,
    set: &Name,
    class: &Name,
    rule: ArchiveRule,
) -> Result<Work, Refusal>
    ensures { Answers result (archive_changed verb domain.now set.now class.now rule) }
{
    match ArchiveGroup::new(rule) {
        None => Err(bad_value()),
        Some(group) => archive_group(verb, domain, set, class, group),
    }
}

fn new_archive(it: &ArchiveDefinition, destination: u32) -> ArchiveRule
    ensures { result ≡ new_archive it.now destination }
{
    ArchiveRule {
        destination,
        ret_ver: it.ret_ver,
    }
}

fn other_archive(it: &ArchiveUpdate, old: ArchiveRule, destination: u32) -> ArchiveRule
    ensures { result ≡ other_archive it.now old destination }
{
    ArchiveRule {
        destination,
        ret_ver: it.ret_ver.unwrap_or(old.ret_ver),
    }
}

fn define_archive(it: &ArchiveDefinition, answers: &[Answer]) -> Result<Work, Refusal>
    ensures { Answers result (define_archive it.now answers.now) }
{
    match number_found(answers) {
        None => Err(Refusal::NotFound),
        Some(destination) => archive_changed(
            Verb::Define,
            &it.domain,
            &it.set,
            &it.class,
            new_archive(it, destination),
        ),
    }
}

/// The archive copy group of the class gets what is given of the update.
fn update_archive_rule(
    it: &ArchiveUpdate,
    old: ArchiveRule,
    answers: &[Answer],
) -> Result<Work, Refusal>
    ensures { Answers result (update_archive_rule it.now old answers.now) }
{
    match destination_for(&it.destination, old.destination, answers) {
        None => Err(Refusal::NotFound),
        Some(destination) => archive_changed(
            Verb::Update,
            &it.domain,
            &it.set,
            &it.class,
            other_archive(it, old, destination),
        ),
    }
}

fn update_archive(it: &ArchiveUpdate, answers: &[Answer]) -> Result<Work, Refusal>
    ensures { Answers result (update_archive it.now answers.now) }
{
    match archive_of(answers, &it.class) {
        None => Err(Refusal::NotFound),
        Some(old) => update_archive_rule(it, old, behind(answers)),
    }
}

fn delete_archive(it: &NamedClass, answers: &[Answer]) -> Result<Work, Refusal>
    ensures { Answers result (delete_archive it.now answers.now) }
{
    match archive_of(answers, &it.class) {
        None => Err(Refusal::NotFound),
        Some(old) => archive_changed(Verb::Delete, &it.domain, &it.set, &it.class, old),
    }
}

fn show_classes(it: &NamedSet) -> Result<Work, Refusal>
    ensures { Answers result (show (query.Classes it.now.domain it.now.set)) }
{
    Ok(Work::Show(classes(&it.domain, &it.set)?))
}

fn show_groups(it: &NamedSet) -> Result<Work, Refusal>
    ensures { Answers result (show (query.Groups it.now.domain it.now.set)) }
{
    Ok(Work::Show(groups(&it.domain, &it.set)?))
}

pub(crate) fn class_work(command: &ClassCommand, answers: &[Answer]) -> Result<Work, Refusal>
    ensures { Answers result (class_work command.now answers.now) }
{
    match command {
        ClassCommand::AssignClass(it) => assign(&it.domain, &it.set, &it.class),
        ClassCommand::DefineArchiveGroup(it) => define_archive(it, answers),
        ClassCommand::DefineClass(it) => {
            class(DefineOrDelete::Define, &it.domain, &it.set, &it.class)
        }
        ClassCommand::DefineGroup(it) => define_group(it, answers),
        ClassCommand::DeleteArchiveGroup(it) => delete_archive(it, answers),
        ClassCommand::DeleteClass(it) => {
            class(DefineOrDelete::Delete, &it.domain, &it.set, &it.class)
        }
        ClassCommand::DeleteGroup(it) => delete_group(it, answers),
        ClassCommand::QueryClass(it) => show_classes(it),
        ClassCommand::QueryGroup(it) => show_groups(it),
        ClassCommand::UpdateArchiveGroup(it) => update_archive(it, answers),
        ClassCommand::UpdateGroup(it) => update_group(it, answers),
    }
}
