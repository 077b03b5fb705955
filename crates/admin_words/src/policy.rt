ghost use Rattle.std.specs.Prelude.{map};
ghost use Rattle.kinds.specs.Answers.{AnswersBy};
ghost use Rattle.command_words.specs.Rows.{given_view};
ghost use Rattle.admin_words.specs.Policy.{named_domain, domain_definition, domain_update, named_set, named_class, group_definition, group_update, archive_definition, archive_update};

use crate::words::{Mode, read_mode, read_still};
use command_words::{Given, field, text_at};
use kinds::{Days, Limit, Name, Refusal, Still};
use std::alloc::Global;

/// A domain by its name.
#[derive(Debug, Drop)]
pub struct NamedDomain {
    pub domain: Name,
}

/// What the values that were given for the row say.
pub fn read_named_domain(
    alloc: Global,
    places: &[Given],
    keys: &[Given],
) -> Result<NamedDomain, Refusal>
    ensures { AnswersBy (λ x. x) result (named_domain (map given_view places.now) (map given_view keys.now)) }
{
    let domain = field::name(alloc, text_at(places, 0))?;
    Ok(NamedDomain { domain })
}

/// DEFINE DOMAIN. BACKRETENTION is 30 days where it is not given.
#[derive(Debug, Drop)]
pub struct DomainDefinition {
    pub domain: Name,
    pub back_retention: Days,
}

/// What the values that were given for the row say.
pub fn read_domain_definition(
    alloc: Global,
    places: &[Given],
    keys: &[Given],
) -> Result<DomainDefinition, Refusal>
    ensures { AnswersBy (λ x. x) result (domain_definition (map given_view places.now) (map given_view keys.now)) }
{
    let domain = field::name(alloc, text_at(places, 0))?;
    Ok(DomainDefinition {
        domain,
        back_retention: field::days_or(text_at(keys, 0), 30),
    })
}

/// UPDATE DOMAIN.
#[derive(Debug, Drop)]
pub struct DomainUpdate {
    pub domain: Name,
    pub back_retention: Days,
}

/// What the values that were given for the row say.
pub fn read_domain_update(
    alloc: Global,
    places: &[Given],
    keys: &[Given],
) -> Result<DomainUpdate, Refusal>
    ensures { AnswersBy (λ x. x) result (domain_update (map given_view places.now) (map given_view keys.now)) }
{
    let domain = field::name(alloc, text_at(places, 0))?;
    Ok(DomainUpdate {
        domain,
        back_retention: field::days_or(text_at(keys, 0), 30),
    })
}

/// A policy set by its domain and its name.
#[derive(Debug, Drop)]
pub struct NamedSet {
    pub domain: Name,
    pub set: Name,
}

/// What the values that were given for the row say.
pub fn read_named_set(alloc: Global, places: &[Given], keys: &[Given]) -> Result<NamedSet, Refusal>
    ensures { AnswersBy (λ x. x) result (named_set (map given_view places.now) (map given_view keys.now)) }
{
    let domain = field::name(alloc, text_at(places, 0))?;
    let set = field::name(alloc, text_at(places, 1))?;
    Ok(NamedSet { domain, set })
}

/// A management class by its domain, its policy set and its name.
#[derive(Debug, Drop)]
pub struct NamedClass {
    pub domain: Name,
    pub set: Name,
    pub class: Name,
}

/// What the values that were given for the row say.
pub fn read_named_class(
    alloc: Global,
    places: &[Given],
    keys: &[Given],
) -> Result<NamedClass, Refusal>
    ensures { AnswersBy (λ x. x) result (named_class (map given_view places.now) (map given_view keys.now)) }
{
    let class = field::name(alloc, text_at(places, 2))?;
    let NamedSet { domain, set } = read_named_set(alloc, places, keys)?;
    Ok(NamedClass { domain, set, class })
}

/// DEFINE COPYGROUP: the copy group of a class, with the usual values where none are given.
#[derive(Debug, Drop)]
pub struct GroupDefinition {
    pub domain: Name,
    pub set: Name,
    pub class: Name,
    pub destination: Name,
    pub frequency: u16,
    pub ver_exists: Limit,
    pub ver_deleted: Limit,
    pub ret_extra: Limit,
    pub ret_only: Limit,
    pub mode: Mode,
    pub still: Still,
}

/// What the values that were given for the row say.
pub fn read_group_definition(
    alloc: Global,
    places: &[Given],
    keys: &[Given],
) -> Result<GroupDefinition, Refusal>
    ensures { AnswersBy (λ x. x) result (group_definition (map given_view places.now) (map given_view keys.now)) }
{
    let destination = field::name(alloc, text_at(keys, 1))?;
    let NamedClass { domain, set, class } = read_named_class(alloc, places, keys)?;
    Ok(GroupDefinition {
        domain,
        set,
        class,
        destination,
        frequency: field::count(text_at(keys, 2)).unwrap_or(0),
        ver_exists: field::limit(text_at(keys, 3), 9999).unwrap_or(Limit::At(2)),
        ver_deleted: field::limit(text_at(keys, 4), 9999).unwrap_or(Limit::At(1)),
        ret_extra: field::limit(text_at(keys, 5), 9999).unwrap_or(Limit::At(30)),
        ret_only: field::limit(text_at(keys, 6), 9999).unwrap_or(Limit::At(60)),
        mode: read_mode(text_at(keys, 7)).unwrap_or(Mode::Modified),
        still: read_still(text_at(keys, 8)).unwrap_or(Still::ShrStatic),
    })
}

/// UPDATE COPYGROUP: what is not given stays.
#[derive(Debug, Drop)]
pub struct GroupUpdate {
    pub domain: Name,
    pub set: Name,
    pub class: Name,
    pub destination: Option<Name>,
    pub frequency: Option<u16>,
    pub ver_exists: Option<Limit>,
    pub ver_deleted: Option<Limit>,
    pub ret_extra: Option<Limit>,
    pub ret_only: Option<Limit>,
    pub mode: Option<Mode>,
    pub still: Option<Still>,
}

/// What the values that were given for the row say.
pub fn read_group_update(
    alloc: Global,
    places: &[Given],
    keys: &[Given],
) -> Result<GroupUpdate, Refusal>
    ensures { AnswersBy (λ x. x) result (group_update (map given_view places.now) (map given_view keys.now)) }
{
    let destination = field::name_if(alloc, text_at(keys, 1))?;
    let NamedClass { domain, set, class } = read_named_class(alloc, places, keys)?;
    Ok(GroupUpdate {
        domain,
        set,
        class,
        destination,
        frequency: field::count(text_at(keys, 2)),
        ver_exists: field::limit(text_at(keys, 3), 9999),
        ver_deleted: field::limit(text_at(keys, 4), 9999),
        ret_extra: field::limit(text_at(keys, 5), 9999),
        ret_only: field::limit(text_at(keys, 6), 9999),
        mode: read_mode(text_at(keys, 7)),
        still: read_still(text_at(keys, 8)),
    })
}

/// DEFINE COPYGROUP with TYPE=ARCHIVE: the archive copy group of a class. RETVER is 365 days where it is not given.
#[derive(Debug, Drop)]
pub struct ArchiveDefinition {
    pub domain: Name,
    pub set: Name,
    pub class: Name,
    pub destination: Name,
    pub ret_ver: Limit,
}

/// What the values that were given for the row say.
pub fn read_archive_definition(
    alloc: Global,
    places: &[Given],
    keys: &[Given],
) -> Result<ArchiveDefinition, Refusal>
    ensures { AnswersBy (λ x. x) result (archive_definition (map given_view places.now) (map given_view keys.now)) }
{
    let destination = field::name(alloc, text_at(keys, 1))?;
    let NamedClass { domain, set, class } = read_named_class(alloc, places, keys)?;
    Ok(ArchiveDefinition {
        domain,
        set,
        class,
        destination,
        ret_ver: field::limit(text_at(keys, 2), 30000).unwrap_or(Limit::At(365)),
    })
}

/// UPDATE COPYGROUP with TYPE=ARCHIVE: what is not given stays.
#[derive(Debug, Drop)]
pub struct ArchiveUpdate {
    pub domain: Name,
    pub set: Name,
    pub class: Name,
    pub destination: Option<Name>,
    pub ret_ver: Option<Limit>,
}

/// What the values that were given for the row say.
pub fn read_archive_update(
    alloc: Global,
    places: &[Given],
    keys: &[Given],
) -> Result<ArchiveUpdate, Refusal>
    ensures { AnswersBy (λ x. x) result (archive_update (map given_view places.now) (map given_view keys.now)) }
{
    let destination = field::name_if(alloc, text_at(keys, 1))?;
    let NamedClass { domain, set, class } = read_named_class(alloc, places, keys)?;
    Ok(ArchiveUpdate {
        domain,
        set,
        class,
        destination,
        ret_ver: field::limit(text_at(keys, 2), 30000),
    })
}
