//! The rows of domains and of versions in words.
use kinds::Name;
use policy_domains::{Domains, ManagementClass, PolicyDomain, PolicySet};
use std::alloc::{AllocError, Global};
use version_groups::{CopyRow, Group, Version};

fn put_name(out: &mut String, name: &Name) -> Result<(), AllocError> {
    for byte in name.as_bytes() {
        out.push(char::from(*byte))?;
    }
    Ok(())
}

/// The number of a pool behind a sign.
fn put_pool(out: &mut String, sign: char, pool: u32) -> Result<(), AllocError> {
    write!(out, "{sign}{pool}")
}

/// A class, and the destinations of its backup and its archive copy group, where it has them.
fn put_class(out: &mut String, name: &Name, class: &ManagementClass) -> Result<(), AllocError> {
    out.push(' ')?;
    put_name(out, name)?;
    if let Some(group) = class.backup {
        put_pool(out, '=', group.rule().destination)?;
    }
    if let Some(group) = class.archive {
        put_pool(out, '+', group.rule().destination)?;
    }
    Ok(())
}

fn put_default(out: &mut String, set: &PolicySet) -> Result<(), AllocError> {
    match set.default_class() {
        Some(name) => {
            out.push_str(" default ")?;
            put_name(out, name)
        }
        None => Ok(()),
    }
}

/// A set with its default class and its classes.
fn put_set(out: &mut String, name: &Name, set: &PolicySet) -> Result<(), AllocError> {
    out.push_str(", ")?;
    put_name(out, name)?;
    put_default(out, set)?;
    for (name, class) in set.classes() {
        put_class(out, name, class)?;
    }
    Ok(())
}

/// A domain with its sets.
fn put_domain(out: &mut String, name: &Name, domain: &PolicyDomain) -> Result<(), AllocError> {
    let days = domain.back_retention().count();
    put_name(out, name)?;
    write!(out, " {days}")?;
    for (set, row) in domain.sets() {
        put_set(out, set, row)?;
    }
    Ok(())
}

/// A semicolon between two rows.
fn put_sign(out: &mut String) -> Result<(), AllocError> {
    if out.is_empty() {
        Ok(())
    } else {
        out.push_str("; ")
    }
}

/// The domains with their BACKRETENTION, sets and classes.
pub fn domains(alloc: Global, domains: &Domains) -> Result<String, AllocError> {
    let mut out = String::new(alloc);
    for (name, domain) in domains.rows() {
        put_sign(&mut out)?;
        put_domain(&mut out, name, domain)?;
    }
    Ok(out)
}

fn put_copy(out: &mut String, copy: &CopyRow) -> Result<(), AllocError> {
    let pool = copy.pool;
    let placed = copy.placed;
    write!(out, " {pool}@{placed}")
}

fn put_since(out: &mut String, version: &Version) -> Result<(), AllocError> {
    match version.since {
        Some(day) => {
            let day = day.number();
            write!(out, " since {day}")
        }
        None => out.push_str(" active"),
    }
}

fn put_version(out: &mut String, version: &Version) -> Result<(), AllocError> {
    let object = version.object;
    write!(out, "{object}")?;
    put_since(out, version)?;
    for copy in version.copies.as_slice() {
        put_copy(out, copy)?;
    }
    Ok(())
}

fn put_group(out: &mut String, group: &Group) -> Result<(), AllocError> {
    put_name(out, &group.class)?;
    for version in group.versions.as_slice() {
        out.push_str("; ")?;
        put_version(out, version)?;
    }
    Ok(())
}

/// The class of a path and its versions, the newest first, or `none`.
pub fn group(alloc: Global, found: Option<&Group>) -> Result<String, AllocError> {
    let mut out = String::new(alloc);
    match found {
        Some(group) => put_group(&mut out, group)?,
        None => out.push_str("none")?,
    }
    Ok(out)
}

/// One version, or `none`.
pub fn version(alloc: Global, found: Option<&Version>) -> Result<String, AllocError> {
    let mut out = String::new(alloc);
    match found {
        Some(version) => put_version(&mut out, version)?,
        None => out.push_str("none")?,
    }
    Ok(out)
}
