//! Patterns of paths, and the rules by which paths are bound.
use crate::text::{parted, plain, refused};
use choosers::{Binder, Bound, Rule, match_rules, read_rules};
use kinds::{Name, Refusal};
use path_patterns::Pattern;
use policy_domains::{ManagementClass, PolicySet};
use std::alloc::{AllocError, Global};
use std::collections::BTreeMap;

/// The longest text of a rule file that is read.
const LONGEST: usize = 4096;

/// Whether the pattern matches the path, and whether its copy has other bytes.
fn matched(
    alloc: Global,
    pattern: &Pattern,
    bytes: &[u8],
    path: &[u8],
) -> Result<Vec<u8>, AllocError> {
    let told: &[u8] = if pattern.matches(path) {
        b"matches"
    } else {
        b"no match"
    };
    let mut out = Vec::from_slice(alloc, told)?;
    let copy = pattern.clone()?;
    if copy.as_bytes() != bytes {
        out.extend_from_slice(b", COPIED OTHERWISE")?;
    }
    Ok(out)
}

pub fn pattern(alloc: Global, line: &[u8]) -> Result<Vec<u8>, AllocError> {
    let (bytes, path) = parted(line);
    match Pattern::read(alloc, bytes) {
        Ok(pattern) => matched(alloc, &pattern, bytes, path),
        Err(refusal) => refused(alloc, &refusal),
    }
}

/// The rules of a text.
fn read(alloc: Global, text: &[u8]) -> Result<Vec<Rule>, Refusal> {
    if text.len() > LONGEST {
        return Err(Refusal::TooLarge);
    }
    read_rules(alloc, text)
}

/// A rule by its words.
fn show_rule(out: &mut Vec<u8>, rule: &Rule) -> Result<(), AllocError> {
    let verb: &[u8] = match rule {
        Rule::Include { .. } => b"INCLUDE ",
        Rule::Exclude { .. } => b"EXCLUDE ",
    };
    out.extend_from_slice(verb)?;
    out.extend_from_slice(rule.pattern().as_bytes())?;
    if let Some(class) = rule.class() {
        out.extend_from_slice(b" to ")?;
        out.extend_from_slice(class.as_bytes())?;
    }
    out.push(b';')?;
    Ok(())
}

fn show_rules(alloc: Global, rules: &[Rule]) -> Result<Vec<u8>, AllocError> {
    let mut out = Vec::new(alloc);
    for rule in rules {
        show_rule(&mut out, rule)?;
    }
    Ok(out)
}

/// The rules of a file.
fn file_told(alloc: Global, text: &[u8]) -> Result<Vec<u8>, AllocError> {
    match read(alloc, text) {
        Ok(rules) => show_rules(alloc, rules.as_slice()),
        Err(refusal) => refused(alloc, &refusal),
    }
}

/// A policy set with one class, BIG.
fn set_with_big(alloc: Global) -> Result<PolicySet, Refusal> {
    let mut classes = BTreeMap::new(alloc);
    let class = ManagementClass {
        backup: None,
        archive: None,
    };
    classes.insert(Name::read(alloc, b"BIG", 30)?, class)?;
    Ok(PolicySet::from_parts(None, classes))
}

fn bound_text(alloc: Global, bound: &Bound) -> Result<String, AllocError> {
    format!(in alloc; "{bound:?}")
}

/// How the rules bind a path, and to which class.
fn bound(alloc: Global, rules: Vec<Rule>, path: &[u8]) -> Result<Vec<u8>, Refusal> {
    let binder = Binder::new(rules);
    let how = match_rules(binder.rules(), path);
    let mut out = Vec::from_slice(alloc, bound_text(alloc, &how)?.as_bytes())?;
    let set = set_with_big(alloc)?;
    let standard = Name::read(alloc, b"STANDARD", 30)?;
    match binder.class_of(path, &set, &standard) {
        Some(class) => {
            out.extend_from_slice(b", ")?;
            out.extend_from_slice(class.as_bytes())?;
        }
        None => out.extend_from_slice(b", no class")?,
    }
    Ok(out)
}

/// How the rules of a file bind a path.
fn path_told(alloc: Global, text: &[u8], path: &[u8]) -> Result<Vec<u8>, AllocError> {
    match read(alloc, text).and_then(|rules| bound(alloc, rules, path)) {
        Ok(told) => Ok(told),
        Err(refusal) => refused(alloc, &refusal),
    }
}

/// What a line of rules comes to; in `file` stands the text of the last rule file.
pub fn rules(alloc: Global, file: &mut Vec<u8>, line: &[u8]) -> Result<Vec<u8>, AllocError> {
    let (word, rest) = parted(line);
    let text = plain(alloc, rest)?;
    match word {
        b"file" => {
            let told = file_told(alloc, text.as_slice())?;
            *file = text;
            Ok(told)
        }
        b"path" => path_told(alloc, file.as_slice(), text.as_slice()),
        _ => Vec::from_slice(alloc, b"no line of rules"),
    }
}
