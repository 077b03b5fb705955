//! The rows of client nodes, filespaces and versions.
use crate::words::{Row, put_bytes, put_digest, put_number, wider};
use inventory_answers::{FilespaceLine, HeldLine, NodeLine, VersionLine};
use kinds::{Day, NodeName};
use std::alloc::AllocError;

impl Row for NodeLine {
    fn put(&self, out: &mut String) -> Result<(), AllocError> {
        let number = self.number;
        write!(out, "node {number} ")?;
        put_bytes(out, self.name.as_bytes())?;
        out.push_str(" domain=")?;
        put_bytes(out, self.domain.as_bytes())
    }
}

fn put_node(out: &mut String, node: &Option<NodeName>) -> Result<(), AllocError> {
    match node {
        Some(name) => put_bytes(out, name.as_bytes()),
        None => out.push('-'),
    }
}

impl Row for FilespaceLine {
    fn put(&self, out: &mut String) -> Result<(), AllocError> {
        let number = self.number;
        let files = self.files;
        let versions = self.versions;
        out.push_str("filespace ")?;
        put_node(out, &self.node)?;
        write!(out, " {number} ")?;
        put_bytes(out, self.name.as_bytes())?;
        write!(out, " files={files} versions={versions}")
    }
}

/// The number of a day, where there is one.
fn number_of(day: Option<Day>) -> Option<u64> {
    match day {
        Some(day) => Some(u64::from(day.number())),
        None => None,
    }
}

impl Row for VersionLine {
    fn put(&self, out: &mut String) -> Result<(), AllocError> {
        let object = self.object;
        let size = self.size.bytes();
        let mtime = self.mtime;
        let stored = self.stored.number();
        let owed = self.owed;
        out.push_str("version ")?;
        put_bytes(out, self.path.as_bytes())?;
        write!(
            out,
            " object={object} size={size} mtime={mtime} stored={stored}"
        )?;
        put_number(out, " since=", number_of(self.since))?;
        out.push_str(" class=")?;
        put_bytes(out, self.class.as_bytes())?;
        write!(out, " owed={owed}")?;
        put_digest(out, &self.digest)
    }
}

impl Row for HeldLine {
    fn put(&self, out: &mut String) -> Result<(), AllocError> {
        let object = self.object;
        let size = self.size.bytes();
        let mtime = self.mtime;
        let stored = self.stored.number();
        let owed = self.owed;
        out.push_str("held ")?;
        put_bytes(out, self.path.as_bytes())?;
        write!(
            out,
            " object={object} size={size} mtime={mtime} stored={stored}"
        )?;
        put_number(out, " until=", wider(self.until))?;
        write!(out, " owed={owed}")?;
        put_digest(out, &self.digest)?;
        out.push_str(" description=")?;
        put_bytes(out, self.description.as_bytes())
    }
}
