//! The rows that the server's own processes ask for.
use crate::words::{Row, put_bytes, put_digest, put_name};
use inventory_work::{ClassRule, CopyLine, Found, MissingLine, Rules, UnretainedLine};
use std::alloc::AllocError;

impl Row for CopyLine {
    fn put(&self, out: &mut String) -> Result<(), AllocError> {
        let object = self.object;
        let size = self.size.bytes();
        let stored = self.stored.number();
        let node = self.node;
        let pool = self.pool;
        let placed = self.placed;
        write!(
            out,
            "copy object={object} size={size} stored={stored} node={node} pool={pool} placed={placed}"
        )?;
        put_digest(out, &self.digest)
    }
}

impl Row for MissingLine {
    fn put(&self, out: &mut String) -> Result<(), AllocError> {
        let object = self.object;
        let size = self.size.bytes();
        write!(out, "missing object={object} size={size}")
    }
}

impl Row for UnretainedLine {
    fn put(&self, out: &mut String) -> Result<(), AllocError> {
        let filespace = self.filespace;
        let object = self.object;
        write!(out, "unretained filespace={filespace} path=")?;
        put_bytes(out, self.path.as_bytes())?;
        write!(out, " object={object}")
    }
}

impl Row for ClassRule {
    fn put(&self, out: &mut String) -> Result<(), AllocError> {
        let rule = &self.rule;
        out.push_str("rule ")?;
        put_bytes(out, self.class.as_bytes())?;
        let archive = &self.archive;
        write!(out, " {rule:?} archive={archive:?}")
    }
}

/// The default class, and behind it a row for each class.
pub fn put_rules(out: &mut String, rules: &Rules) -> Result<(), AllocError> {
    put_name(out, ", default=", &rules.default_class)?;
    for line in rules.classes.as_slice() {
        out.push('\n')?;
        line.put(out)?;
    }
    Ok(())
}

/// The number or the capacity to which a name leads.
pub fn put_found(out: &mut String, found: &Found) -> Result<(), AllocError> {
    write!(out, ", {found:?}")
}
