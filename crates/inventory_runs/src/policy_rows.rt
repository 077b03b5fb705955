//! The rows of policy domains, policy sets, management classes and copy groups.
use crate::words::{Row, put_bytes, put_name};
use inventory_answers::{ClassLine, DomainLine, GroupLine, SetLine};
use std::alloc::AllocError;

impl Row for DomainLine {
    fn put(&self, out: &mut String) -> Result<(), AllocError> {
        let days = self.back_retention.count();
        let active = self.active;
        out.push_str("domain ")?;
        put_bytes(out, self.name.as_bytes())?;
        write!(out, " backretention={days} active={active}")
    }
}

impl Row for SetLine {
    fn put(&self, out: &mut String) -> Result<(), AllocError> {
        out.push_str("set ")?;
        put_bytes(out, self.domain.as_bytes())?;
        out.push(' ')?;
        put_bytes(out, self.set.as_bytes())?;
        put_name(out, " default=", &self.default_class)
    }
}

impl Row for ClassLine {
    fn put(&self, out: &mut String) -> Result<(), AllocError> {
        let group = self.group;
        let archive = &self.archive;
        out.push_str("class ")?;
        put_bytes(out, self.domain.as_bytes())?;
        out.push(' ')?;
        put_bytes(out, self.set.as_bytes())?;
        out.push(' ')?;
        put_bytes(out, self.class.as_bytes())?;
        write!(out, " group={group} archive={archive:?}")
    }
}

impl Row for GroupLine {
    fn put(&self, out: &mut String) -> Result<(), AllocError> {
        let rule = &self.rule;
        out.push_str("group ")?;
        put_bytes(out, self.domain.as_bytes())?;
        out.push(' ')?;
        put_bytes(out, self.set.as_bytes())?;
        out.push(' ')?;
        put_bytes(out, self.class.as_bytes())?;
        put_name(out, " destination=", &self.destination)?;
        write!(out, " {rule:?}")
    }
}
