//! The rows of device classes, storage pools, volumes, what lies on these, and database backups.
use crate::words::{Row, put_bytes, put_name, put_number, wider};
use inventory_answers::{BackupLine, ContentLine, DeviceLine, PoolLine, VolumeLine};
use kinds::{Capacity, ObjectSize};
use std::alloc::AllocError;

/// How many bytes these are, where there are any.
fn bytes_of(capacity: Option<Capacity>) -> Option<u64> {
    match capacity {
        Some(capacity) => Some(capacity.bytes()),
        None => None,
    }
}

impl Row for DeviceLine {
    fn put(&self, out: &mut String) -> Result<(), AllocError> {
        out.push_str("device ")?;
        put_bytes(out, self.name.as_bytes())?;
        put_number(out, " capacity=", bytes_of(self.capacity))
    }
}

impl Row for PoolLine {
    fn put(&self, out: &mut String) -> Result<(), AllocError> {
        let number = self.number;
        let kind = &self.kind;
        let percent = self.percent;
        let settings = &self.settings;
        write!(out, "pool {number} ")?;
        put_bytes(out, self.name.as_bytes())?;
        write!(out, " kind={kind:?} class=")?;
        put_bytes(out, self.class.as_bytes())?;
        put_name(out, " next=", &self.next)?;
        write!(out, " percent={percent} {settings:?}")
    }
}

impl Row for VolumeLine {
    fn put(&self, out: &mut String) -> Result<(), AllocError> {
        let file = self.file;
        let status = &self.status;
        let access = &self.access;
        let used = self.used;
        let capacity = self.capacity.bytes();
        out.push_str("volume ")?;
        put_bytes(out, self.name.as_bytes())?;
        write!(out, " file={file}")?;
        put_name(out, " pool=", &self.pool)?;
        write!(
            out,
            " status={status:?} access={access:?} used={used} capacity={capacity}"
        )
    }
}

/// The size, where there is one.
fn size_of(size: Option<ObjectSize>) -> Option<u64> {
    match size {
        Some(size) => Some(size.bytes()),
        None => None,
    }
}

impl Row for ContentLine {
    fn put(&self, out: &mut String) -> Result<(), AllocError> {
        let object = self.object;
        let segments = self.segments;
        out.push_str("content ")?;
        put_bytes(out, self.volume.as_bytes())?;
        write!(out, " object={object}")?;
        put_number(out, " size=", size_of(self.size))?;
        write!(out, " segments={segments}")
    }
}

impl Row for BackupLine {
    fn put(&self, out: &mut String) -> Result<(), AllocError> {
        let file = self.file;
        let taken = self.taken.number();
        let number = self.number;
        let done = self.done;
        write!(
            out,
            "backup {file} taken={taken} number={number} done={done}"
        )?;
        put_number(out, " after=", wider(self.after))
    }
}
