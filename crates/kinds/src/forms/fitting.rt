//! Types each of whose values has a form.
ghost use Rattle.std.specs.Prelude.{◌≡◌};
ghost use Rattle.std.specs.List.{AllByRecursion};
ghost use Rattle.fields.specs.Forms.{pair};

use crate::change::{DefineOrDelete, Verb};
use crate::day::{Day, Days};
use crate::name::NameOf;
use crate::path::PathOf;
use crate::pool::{Access, Capacity, PoolKind, PoolSettings};
use crate::rule::{ArchiveGroup, CopyGroup, Still};
use crate::segment::{Digest, Segment, Segments};
use crate::size::ObjectSize;
use crate::text::Text;
use fields::{Formed, Items};

/// A type each of whose values has a spelling.
pub trait Fitting: Formed {
    /// Nothing is done; the caller learns that the value has a spelling.
    fn fits(&self)
        ensures { Self.form.Fits self.now };
}

/// Nothing is done; the caller learns that each of the values has a spelling.
pub fn all_fit<T: Fitting>(values: &[T])
    ensures { AllByRecursion T.form.Fits values.now }
{
    'values: for value in values {
        value.fits();
    }
}

impl Fitting for u8 {
    fn fits(&self) {
        let _value = *self;
    }
}

impl Fitting for u16 {
    fn fits(&self) {
        let _value = *self;
    }
}

impl Fitting for u32 {
    fn fits(&self) {
        let _value = *self;
    }
}

impl Fitting for u64 {
    fn fits(&self) {
        let _value = *self;
    }
}

impl Fitting for Day {
    fn fits(&self) {
        let _number = self.number();
    }
}

impl Fitting for Days {
    fn fits(&self) {
        let _count = self.count();
    }
}

impl Fitting for Capacity {
    fn fits(&self) {
        let _bytes = self.bytes();
    }
}

impl Fitting for ObjectSize {
    fn fits(&self) {
        let _bytes = self.bytes();
    }
}

impl Fitting for Text {
    fn fits(&self) {
        let _bytes = self.as_bytes();
    }
}

impl Fitting for NameOf<30> {
    fn fits(&self) {
        let _bytes = self.as_bytes();
    }
}

impl Fitting for NameOf<64> {
    fn fits(&self) {
        let _bytes = self.as_bytes();
    }
}

impl Fitting for PathOf<64> {
    fn fits(&self) {
        let _bytes = self.as_bytes();
    }
}

impl Fitting for PathOf<1024> {
    fn fits(&self) {
        let _bytes = self.as_bytes();
    }
}

impl<T: Fitting, const MOST: u32> Fitting for Items<T, MOST> {
    fn fits(&self) {
        all_fit(self.as_slice());
    }
}

impl<A: Fitting, B: Fitting> Fitting for (A, B) {
    fn fits(&self) {
        self.0.fits();
        self.1.fits();
    }
}

impl<T: Fitting> Fitting for Option<T> {
    fn fits(&self) {
        if let Some(value) = self {
            value.fits();
        }
    }
}

impl Fitting for bool {
    fn fits(&self) {}
}

impl Fitting for Verb {
    fn fits(&self) {}
}

impl Fitting for DefineOrDelete {
    fn fits(&self) {}
}

impl Fitting for PoolKind {
    fn fits(&self) {}
}

impl Fitting for Access {
    fn fits(&self) {}
}

impl Fitting for Still {
    fn fits(&self) {}
}

impl Fitting for Digest {
    fn fits(&self) {
        let _bytes = self.0;
    }
}

impl Fitting for Segment {
    fn fits(&self) {
        let _file = self.file;
        let _offset = self.offset;
        let _len = self.len;
    }
}

impl Fitting for Segments {
    fn fits(&self) {
        all_fit(self.as_slice());
    }
}

impl Fitting for CopyGroup {
    fn fits(&self) {
        let rule = self.rule();
        rule.destination.fits();
    }
}

impl Fitting for ArchiveGroup {
    fn fits(&self) {
        let rule = self.rule();
        rule.destination.fits();
    }
}

impl Fitting for PoolSettings {
    fn fits(&self) {
        let rule = self.rule();
        rule.reuse_delay.fits();
        rule.next.unwrap_or(0).fits();
    }
}
