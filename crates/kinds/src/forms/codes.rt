//! Values that are one of a few: a number in one byte.
ghost use Rattle.kinds.specs.PoolForms.{kind, kind_form, access, access_form};
ghost use Rattle.kinds.specs.RuleForms.{still, still_form};
ghost use Rattle.kinds.specs.VerbForms.{verb, verb_form, define_or_delete, define_or_delete_form};

use crate::change::{DefineOrDelete, Verb};
use crate::pool::{Access, PoolKind};
use crate::rule::Still;
use fields::{Fault, Formed, Memory, Reader, put_u8};
use std::alloc::Global;

/// 1 for define, 2 for update, 3 for delete.
impl Formed for Verb {
    ghost form = { verb };

    fn write_to(&self, out: &mut Vec<u8>) -> Result<(), Memory> {
        let code = match self {
            Verb::Define => 1,
            Verb::Update => 2,
            Verb::Delete => 3,
        };
        put_u8(out, code)
    }

    fn read_from(_alloc: Global, reader: &mut Reader<'_>) -> Result<Self, Fault> {
        match reader.u8()? {
            1 => Ok(Verb::Define),
            2 => Ok(Verb::Update),
            3 => Ok(Verb::Delete),
            _ => Err(Fault::Malformed),
        }
    }

    ghost is_form = { verb_form };
}

/// 1 for define, 3 for delete.
impl Formed for DefineOrDelete {
    ghost form = { define_or_delete };

    fn write_to(&self, out: &mut Vec<u8>) -> Result<(), Memory> {
        let code = match self {
            DefineOrDelete::Define => 1,
            DefineOrDelete::Delete => 3,
        };
        put_u8(out, code)
    }

    fn read_from(_alloc: Global, reader: &mut Reader<'_>) -> Result<Self, Fault> {
        match reader.u8()? {
            1 => Ok(DefineOrDelete::Define),
            3 => Ok(DefineOrDelete::Delete),
            _ => Err(Fault::Malformed),
        }
    }

    ghost is_form = { define_or_delete_form };
}

/// 1 for a primary pool, 2 for a copy pool.
impl Formed for PoolKind {
    ghost form = { kind };

    fn write_to(&self, out: &mut Vec<u8>) -> Result<(), Memory> {
        let code = match self {
            PoolKind::Primary => 1,
            PoolKind::Copy => 2,
        };
        put_u8(out, code)
    }

    fn read_from(_alloc: Global, reader: &mut Reader<'_>) -> Result<Self, Fault> {
        match reader.u8()? {
            1 => Ok(PoolKind::Primary),
            2 => Ok(PoolKind::Copy),
            _ => Err(Fault::Malformed),
        }
    }

    ghost is_form = { kind_form };
}

/// 1 for READWRITE, 2 for READONLY, 3 for UNAVAILABLE, 4 for OFFSITE, 5 for DESTROYED.
impl Formed for Access {
    ghost form = { access };

    fn write_to(&self, out: &mut Vec<u8>) -> Result<(), Memory> {
        let code = match self {
            Access::ReadWrite => 1,
            Access::ReadOnly => 2,
            Access::Unavailable => 3,
            Access::Offsite => 4,
            Access::Destroyed => 5,
        };
        put_u8(out, code)
    }

    fn read_from(_alloc: Global, reader: &mut Reader<'_>) -> Result<Self, Fault> {
        match reader.u8()? {
            1 => Ok(Access::ReadWrite),
            2 => Ok(Access::ReadOnly),
            3 => Ok(Access::Unavailable),
            4 => Ok(Access::Offsite),
            5 => Ok(Access::Destroyed),
            _ => Err(Fault::Malformed),
        }
    }

    ghost is_form = { access_form };
}

/// 0 for SHRSTATIC, 1 for STATIC.
impl Formed for Still {
    ghost form = { still };

    fn write_to(&self, out: &mut Vec<u8>) -> Result<(), Memory> {
        let code = match self {
            Still::ShrStatic => 0,
            Still::Static => 1,
        };
        put_u8(out, code)
    }

    fn read_from(_alloc: Global, reader: &mut Reader<'_>) -> Result<Self, Fault> {
        match reader.u8()? {
            0 => Ok(Still::ShrStatic),
            1 => Ok(Still::Static),
            _ => Err(Fault::Malformed),
        }
    }

    ghost is_form = { still_form };
}
