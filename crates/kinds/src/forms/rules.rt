//! Limits, copy groups and the settings of storage pools.
ghost use Rattle.std.specs.Prelude.{◌≡◌};
ghost use Rattle.fields.specs.Editions.{second_form};
ghost use Rattle.kinds.specs.PoolForms.{size_limit, size_limit_form, pool_rule, pool_rule_form, settings, settings_form};
ghost use Rattle.kinds.specs.RuleForms.{rule_limit, rule_limit_form, rule_fields, rule, rule_form, group, group_form, archive_rule, archive_rule_form, archive_group, archive_group_form};
ghost use Rattle.kinds.specs.ValueForms.{unless_zero};

use crate::day::Days;
use crate::pool::{PoolRule, PoolSettings, SizeLimit};
use crate::rule::{ArchiveGroup, ArchiveRule, BackupRule, CopyGroup, Limit, Still};
use fields::{
    By, Decoder, Fault, Formed, InEdition, Memory, Reader, Second, put_u32, put_u64, take_added,
};
use std::alloc::Global;

/// A number in four bytes, all ones for NOLIMIT.
impl Formed for Limit {
    ghost form = { rule_limit };

    fn write_to(&self, out: &mut Vec<u8>) -> Result<(), Memory> {
        match self {
            Limit::At(number) => put_u32(out, *number),
            Limit::NoLimit => put_u32(out, u32::MAX),
        }
    }

    fn read_from(_alloc: Global, reader: &mut Reader<'_>) -> Result<Self, Fault> {
        let number = reader.u32()?;
        if number == u32::MAX {
            Ok(Limit::NoLimit)
        } else {
            Ok(Limit::At(number))
        }
    }

    ghost is_form = { rule_limit_form };
}

/// A number in eight bytes, all ones for NOLIMIT.
impl Formed for SizeLimit {
    ghost form = { size_limit };

    fn write_to(&self, out: &mut Vec<u8>) -> Result<(), Memory> {
        match self {
            SizeLimit::At(number) => put_u64(out, *number),
            SizeLimit::NoLimit => put_u64(out, u64::MAX),
        }
    }

    fn read_from(_alloc: Global, reader: &mut Reader<'_>) -> Result<Self, Fault> {
        let number = reader.u64()?;
        if number == u64::MAX {
            Ok(SizeLimit::NoLimit)
        } else {
            Ok(SizeLimit::At(number))
        }
    }

    ghost is_form = { size_limit_form };
}

/// The parameters of a backup copy group, in the order of their bytes.
type RuleFields = (
    u32,
    (u16, (Limit, (Limit, (Limit, (Limit, (bool, Still)))))),
);

fn rule_fields(rule: &BackupRule) -> RuleFields
    ensures { result ≡ rule_fields rule.now }
{
    let ret = (rule.ret_extra, (rule.ret_only, (rule.absolute, rule.still)));
    let ver = (rule.ver_exists, (rule.ver_deleted, ret));
    (rule.destination, (rule.frequency, ver))
}

/// The parameters one after the other.
impl Formed for BackupRule {
    ghost form = { rule };

    fn write_to(&self, out: &mut Vec<u8>) -> Result<(), Memory> {
        rule_fields(self).write_to(out)
    }

    fn read_from(alloc: Global, reader: &mut Reader<'_>) -> Result<Self, Fault> {
        let (destination, (frequency, (ver_exists, (ver_deleted, ret)))) = RuleFields::read_from(
            alloc, reader,
        )?;
        let (ret_extra, (ret_only, (absolute, still))) = ret;
        Ok(BackupRule {
            destination,
            frequency,
            ver_exists,
            ver_deleted,
            ret_extra,
            ret_only,
            absolute,
            still,
        })
    }

    ghost is_form = { rule_form };
}

/// The rule, where its parameters are in their ranges.
impl Formed for CopyGroup {
    ghost form = { group };

    fn write_to(&self, out: &mut Vec<u8>) -> Result<(), Memory> {
        self.rule().write_to(out)
    }

    fn read_from(alloc: Global, reader: &mut Reader<'_>) -> Result<Self, Fault> {
        let rule = BackupRule::read_from(alloc, reader)?;
        match CopyGroup::new(rule) {
            Some(group) => Ok(group),
            None => Err(Fault::Malformed),
        }
    }

    ghost is_form = { group_form };
}

/// The parameters one after the other.
impl Formed for ArchiveRule {
    ghost form = { archive_rule };

    fn write_to(&self, out: &mut Vec<u8>) -> Result<(), Memory> {
        (self.destination, self.ret_ver).write_to(out)
    }

    fn read_from(alloc: Global, reader: &mut Reader<'_>) -> Result<Self, Fault> {
        let (destination, ret_ver) = <(u32, Limit)>::read_from(alloc, reader)?;
        Ok(ArchiveRule {
            destination,
            ret_ver,
        })
    }

    ghost is_form = { archive_rule_form };
}

/// The rule, where its parameters are in their ranges.
impl Formed for ArchiveGroup {
    ghost form = { archive_group };

    fn write_to(&self, out: &mut Vec<u8>) -> Result<(), Memory> {
        self.rule().write_to(out)
    }

    fn read_from(alloc: Global, reader: &mut Reader<'_>) -> Result<Self, Fault> {
        let rule = ArchiveRule::read_from(alloc, reader)?;
        match ArchiveGroup::new(rule) {
            Some(group) => Ok(group),
            None => Err(Fault::Malformed),
        }
    }

    ghost is_form = { archive_group_form };
}

fn next_of(number: u32) -> Option<u32>
    ensures { result ≡ unless_zero number }
{
    if number == 0 { None } else { Some(number) }
}

/// HIGHMIG, LOWMIG, RECLAIM, REUSEDELAY, MAXSCRATCH and COLLOCATE, in the order of their bytes.
type PoolNumbers = (u8, (u8, (u8, (Days, (u16, bool)))));

/// The parameters one after the other, with 0 where there is no next pool. COLLOCATE is added by the second form.
impl<E: InEdition> Decoder<PoolRule> for By<E> {
    ghost form = { pool_rule E.edition };

    fn take(alloc: Global, reader: &mut Reader<'_>) -> Result<PoolRule, Fault> {
        let max_size = SizeLimit::read_from(alloc, reader)?;
        let next = next_of(reader.u32()?);
        let high = reader.u8()?;
        let low = reader.u8()?;
        let reclaim = reader.u8()?;
        let reuse_delay = Days::read_from(alloc, reader)?;
        let max_scratch = reader.u16()?;
        let collocate = take_added::<E, bool>(alloc, reader, false)?;
        Ok(PoolRule {
            max_size,
            next,
            high,
            low,
            reclaim,
            reuse_delay,
            max_scratch,
            collocate,
        })
    }

    ghost is_form = { pool_rule_form E.edition };
}

impl Formed for PoolRule {
    ghost form = { pool_rule second_form };

    fn write_to(&self, out: &mut Vec<u8>) -> Result<(), Memory> {
        self.max_size.write_to(out)?;
        put_u32(out, self.next.unwrap_or(0))?;
        let scratch = (self.max_scratch, self.collocate);
        let kept = (self.reclaim, (self.reuse_delay, scratch));
        (self.high, (self.low, kept)).write_to(out)?;
        Ok(())
    }

    fn read_from(alloc: Global, reader: &mut Reader<'_>) -> Result<Self, Fault> {
        By::<Second>::take(alloc, reader)
    }

    ghost is_form = { pool_rule_form second_form };
}

/// The rule, where its parameters are in their ranges.
impl<E: InEdition> Decoder<PoolSettings> for By<E> {
    ghost form = { settings E.edition };

    fn take(alloc: Global, reader: &mut Reader<'_>) -> Result<PoolSettings, Fault> {
        let rule = <By<E> as Decoder<PoolRule>>::take(alloc, reader)?;
        match PoolSettings::new(rule) {
            Some(settings) => Ok(settings),
            None => Err(Fault::Malformed),
        }
    }

    ghost is_form = { settings_form E.edition };
}

impl Formed for PoolSettings {
    ghost form = { settings second_form };

    fn write_to(&self, out: &mut Vec<u8>) -> Result<(), Memory> {
        self.rule().write_to(out)
    }

    fn read_from(alloc: Global, reader: &mut Reader<'_>) -> Result<Self, Fault> {
        By::<Second>::take(alloc, reader)
    }

    ghost is_form = { settings_form second_form };
}
