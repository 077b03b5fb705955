//! Policy domains, their sets and their classes.
ghost use Rattle.std.specs.Prelude.{◌≡◌, ◌++◌, OnOk};
ghost use Rattle.std.specs.Option.{option_copied};
ghost use Rattle.fields.specs.Forms.{option};
ghost use Rattle.kinds.specs.ValueForms.{name};
ghost use Rattle.fields.specs.Editions.{second_form};
ghost use Rattle.inventory_bytes.specs.PolicyForms.{class_row, class_row_form, set_row, set_row_form, domain_row, domain_row_form};

use fields::{
    Codec, Decoder, Fault, Formed, InEdition, Memory, Reader, Second, put_table, put_u8,
    take_added, take_table,
};
use inventory_rows::policy_domains::{ManagementClass, PolicyDomain, PolicySet};
use kinds::{ArchiveGroup, CopyGroup, Days, Name};
use std::alloc::Global;
use std::marker::PhantomData;

/// Puts a name that there may be: 0 for none, or 1 and the name.
fn put_name(out: &mut Vec<u8>, named: Option<&Name>) -> Result<(), Memory>
    requires { (option (name 30)).Fits (option_copied named) }
    ensures { OnOk result (out.new.items ≡ out.old.items ++ (option (name 30)).spell (option_copied named.entry)) }
{
    match named {
        None => put_u8(out, 0),
        Some(name) => {
            put_u8(out, 1)?;
            name.write_to(out)?;
            Ok(())
        }
    }
}

/// A management class: its backup copy group, where it has one, and its archive copy group, which the second form adds.
pub struct ClassBytes<E> {
    edition: PhantomData<E>,
}

#[tactic(auto, unfolding(crate::specs::PolicyForms::class_row))]
impl<E: InEdition> Decoder<ManagementClass> for ClassBytes<E> {
    ghost form = { class_row E.edition };

    fn take(alloc: Global, reader: &mut Reader<'_>) -> Result<ManagementClass, Fault> {
        let backup = Option::<CopyGroup>::read_from(alloc, reader)?;
        let archive = take_added::<E, Option<ArchiveGroup>>(alloc, reader, None)?;
        Ok(ManagementClass { backup, archive })
    }

    ghost is_form = { class_row_form E.edition };
}

#[tactic(auto, unfolding(crate::specs::PolicyForms::class_row))]
impl Codec<ManagementClass> for ClassBytes<Second> {
    fn put(out: &mut Vec<u8>, value: &ManagementClass) -> Result<(), Memory> {
        value.backup.write_to(out)?;
        value.archive.write_to(out)?;
        Ok(())
    }
}

/// A policy set: its default class, where it has one, and its classes by name.
pub struct SetRow<E> {
    edition: PhantomData<E>,
}

#[tactic(auto, unfolding(crate::specs::PolicyForms::set_row))]
impl<E: InEdition> Decoder<PolicySet> for SetRow<E> {
    ghost form = { set_row E.edition };

    fn take(alloc: Global, reader: &mut Reader<'_>) -> Result<PolicySet, Fault> {
        let default_class = Option::<Name>::read_from(alloc, reader)?;
        let classes = take_table::<Name, ManagementClass, ClassBytes<E>>(alloc, reader, u32::MAX)?;
        Ok(PolicySet::from_parts(default_class, classes))
    }

    ghost is_form = { set_row_form E.edition };
}

#[tactic(auto, unfolding(crate::specs::PolicyForms::set_row))]
impl Codec<PolicySet> for SetRow<Second> {
    fn put(out: &mut Vec<u8>, value: &PolicySet) -> Result<(), Memory> {
        put_name(out, value.default_class())?;
        put_table::<Name, ManagementClass, ClassBytes<Second>>(out, value.classes())?;
        Ok(())
    }
}

/// A policy domain: BACKRETENTION, and its sets by name.
pub struct DomainRow<E> {
    edition: PhantomData<E>,
}

#[tactic(auto, unfolding(crate::specs::PolicyForms::domain_row))]
impl<E: InEdition> Decoder<PolicyDomain> for DomainRow<E> {
    ghost form = { domain_row E.edition };

    fn take(alloc: Global, reader: &mut Reader<'_>) -> Result<PolicyDomain, Fault> {
        let back_retention = Days::read_from(alloc, reader)?;
        let sets = take_table::<Name, PolicySet, SetRow<E>>(alloc, reader, u32::MAX)?;
        Ok(PolicyDomain::from_parts(back_retention, sets))
    }

    ghost is_form = { domain_row_form E.edition };
}

#[tactic(auto, unfolding(crate::specs::PolicyForms::domain_row))]
impl Codec<PolicyDomain> for DomainRow<Second> {
    fn put(out: &mut Vec<u8>, value: &PolicyDomain) -> Result<(), Memory> {
        value.back_retention().write_to(out)?;
        put_table::<Name, PolicySet, SetRow<Second>>(out, value.sets())?;
        Ok(())
    }
}
