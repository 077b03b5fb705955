//! Changes of policy domains.
ghost use Rattle.std.specs.Prelude.{◌≡◌, ◌++◌, OnOk};
ghost use Rattle.fields.specs.Forms.{variant};
ghost use Rattle.fields.specs.Gives.{Gives};
ghost use Rattle.fields.specs.Editions.{second_form};
ghost use Rattle.entries.specs.ChangeForm.{change};
ghost use Rattle.entries.specs.declared.change.Change.TheVariants.{Policy};
ghost use Rattle.entries.specs.PolicyTags.{policy_body, set_path, class_path, domain_with, domain_of, domain_fields, set_with, set_of, set_fields, class_with, class_of, class_fields, group_with, group_of, group_fields, archive_with, archive_of, archive_fields, assign_with, assign_of, activate_with, activate_of};

use fields::{Fault, Formed, InEdition, Memory, Reader, put_u8};
use kinds::{ArchiveGroup, CopyGroup, Days, DefineOrDelete, Fitting, Name, PolicyChange, Verb};
use std::alloc::Global;

fn put_set(out: &mut Vec<u8>, domain: &Name, set: &Name) -> Result<(), Memory>
    requires { set_path.Fits (domain.now, set.now) }
    ensures { OnOk result (out.new.items ≡ out.old.items ++ set_path.spell (domain.now, set.now)) }
{
    domain.write_to(out)?;
    set.write_to(out)?;
    Ok(())
}

fn put_class(out: &mut Vec<u8>, domain: &Name, set: &Name, class: &Name) -> Result<(), Memory>
    requires { class_path.Fits (domain.now, (set.now, class.now)) }
    ensures { OnOk result (out.new.items ≡ out.old.items ++ class_path.spell (domain.now, (set.now, class.now))) }
{
    domain.write_to(out)?;
    set.write_to(out)?;
    class.write_to(out)?;
    Ok(())
}

/// Puts the spelling of the change at the end, its tag in front.
#[tactic(auto, unfolding(crate::specs::ChangeForm::change, crate::specs::ChangeForm::change_body, crate::specs::PolicyTags::policy_body))]
pub fn put_policy(out: &mut Vec<u8>, policy: &PolicyChange) -> Result<(), Memory>
    requires { (change second_form).Fits (Policy policy.now) }
    ensures { OnOk result (out.new.items ≡ out.old.items ++ (change second_form).spell (Policy policy.now)) }
{
    match policy {
        PolicyChange::Domain {
            verb,
            domain,
            back_retention,
        } => {
            put_u8(out, 2)?;
            verb.write_to(out)?;
            domain.write_to(out)?;
            back_retention.write_to(out)?;
            Ok(())
        }
        PolicyChange::Set { verb, domain, set } => {
            put_u8(out, 3)?;
            verb.write_to(out)?;
            put_set(out, domain, set)?;
            Ok(())
        }
        PolicyChange::Class {
            verb,
            domain,
            set,
            class,
        } => {
            put_u8(out, 4)?;
            verb.write_to(out)?;
            put_class(out, domain, set, class)?;
            Ok(())
        }
        PolicyChange::Group {
            verb,
            domain,
            set,
            class,
            group,
        } => {
            put_u8(out, 5)?;
            verb.write_to(out)?;
            put_class(out, domain, set, class)?;
            group.write_to(out)?;
            Ok(())
        }
        PolicyChange::ArchiveGroup {
            verb,
            domain,
            set,
            class,
            group,
        } => {
            put_u8(out, 26)?;
            verb.write_to(out)?;
            put_class(out, domain, set, class)?;
            group.write_to(out)?;
            Ok(())
        }
        PolicyChange::Assign { domain, set, class } => {
            put_u8(out, 6)?;
            put_class(out, domain, set, class)?;
            Ok(())
        }
        PolicyChange::Activate { domain, set } => {
            put_u8(out, 7)?;
            put_set(out, domain, set)?;
            Ok(())
        }
    }
}

/// Nothing is done; the caller learns that the change has a spelling.
#[tactic(auto, unfolding(crate::specs::ChangeForm::change, crate::specs::ChangeForm::change_body, crate::specs::PolicyTags::policy_body))]
pub fn policy_fits(policy: &PolicyChange)
    ensures { (change second_form).Fits (Policy policy.now) }
{
    match policy {
        PolicyChange::Domain {
            verb: _,
            domain,
            back_retention,
        } => {
            domain.fits();
            back_retention.fits();
        }
        PolicyChange::Set {
            verb: _,
            domain,
            set,
        } => {
            domain.fits();
            set.fits();
        }
        PolicyChange::Class {
            verb: _,
            domain,
            set,
            class,
        } => {
            domain.fits();
            set.fits();
            class.fits();
        }
        PolicyChange::Group {
            verb: _,
            domain,
            set,
            class,
            group,
        } => {
            domain.fits();
            set.fits();
            class.fits();
            group.fits();
        }
        PolicyChange::ArchiveGroup {
            verb: _,
            domain,
            set,
            class,
            group,
        } => {
            domain.fits();
            set.fits();
            class.fits();
            group.fits();
        }
        PolicyChange::Assign { domain, set, class } => {
            domain.fits();
            set.fits();
            class.fits();
        }
        PolicyChange::Activate { domain, set } => {
            domain.fits();
            set.fits();
        }
    }
}

fn read_domain(alloc: Global, reader: &mut Reader<'_>) -> Result<PolicyChange, Fault>
    ensures { Gives result reader.new.rest ((variant domain_with domain_of domain_fields).read reader.old.rest) }
{
    let verb = Verb::read_from(alloc, reader)?;
    let domain = Name::read_from(alloc, reader)?;
    let back_retention = Days::read_from(alloc, reader)?;
    Ok(PolicyChange::Domain {
        verb,
        domain,
        back_retention,
    })
}

fn read_set_path(alloc: Global, reader: &mut Reader<'_>) -> Result<(Name, Name), Fault>
    ensures { Gives result reader.new.rest (set_path.read reader.old.rest) }
{
    <(Name, Name)>::read_from(alloc, reader)
}

fn read_class_path(alloc: Global, reader: &mut Reader<'_>) -> Result<(Name, (Name, Name)), Fault>
    ensures { Gives result reader.new.rest (class_path.read reader.old.rest) }
{
    <(Name, (Name, Name))>::read_from(alloc, reader)
}

fn read_set(alloc: Global, reader: &mut Reader<'_>) -> Result<PolicyChange, Fault>
    ensures { Gives result reader.new.rest ((variant set_with set_of set_fields).read reader.old.rest) }
{
    let verb = DefineOrDelete::read_from(alloc, reader)?;
    let (domain, set) = read_set_path(alloc, reader)?;
    Ok(PolicyChange::Set { verb, domain, set })
}

fn read_class(alloc: Global, reader: &mut Reader<'_>) -> Result<PolicyChange, Fault>
    ensures { Gives result reader.new.rest ((variant class_with class_of class_fields).read reader.old.rest) }
{
    let verb = DefineOrDelete::read_from(alloc, reader)?;
    let (domain, (set, class)) = read_class_path(alloc, reader)?;
    Ok(PolicyChange::Class {
        verb,
        domain,
        set,
        class,
    })
}

fn read_group(alloc: Global, reader: &mut Reader<'_>) -> Result<PolicyChange, Fault>
    ensures { Gives result reader.new.rest ((variant group_with group_of group_fields).read reader.old.rest) }
{
    let verb = Verb::read_from(alloc, reader)?;
    let (domain, (set, class)) = read_class_path(alloc, reader)?;
    let group = CopyGroup::read_from(alloc, reader)?;
    Ok(PolicyChange::Group {
        verb,
        domain,
        set,
        class,
        group,
    })
}

fn read_archive(alloc: Global, reader: &mut Reader<'_>) -> Result<PolicyChange, Fault>
    ensures { Gives result reader.new.rest ((variant archive_with archive_of archive_fields).read reader.old.rest) }
{
    let verb = Verb::read_from(alloc, reader)?;
    let (domain, (set, class)) = read_class_path(alloc, reader)?;
    let group = ArchiveGroup::read_from(alloc, reader)?;
    Ok(PolicyChange::ArchiveGroup {
        verb,
        domain,
        set,
        class,
        group,
    })
}

fn read_assign(alloc: Global, reader: &mut Reader<'_>) -> Result<PolicyChange, Fault>
    ensures { Gives result reader.new.rest ((variant assign_with assign_of class_path).read reader.old.rest) }
{
    let (domain, (set, class)) = read_class_path(alloc, reader)?;
    Ok(PolicyChange::Assign { domain, set, class })
}

fn read_activate(alloc: Global, reader: &mut Reader<'_>) -> Result<PolicyChange, Fault>
    ensures { Gives result reader.new.rest ((variant activate_with activate_of set_path).read reader.old.rest) }
{
    let (domain, set) = read_set_path(alloc, reader)?;
    Ok(PolicyChange::Activate { domain, set })
}

/// Takes what follows the tag of a change of policy domains: 2 to 7, and in the second form 26. After an `Err` the reader stands
/// anywhere.
#[tactic(auto, unfolding(crate::specs::PolicyTags::policy_body))]
pub fn read_policy<E: InEdition>(
    alloc: Global,
    tag: u8,
    reader: &mut Reader<'_>,
) -> Result<PolicyChange, Fault>
    ensures { Gives result reader.new.rest ((policy_body E.edition tag).read reader.old.rest) }
{
    match tag {
        2 => read_domain(alloc, reader),
        3 => read_set(alloc, reader),
        4 => read_class(alloc, reader),
        5 => read_group(alloc, reader),
        6 => read_assign(alloc, reader),
        7 => read_activate(alloc, reader),
        26 => {
            if E::is_second() {
                read_archive(alloc, reader)
            } else {
                Err(Fault::Malformed)
            }
        }
        _ => Err(Fault::Malformed),
    }
}
