//! Paths that are bound to other classes.

ghost use Rattle.std.specs.Prelude.{◌≡◌, Ok, map};
ghost use Rattle.kinds.specs.Answers.{AnswersBy, Becomes};
ghost use Rattle.inventory_rows.specs.State.{inv_of};
ghost use Rattle.inventory_rules.specs.Common.{each};
ghost use Rattle.inventory_rules.specs.Versions.{change_group, rebind, class_of};
ghost use Rattle.inventory_rows.specs.version_groups.declared.group.GroupChange.TheVariants.{Rebind};

use entries::change_items::Rebinding;
use inventory_rows::Tables;
use kinds::{Name, Path, Refusal};
use std::alloc::Global;
use std::collections::VecDeque;

/// The classes that some paths are bound to.
fn classes(alloc: Global, items: &[Rebinding]) -> Result<VecDeque<Name>, Refusal>
    ensures { AnswersBy (λ names. names.items) result (map class_of items.now) }
{
    let mut names = VecDeque::new(alloc);
    'items: for item in items {
        let name = item.class.clone()?;
        names.push_back(name)?;
    }
    Ok(names)
}

/// A path is bound to this class, where it has a group.
fn bind(tables: &mut Tables, filespace: u32, path: &Path, class: Name)
    ensures { inv_of tables.new ≡ change_group filespace path.now (Rebind class) (inv_of tables.old) }
{
    match tables.objects.rebind(filespace, path, class) {
        Ok(()) => {}
        Err(_) => {}
    }
}

/// Some paths are bound to these classes.
fn bind_each(tables: &mut Tables, filespace: u32, items: &[Rebinding], mut names: VecDeque<Name>)
    requires { names.items ≡ map class_of items.now }
    ensures { inv_of tables.new ≡ each (rebind filespace) items.now (inv_of tables.old) }
{
    'items: for item in items {
        match names.pop_front() {
            Some(name) => bind(tables, filespace, &item.path, name),
            None => unreachable!(),
        }
    }
}

/// Some paths are bound to other classes, one after the other. Its one refusal is want of memory; then all is as it was.
pub fn rebind_all(
    alloc: Global,
    tables: &mut Tables,
    filespace: u32,
    items: &[Rebinding],
) -> Result<(), Refusal>
    ensures { Becomes result (inv_of tables.old) (inv_of tables.new) (Ok (each (rebind filespace) items.now (inv_of tables.old))) }
{
    let names = classes(alloc, items)?;
    bind_each(tables, filespace, items, names);
    Ok(())
}
