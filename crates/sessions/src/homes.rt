// Where a client's file goes.
ghost use Rattle.std.specs.Prelude.{◌≡◌};
ghost use Rattle.std.specs.Option.{option_copied};
ghost use Rattle.kinds.specs.Answers.{Answers};
ghost use Rattle.client_plan.specs.Classes.{is_left_out};
ghost use Rattle.sessions.specs.Homes.{home_at, home_in, home_of, home_under};

use choosers::{Binder, Bound};
use client_plan::ActiveClasses;
use inventory_work::Rules;
use kinds::{Name, Path, Refusal};

/// Where a file goes: its node, the management class that its path is bound to, and the storage pool that takes the class's files.
#[derive(Drop)]
pub struct Home {
    /// The node's number.
    pub node: u32,
    pub class: Name,
    /// The pool's number.
    pub pool: u32,
}

fn home_at(node: u32, class: &Name, pool: Option<u32>) -> Result<Home, Refusal>
    ensures { Answers result (home_at node class.now pool) }
{
    match pool {
        Some(pool) => Ok(Home {
            node,
            class: class.clone()?,
            pool,
        }),
        None => Err(Refusal::NoBackupGroup),
    }
}

fn home_under(node: u32, classes: &ActiveClasses, class: Option<&Name>) -> Result<Home, Refusal>
    ensures { Answers result (home_under node classes.now (option_copied class.entry)) }
{
    match class {
        Some(class) => home_at(node, class, classes.destination(class)),
        None => Err(Refusal::NoBackupGroup),
    }
}

fn is_left_out(binder: &Binder, path: &Path) -> bool
    ensures { result ≡ is_left_out binder.now path.now }
{
    match binder.bind(path.as_bytes()) {
        Bound::ByRule(_) => false,
        Bound::Default => false,
        Bound::Excluded => true,
    }
}

/// Where a file of the path goes among classes with this default class.
fn home_in(
    node: u32,
    classes: &ActiveClasses,
    default_class: &Option<Name>,
    binder: &Binder,
    path: &Path,
) -> Result<Home, Refusal>
    ensures { Answers result (home_in node classes.now default_class.now binder.now path.now) }
{
    match default_class {
        Some(default_class) => home_under(
            node,
            classes,
            binder.class_of(path.as_bytes(), classes, default_class),
        ),
        None => Err(Refusal::NoBackupGroup),
    }
}

/// Where a file of the path goes under these rules of its node's classes.
pub(crate) fn home_of(
    node: u32,
    rules: Rules,
    binder: &Binder,
    path: &Path,
) -> Result<Home, Refusal>
    ensures { Answers result (home_of node rules binder.now path.now) }
{
    if is_left_out(binder, path) {
        drop(rules);
        return Err(Refusal::BadValue(0));
    }
    let Rules {
        default_class,
        classes,
    } = rules;
    // Which classes there are, with the default class apart.
    let classes = ActiveClasses::new(Rules {
        default_class: None,
        classes,
    });
    let home = home_in(node, &classes, &default_class, binder, path);
    drop(classes);
    drop(default_class);
    home
}
