//! How the changes that an administrator makes are refused.

ghost use Rattle.std.specs.Prelude.{◌≡◌, ◌&&◌, ℕ, is_some};
ghost use Rattle.std.specs.Result.{result_err};
ghost use Rattle.pool_tables.specs.kinds.declared.pool.Access.{Access};
ghost use Rattle.pool_tables.specs.Rows.{named, row_at};
ghost use Rattle.pool_rows.specs.ClassChanges.{pool_of_class, define_class, delete_class, change_class};
ghost use Rattle.pool_rows.specs.Hierarchy.{comes_to, is_bad_copy_pool, is_bad_next, is_bad_hierarchy};
ghost use Rattle.pool_rows.specs.Changes.{is_next_there, define_pool, update_pool, delete_pool, change_pool, is_bad_row, define_volume, update_volume, delete_volume, change_volume, object_on, volume_of_pool, pool_before};
ghost use Rattle.pool_rows.specs.Changed.{changed};

use crate::hierarchy::{is_copy, is_copy_pool};
use crate::pools::Pools;
use crate::{find, hierarchy};
use pool_tables::kinds::{
    By, DefineOrDelete, Name, PoolChange, PoolKind, PoolSettings, Refusal, Verb,
};

/// Whether a copy pool would be of random access or have a next pool.
fn is_bad_copy_pool(sequential: bool, kind: PoolKind, next: Option<u32>) -> bool
    ensures { result ≡ is_bad_copy_pool sequential kind next }
{
    is_copy(kind) && (!sequential || next.is_some())
}

impl Pools {
    fn has_class(&self, class: &Name) -> bool
        ensures { result ≡ is_some (named class.now self.now.classes) }
    {
        self.classes.contains_key(class)
    }

    fn is_next_there(&self, next: Option<u32>) -> bool
        ensures { result ≡ is_next_there next self.now }
    {
        match next {
            Some(next) => self.pools.get(next).is_some(),
            None => true,
        }
    }

    fn is_bad_next(&self, sequential: bool, next: Option<u32>) -> bool
        ensures { result ≡ is_bad_next sequential next self.now }
    {
        match next {
            Some(next) => {
                is_copy_pool(self.pools.as_map(), next) || (sequential && !self.is_sequential(next))
            }
            None => false,
        }
    }

    /// Whether the chain of next pools that begins with `next` comes to the pool with this number. It takes at most as many steps as there are
    /// pools, and no memory.
    pub fn comes_to(&self, number: u32, next: Option<u32>) -> bool
        ensures { result ≡ comes_to number next self.now.pools }
    {
        hierarchy::comes_to(self.pools.as_map(), number, next)
    }

    /// Whether the pool with this number, of this class and kind, may not have this next pool.
    fn is_bad_hierarchy(&self, number: u32, class: &Name, kind: PoolKind, next: Option<u32>) -> bool
        ensures { result ≡ is_bad_hierarchy number class.now kind next self.now }
    {
        let sequential = self.class_capacity(class).is_some();
        is_bad_copy_pool(sequential, kind, next)
            || self.is_bad_next(sequential, next)
            || self.comes_to(number, next)
    }

    fn pool_of_class(&self, class: &Name) -> Option<u32>
        ensures { result ≡ pool_of_class class.now self.now }
    {
        find::pool_of_class(self.pools.as_map(), class)
    }

    fn volume_of_pool(&self, pool: u32) -> Option<u32>
        ensures { result ≡ volume_of_pool pool self.now }
    {
        find::volume_of_pool(self.volumes.as_map(), pool)
    }

    fn pool_before(&self, pool: u32) -> Option<u32>
        ensures { result ≡ pool_before pool self.now }
    {
        find::pool_before(self.pools.as_map(), pool)
    }

    /// How the definition of this device class would be refused.
    fn class_define(&self, class: &Name) -> Option<Refusal>
        ensures { (capacity : ℕ) → result ≡ result_err (define_class class.now capacity self.now) }
    {
        if self.has_class(class) {
            Some(Refusal::Exists)
        } else {
            None
        }
    }

    /// How the deletion of this device class would be refused.
    fn class_delete(&self, class: &Name) -> Option<Refusal>
        ensures { result ≡ result_err (delete_class class.now self.now) }
    {
        if self.class_capacity(class).is_none() {
            return Some(Refusal::NotFound);
        }
        match self.pool_of_class(class) {
            Some(pool) => Some(Refusal::InUse(By::Pool(pool))),
            None => None,
        }
    }

    /// How a change of this device class would be refused.
    fn of_class(&self, verb: DefineOrDelete, class: &Name) -> Option<Refusal>
        ensures { (capacity : ℕ) → result ≡ result_err (change_class verb class.now capacity self.now) }
    {
        match verb {
            DefineOrDelete::Define => self.class_define(class),
            DefineOrDelete::Delete => self.class_delete(class),
        }
    }

    /// Whether the device class and the next pool of a new pool are there.
    fn is_supplied(&self, class: &Name, next: Option<u32>) -> bool
        ensures { result ≡ (is_some (named class.now self.now.classes) && is_next_there next self.now) }
    {
        self.has_class(class) && self.is_next_there(next)
    }

    /// How the definition of this pool would be refused.
    fn pool_define(
        &self,
        number: u32,
        name: &Name,
        class: &Name,
        kind: PoolKind,
        settings: PoolSettings,
    ) -> Option<Refusal>
        ensures { result ≡ result_err (define_pool number name.now class.now kind settings self.now) }
    {
        let next = settings.rule().next;
        if !self.is_supplied(class, next) {
            return Some(Refusal::NotFound);
        }
        if self.pool_named(name).is_some() {
            return Some(Refusal::Exists);
        }
        if self.is_bad_hierarchy(number, class, kind, next) {
            return Some(Refusal::BadHierarchy);
        }
        None
    }

    fn is_bad_row(&self, number: u32, next: Option<u32>) -> bool
        ensures { result ≡ is_bad_row number next self.now (row_at number self.now.pools) }
    {
        match self.pools.get(number) {
            Some(pool) => self.is_bad_hierarchy(number, &pool.class, pool.kind, next),
            None => false,
        }
    }

    /// How an update of this pool would be refused.
    fn pool_update(&self, name: &Name, settings: PoolSettings) -> Option<Refusal>
        ensures { result ≡ result_err (update_pool name.now settings self.now) }
    {
        let next = settings.rule().next;
        if !self.is_next_there(next) {
            return Some(Refusal::NotFound);
        }
        let Some(number) = self.pool_named(name) else {
            return Some(Refusal::NotFound);
        };
        if self.is_bad_row(number, next) {
            return Some(Refusal::BadHierarchy);
        }
        None
    }

    /// How the deletion of this pool would be refused.
    fn pool_delete(&self, name: &Name) -> Option<Refusal>
        ensures { result ≡ result_err (delete_pool name.now self.now) }
    {
        let Some(number) = self.pool_named(name) else {
            return Some(Refusal::NotFound);
        };
        if let Some(file) = self.volume_of_pool(number) {
            return Some(Refusal::InUse(By::Volume(file)));
        }
        if let Some(pool) = self.pool_before(number) {
            return Some(Refusal::InUse(By::Pool(pool)));
        }
        None
    }

    /// How a change of this pool would be refused.
    fn of_pool(
        &self,
        verb: Verb,
        number: u32,
        name: &Name,
        class: &Name,
        kind: PoolKind,
        settings: PoolSettings,
    ) -> Option<Refusal>
        ensures { result ≡ result_err (change_pool verb number name.now class.now kind settings self.now) }
    {
        match verb {
            Verb::Define => self.pool_define(number, name, class, kind, settings),
            Verb::Update => self.pool_update(name, settings),
            Verb::Delete => self.pool_delete(name),
        }
    }

    /// How the definition of this volume would be refused.
    fn volume_define(&self, name: &Name, pool: u32) -> Option<Refusal>
        ensures { (file capacity : ℕ) (access : Access) → result ≡ result_err (define_volume name.now pool file capacity access self.now) }
    {
        if self.pools.get(pool).is_none() {
            return Some(Refusal::NotFound);
        }
        if self.volume_named(name).is_some() {
            return Some(Refusal::Exists);
        }
        None
    }

    /// How an update of this volume would be refused.
    fn volume_update(&self, name: &Name) -> Option<Refusal>
        ensures { (access : Access) → result ≡ result_err (update_volume name.now access self.now) }
    {
        if self.volume_named(name).is_none() {
            return Some(Refusal::NotFound);
        }
        None
    }

    /// The least object with a segment on the volume with this file number.
    fn object_on(&self, file: u32) -> Option<u64>
        ensures { result ≡ object_on (row_at file self.now.volumes) }
    {
        match self.volumes.get(file) {
            Some(volume) => volume.segments.least_object(),
            None => None,
        }
    }

    /// How the deletion of this volume would be refused.
    fn volume_delete(&self, name: &Name) -> Option<Refusal>
        ensures { result ≡ result_err (delete_volume name.now self.now) }
    {
        let Some(file) = self.volume_named(name) else {
            return Some(Refusal::NotFound);
        };
        match self.object_on(file) {
            Some(object) => Some(Refusal::InUse(By::Object(object))),
            None => None,
        }
    }

    /// How a change of this volume would be refused.
    fn of_volume(&self, verb: Verb, name: &Name, pool: u32) -> Option<Refusal>
        ensures { (file capacity : ℕ) (access : Access) → result ≡ result_err (change_volume verb name.now pool file capacity access self.now) }
    {
        match verb {
            Verb::Define => self.volume_define(name, pool),
            Verb::Update => self.volume_update(name),
            Verb::Delete => self.volume_delete(name),
        }
    }

    /// How `change` would refuse this change, where it would; a pool that is defined would get `number`. It takes no memory.
    pub fn refusal(&self, change: &PoolChange, number: u32) -> Option<Refusal>
        ensures { result ≡ result_err (changed change.now number self.now) }
    {
        match change {
            PoolChange::DevClass { verb, class, .. } => self.of_class(*verb, class),
            PoolChange::Pool {
                verb,
                pool,
                class,
                kind,
                settings,
            } => self.of_pool(*verb, number, pool, class, *kind, *settings),
            PoolChange::Volume {
                verb,
                volume,
                pool,
                ..
            } => self.of_volume(*verb, volume, *pool),
        }
    }
}
