//! The changes that an administrator makes.

ghost use Rattle.std.specs.Prelude.{◌≡◌, IsTrue, None, Ok, false};
ghost use Rattle.std.specs.Result.{result_err};
ghost use Rattle.pool_tables.specs.kinds.Answers.{Becomes};
ghost use Rattle.pool_tables.specs.Rows.{row_at};
ghost use Rattle.pool_tables.specs.Scratch.{is_scratch_name};
ghost use Rattle.pool_rows.specs.ClassChanges.{define_class, delete_class, change_class};
ghost use Rattle.pool_rows.specs.Changes.{define_pool, update_pool, delete_pool, change_pool, define_volume, update_volume, delete_volume, change_volume};
ghost use Rattle.pool_rows.specs.Changed.{changed, is_pool_free, is_volume_free, is_free};

use crate::pools::Pools;
use pool_tables::kinds::{
    Access, Capacity, DefineOrDelete, Name, PoolChange, PoolKind, PoolSettings, Refusal, Verb,
};
use pool_tables::volume_rows::{Holdings, Volume};
use pool_tables::{Pool, is_scratch_name};

impl Pools {
    #[tactic(auto, using(crate::proofs::Made::class_comes))]
    fn define_class(&mut self, class: &Name, capacity: Capacity) -> Result<(), Refusal>
        requires { result_err (define_class class.now capacity self.old) ≡ None }
        ensures { Becomes result self.old self.new (define_class class.now capacity self.old) }
    {
        self.classes.insert(class.clone()?, Some(capacity))?;
        Ok(())
    }

    #[tactic(auto, using(crate::proofs::Made::class_goes))]
    fn delete_class(&mut self, class: &Name)
        requires { result_err (delete_class class.now self.old) ≡ None }
        ensures { delete_class class.now self.old ≡ Ok self.new }
    {
        self.classes.remove(class);
    }

    fn change_class(
        &mut self,
        verb: DefineOrDelete,
        class: &Name,
        capacity: Capacity,
    ) -> Result<(), Refusal>
        requires { result_err (change_class verb class.now capacity self.old) ≡ None }
        ensures { Becomes result self.old self.new (change_class verb class.now capacity self.old) }
    {
        match verb {
            DefineOrDelete::Define => self.define_class(class, capacity),
            DefineOrDelete::Delete => {
                self.delete_class(class);
                Ok(())
            }
        }
    }

    #[tactic(auto, using(crate::proofs::Made::pool_is_new, crate::proofs::Made::pool_comes))]
    fn define_pool(
        &mut self,
        number: u32,
        name: &Name,
        class: &Name,
        kind: PoolKind,
        settings: PoolSettings,
    ) -> Result<(), Refusal>
        requires number { row_at number self.old.pools ≡ None }
        requires fine { result_err (define_pool number name.now class.now kind settings self.old) ≡ None }
        ensures { Becomes result self.old self.new (define_pool number name.now class.now kind settings self.old) }
    {
        let pool = Pool {
            name: name.clone()?,
            class: class.clone()?,
            kind,
            settings,
        };
        self.pools.insert(number, pool)
    }

    #[tactic(auto, using(crate::proofs::Made::pool_changes))]
    fn update_pool(&mut self, name: &Name, settings: PoolSettings)
        requires { result_err (update_pool name.now settings self.old) ≡ None }
        ensures { update_pool name.now settings self.old ≡ Ok self.new }
    {
        match self.pool_named(name) {
            Some(number) => self.pools.set_settings(number, settings),
            None => (),
        }
    }

    #[tactic(auto, using(crate::proofs::Made::pool_goes))]
    fn delete_pool(&mut self, name: &Name)
        requires { result_err (delete_pool name.now self.old) ≡ None }
        ensures { delete_pool name.now self.old ≡ Ok self.new }
    {
        match self.pool_named(name) {
            Some(number) => self.pools.remove(number),
            None => (),
        }
    }

    fn change_pool(
        &mut self,
        verb: Verb,
        number: u32,
        name: &Name,
        class: &Name,
        kind: PoolKind,
        settings: PoolSettings,
    ) -> Result<(), Refusal>
        requires free { IsTrue (is_pool_free verb number self.old) }
        requires fine { result_err (change_pool verb number name.now class.now kind settings self.old) ≡ None }
        ensures { Becomes result self.old self.new (change_pool verb number name.now class.now kind settings self.old) }
    {
        match verb {
            Verb::Define => self.define_pool(number, name, class, kind, settings),
            Verb::Update => {
                self.update_pool(name, settings);
                Ok(())
            }
            Verb::Delete => {
                self.delete_pool(name);
                Ok(())
            }
        }
    }

    #[tactic(auto, using(crate::proofs::Made::volume_is_new, crate::proofs::Made::volume_comes))]
    fn define_volume(
        &mut self,
        name: &Name,
        pool: u32,
        file: u32,
        capacity: Capacity,
        access: Access,
    ) -> Result<(), Refusal>
        requires number { row_at file self.old.volumes ≡ None }
        requires kind { is_scratch_name name.now ≡ false }
        requires fine { result_err (define_volume name.now pool file capacity access self.old) ≡ None }
        ensures { Becomes result self.old self.new (define_volume name.now pool file capacity access self.old) }
    {
        let volume = Volume {
            name: name.clone()?,
            pool,
            scratch: false,
            capacity,
            access,
            end: 0,
            emptied: None,
            segments: Holdings::new(self.alloc),
        };
        self.volumes.insert(file, volume)
    }

    fn update_volume(&mut self, name: &Name, access: Access)
        requires { result_err (update_volume name.now access self.old) ≡ None }
        ensures { update_volume name.now access self.old ≡ Ok self.new }
    {
        match self.volume_named(name) {
            Some(file) => self.volumes.set_access(file, access),
            None => (),
        }
    }

    #[tactic(auto, using(crate::proofs::Made::volume_goes))]
    fn delete_volume(&mut self, name: &Name)
        requires { result_err (delete_volume name.now self.old) ≡ None }
        ensures { delete_volume name.now self.old ≡ Ok self.new }
    {
        match self.volume_named(name) {
            Some(file) => self.volumes.remove(file),
            None => (),
        }
    }

    fn change_volume(
        &mut self,
        verb: Verb,
        name: &Name,
        pool: u32,
        file: u32,
        capacity: Capacity,
        access: Access,
    ) -> Result<(), Refusal>
        requires free { IsTrue (is_volume_free verb name.now file self.old) }
        requires fine { result_err (change_volume verb name.now pool file capacity access self.old) ≡ None }
        ensures { Becomes result self.old self.new (change_volume verb name.now pool file capacity access self.old) }
    {
        match verb {
            Verb::Define => self.define_volume(name, pool, file, capacity, access),
            Verb::Update => {
                self.update_volume(name, access);
                Ok(())
            }
            Verb::Delete => {
                self.delete_volume(name);
                Ok(())
            }
        }
    }

    /// Whether what the change defines may have its number and its name: no pool has `number`, no volume the file number, and
    /// the volume's name is no scratch volume's. A change that defines nothing may be made.
    pub fn is_free(&self, change: &PoolChange, number: u32) -> bool
        ensures { result ≡ is_free change.now number self.now }
    {
        match change {
            PoolChange::DevClass { .. } => true,
            PoolChange::Pool { verb, .. } => self.is_pool_free(*verb, number),
            PoolChange::Volume {
                verb,
                volume,
                file,
                ..
            } => self.is_volume_free(*verb, volume, *file),
        }
    }

    fn is_pool_free(&self, verb: Verb, number: u32) -> bool
        ensures { result ≡ is_pool_free verb number self.now }
    {
        match verb {
            Verb::Define => self.pools.get(number).is_none(),
            Verb::Update => true,
            Verb::Delete => true,
        }
    }

    fn is_volume_free(&self, verb: Verb, name: &Name, file: u32) -> bool
        ensures { result ≡ is_volume_free verb name.now file self.now }
    {
        match verb {
            Verb::Define => self.volumes.get(file).is_none() && !is_scratch_name(name),
            Verb::Update => true,
            Verb::Delete => true,
        }
    }

    /// Makes a change that is not refused.
    fn make(&mut self, change: &PoolChange, number: u32) -> Result<(), Refusal>
        requires free { IsTrue (is_free change.now number self.old) }
        requires fine { result_err (changed change.now number self.old) ≡ None }
        ensures { Becomes result self.old self.new (changed change.now number self.old) }
    {
        match change {
            PoolChange::DevClass {
                verb,
                class,
                capacity,
            } => self.change_class(*verb, class, *capacity),
            PoolChange::Pool {
                verb,
                pool,
                class,
                kind,
                settings,
            } => self.change_pool(*verb, number, pool, class, *kind, *settings),
            PoolChange::Volume {
                verb,
                volume,
                pool,
                file,
                capacity,
                access,
            } => self.change_volume(*verb, volume, *pool, *file, *capacity, *access),
        }
    }

    /// Makes a change of the device classes, storage pools and volumes. A pool that is defined gets `number`, which no pool has,
    /// and a volume its file number, which no volume has, and a name that is no scratch volume's; else neither is looked at.
    ///
    /// `NotFound` where what is named is not there, or DISK is to be deleted; `Exists` where the name of what is defined is
    /// taken; `InUse` where a device class has pools, a pool has volumes or is another's next pool, or a volume has copies on
    /// it, each with the least of these; `BadHierarchy` where the pools would not form hierarchies.
    #[tactic(auto, using(crate::proofs::Made::refused))]
    pub fn change(&mut self, change: &PoolChange, number: u32) -> Result<(), Refusal>
        requires { IsTrue (is_free change.now number self.old) }
        ensures { Becomes result self.old self.new (changed change.now number self.old) }
    {
        match self.refusal(change, number) {
            Some(refusal) => Err(refusal),
            None => self.make(change, number),
        }
    }
}
