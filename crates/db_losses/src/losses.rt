// Which copies are lost.
ghost use Rattle.std.specs.Prelude.{◌≡◌, ◌∷◌, ◌++◌, [], ◌==◌, ◌&&◌, ◌||◌, ℕ, OnOk, IfOk, IfErr};
ghost use Rattle.std.specs.List.{list_any};
ghost use Rattle.kinds.specs.declared.refusal.Refusal.TheVariants.{Memory};
ghost use Rattle.db_losses.specs.Losses.{is_lost};

use kinds::Refusal;
use std::alloc::Global;
use std::collections::BTreeMap;
use std::marker::Model;

/// Some pools, by number.
#[derive(Drop)]
struct PoolNumbers {
    items: Vec<u32>,
}

impl Model for PoolNumbers {
    ghost use Rattle.std.specs.Prelude.{List, ℕ};

    ghost Value = { List ℕ };

    ghost view = { λ p. p.items.items };
}

impl PoolNumbers {
    /// One pool.
    fn one(alloc: Global, pool: u32) -> Result<Self, Refusal>
        ensures ok { IfOk result (λ pools. pools ≡ pool ∷ []) }
        ensures memory { IfErr result (λ e. e ≡ Memory) }
    {
        let mut items = Vec::new(alloc);
        items.push(pool)?;
        Ok(PoolNumbers { items })
    }

    /// One pool more.
    fn add(&mut self, pool: u32) -> Result<(), Refusal>
        ensures ok { OnOk result (self.new ≡ self.old ++ pool ∷ []) }
        ensures memory { IfErr result (λ e. e ≡ Memory) }
    {
        self.items.push(pool)?;
        Ok(())
    }

    /// Whether the pool is one of these.
    fn has(&self, pool: u32) -> bool
        ensures { result ≡ list_any (λ p. p == pool) self.now }
    {
        self.items.iter().any(|p| *p == pool)
    }
}

/// Which copies of objects are lost. A contract sees, for each of some objects, the pools of the copies that are.
#[derive(Drop)]
pub struct Losses {
    map: BTreeMap<u64, PoolNumbers>,
}

impl Model for Losses {
    ghost use Rattle.db_losses.specs.Losses.{Losses};

    ghost Value = { Losses };

    ghost view = { λ l. l.map.entries };
}

impl Losses {
    /// No copy is lost. It takes no memory.
    pub fn new(alloc: Global) -> Self
        ensures { result ≡ [] }
    {
        Losses {
            map: BTreeMap::new(alloc),
        }
    }

    /// Whether the copy of the object in the pool is lost. It takes no memory.
    pub fn has(&self, object: u64, pool: u32) -> bool
        ensures { result ≡ is_lost self.now object pool }
    {
        match self.map.get(&object) {
            Some(pools) => pools.has(pool),
            None => false,
        }
    }

    /// The copy of the object in the pool is lost too. Refused only for want of memory.
    pub fn add(&mut self, alloc: Global, object: u64, pool: u32) -> Result<(), Refusal>
        ensures lost { OnOk result ((other of : ℕ) → is_lost self.new other of ≡ is_lost self.old other of || (other == object && of == pool)) }
        ensures memory { IfErr result (λ e. e ≡ Memory) }
    {
        match self.map.get_mut(&object) {
            Some(pools) => pools.add(pool),
            None => {
                let pools = PoolNumbers::one(alloc, pool)?;
                self.map.insert(object, pools)?;
                Ok(())
            }
        }
    }
}
