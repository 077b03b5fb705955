//! The storage pools by number.

ghost use Rattle.std.specs.Prelude.{◌≡◌, true, [], Some, None, Ok, if◌then◌else◌};
ghost use Rattle.std.specs.Option.{option_copied};
ghost use Rattle.volume_rows.specs.kinds.Answers.{AnswersBy, Becomes};
ghost use Rattle.pool_tables.specs.Rows.{row_at, with_row, without_row, edit_row};
ghost use Rattle.pool_tables.specs.Names.{pool_name, row_named, are_apart};
ghost use Rattle.pool_tables.specs.RowChanges.{with_settings};

use crate::on_rows;
use crate::pool::Pool;
use std::alloc::{AllocError, Global};
use std::collections::BTreeMap;
use std::marker::Model;
use volume_rows::kinds::{Name, PoolSettings, Refusal};

/// Storage pools by number. Contracts see the list of their rows in ascending order of the numbers.
#[derive(Drop)]
pub struct PoolTable {
    rows: BTreeMap<u32, Pool>,
    names: BTreeMap<Name, u32>,
}

impl Model for PoolTable {
    ghost use Rattle.std.specs.Prelude.{List, ℕ};
    ghost use Rattle.pool_tables.specs.declared.pool.Pool.{Pool};

    ghost Value = { List (ℕ × Pool) };

    ghost view = { λ t. t.rows.entries };

    ghost use Rattle.pool_tables.specs.Names.{pool_name, IsIndex};

    ghost invariant = { λ t. IsIndex pool_name t.names.entries t.rows.entries };
}

impl PoolTable {
    /// No pools.
    pub fn new(alloc: Global) -> Self
        ensures { result ≡ [] }
    {
        PoolTable {
            rows: BTreeMap::new(alloc),
            names: BTreeMap::new(alloc),
        }
    }

    /// The pools with these rows; none where two of them have one name. Its one refusal is want of memory.
    pub fn from_rows(alloc: Global, rows: BTreeMap<u32, Pool>) -> Result<Option<Self>, Refusal>
        ensures { AnswersBy (λ table. table) result (if are_apart pool_name rows.entries then Some rows.entries else None) }
    {
        let mut table = PoolTable::new(alloc);
        let _len = rows.len();
        'rows: for (number, pool) in rows {
            if table.named(&pool.name).is_some() {
                return Ok(None);
            }
            table.insert(number, pool)?;
        }
        Ok(Some(table))
    }

    /// The pools in ascending order of their numbers.
    pub fn as_map(&self) -> &BTreeMap<u32, Pool>
        ensures value { result.now.entries ≡ self.now }
        ensures apart { are_apart pool_name self.now ≡ true }
    {
        &self.rows
    }

    /// The pool with this number.
    pub fn get(&self, number: u32) -> Option<&Pool>
        ensures { option_copied result ≡ row_at number self.now }
    {
        self.rows.get(&number)
    }

    /// The number of the pool with this name.
    pub fn named(&self, name: &Name) -> Option<u32>
        ensures { result ≡ row_named pool_name name.now self.now }
    {
        self.names.get(name).copied()
    }

    /// A pool comes, with a number and a name that no pool has.
    pub fn insert(&mut self, number: u32, pool: Pool) -> Result<(), Refusal>
        requires number { row_at number self.old ≡ None }
        requires name { row_named pool_name pool.name self.old ≡ None }
        ensures { Becomes result self.old self.new (Ok (with_row number pool self.old)) }
    {
        self.names.insert(pool.name.clone()?, number)?;
        match self.rows.insert(number, pool) {
            Ok(_) => Ok(()),
            Err(failed) => {
                let (_, pool) = failed.value;
                self.names.remove(&pool.name);
                Err(Refusal::Memory)
            }
        }
    }

    /// The pool with this number goes.
    pub fn remove(&mut self, number: u32)
        ensures { self.new ≡ without_row number self.old }
    {
        if let Some(pool) = self.rows.remove(&number) {
            self.names.remove(&pool.name);
        }
    }

    /// Sets the settings of the pool with this number.
    pub fn set_settings(&mut self, number: u32, settings: PoolSettings)
        ensures { self.new ≡ edit_row number (with_settings settings) self.old }
    {
        on_rows::set_settings(&mut self.rows, number, settings);
    }
}

impl Clone for PoolTable {
    ghost is_clone = { λ table copy. copy ≡ table };

    fn clone(&self) -> Result<Self, AllocError> {
        Ok(PoolTable {
            rows: self.rows.clone()?,
            names: self.names.clone()?,
        })
    }
}
