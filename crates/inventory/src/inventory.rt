//! The inventory.
ghost use Rattle.std.specs.Prelude.{◌≡◌, true, false, IfOk, IfErr, IfSome, IfNone};
ghost use Rattle.kinds.specs.Answers.{Answers, AnswersBy};
ghost use Rattle.kinds.specs.declared.refusal.Refusal.TheVariants.{Memory};
ghost use Rattle.inventory_answers.specs.Answered.{answered};
ghost use Rattle.inventory_rows.specs.Fresh.{fresh};
ghost use Rattle.fields.specs.Editions.{Edition};
ghost use Rattle.entries.specs.Meaning.{Spells};
ghost use Rattle.inventory_rows.specs.State.{Inv, inv_of};
ghost use Rattle.inventory_rules.specs.Held.{IsTied};
ghost use Rattle.inventory_rules.specs.Transactions.{refused};
ghost use Rattle.inventory_rules.specs.Valid.{is_valid};
ghost use Rattle.inventory.specs.Meant.{meaning};
ghost use Rattle.inventory.specs.Meaningful.{is_meaning};

use crate::bounds::count_items;
use crate::made::make;
use entries::{Change, Database, Entry};
use fields::{First, InEdition, Second};
use inventory_answers::{Answer, Query};
use inventory_bytes::tables_fit;
use inventory_check::is_valid;
use inventory_rows::Tables;
use item_refusals::{NoPast, Past};
use kinds::Refusal;
use std::alloc::Global;
use std::marker::Model;

/// The server's whole database. Every value is valid.
#[derive(Drop)]
pub struct Inventory {
    tables: Tables,
    // an upper bound of how many items the tables have
    most_items: u128,
}

impl Model for Inventory {
    ghost use Rattle.std.specs.Prelude.{◌≡◌, ◌≤◌, true};
    ghost use Rattle.inventory_rows.specs.Items.{count_items};
    ghost use Rattle.inventory_rows.specs.State.{Inv, inv_of};
    ghost use Rattle.inventory_rules.specs.Held.{IsTied};
    ghost use Rattle.inventory_rules.specs.Valid.{is_valid};

    ghost Value = { Inv };

    ghost view = { λ i. inv_of i.tables };

    ghost invariant = { λ i. (is_valid (inv_of i.tables) ≡ true) × IsTied (inv_of i.tables) × (count_items (inv_of i.tables) ≤ i.most_items) };
}

/// The inventory of these tables, where they are those of one.
fn checked(alloc: Global, tables: Tables) -> Result<Option<Inventory>, Refusal>
    requires tied { IsTied (inv_of tables) }
    ensures found { IfOk result (λ o. IfSome o (λ i. (i ≡ inv_of tables) × (is_valid (inv_of tables) ≡ true))) }
    ensures none { IfOk result (λ o. IfNone o (is_valid (inv_of tables) ≡ false)) }
    ensures memory { IfErr result (λ e. e ≡ Memory) }
{
    match is_valid(alloc, &tables) {
        Ok(true) => {
            let most_items = count_items(&tables);
            Ok(Some(Inventory { tables, most_items }))
        }
        Ok(false) => Ok(None),
        Err(_) => Err(Refusal::Memory),
    }
}

/// The inventory whose bytes these are in one of the two forms; none exactly where they are no inventory's in it.
fn read<E: InEdition>(alloc: Global, bytes: &[u8]) -> Result<Option<Inventory>, Refusal>
    ensures found { IfOk result (λ o. IfSome o (λ d. Spells meaning E.edition bytes.now d)) }
    ensures none { IfOk result (λ o. IfNone o ((d : Inv) → Spells meaning E.edition bytes.now d → ⊥)) }
    ensures memory { IfErr result (λ e. e ≡ Memory) }
{
    match inventory_bytes::decode::<E>(alloc, bytes) {
        Ok(Some(tables)) => checked(alloc, tables),
        Ok(None) => Ok(None),
        Err(_) => Err(Refusal::Memory),
    }
}

impl Inventory {
    /// What a server has that was just formatted.
    pub fn fresh(alloc: Global) -> Result<Inventory, Refusal>
        ensures { AnswersBy (λ i. i) result fresh }
    {
        let tables = Tables::fresh(alloc)?;
        let most_items = count_items(&tables);
        Ok(Inventory { tables, most_items })
    }

    /// The rows of the database, which are those of a valid one.
    pub fn tables(&self) -> &Tables
        ensures value { inv_of result.now ≡ self.now }
        ensures valid { is_valid self.now ≡ true }
        ensures tied { IsTied self.now }
    {
        &self.tables
    }

    /// Why a transaction with this change is refused, where it is: as the rules say, which look at the database that it would leave. None is made to answer
    /// it. What a run's journal tells of versions and copies that are not as they
    /// were named is asked of `past`. It takes no memory.
    pub fn refused<J: Past>(&self, past: &J, change: &Change) -> Option<Refusal>
        ensures { result ≡ refused (J.journal past.now) change.now self.now }
    {
        crate::legal::refused(past, &self.tables, change, self.most_items)
    }

    /// The inventory whose bytes these are in one of the two forms, which their first byte tells; none exactly where they are no inventory's in either.
    /// Refused only for want of memory.
    pub fn decode(alloc: Global, bytes: &[u8]) -> Result<Option<Inventory>, Refusal>
        ensures found { IfOk result (λ o. IfSome o (λ d. (form : Edition) × Spells meaning form bytes.now d)) }
        ensures none { IfOk result (λ o. IfNone o ((form : Edition) (d : Inv) → Spells meaning form bytes.now d → ⊥)) }
        ensures memory { IfErr result (λ e. e ≡ Memory) }
    {
        match read::<Second>(alloc, bytes) {
            Ok(Some(inventory)) => Ok(Some(inventory)),
            Ok(None) => read::<First>(alloc, bytes),
            Err(refusal) => Err(refusal),
        }
    }

    /// The answer to a query: `NotFound` exactly where what it names isn't there, or want of memory.
    pub fn answer(&self, alloc: Global, query: &Query) -> Result<Answer, Refusal>
        ensures { Answers result (answered query.now self.now) }
    {
        inventory_answers::answer(alloc, &self.tables, query)
    }
}

impl Database for Inventory {
    ghost meaning = { meaning };

    fn number(&self) -> u64 {
        self.tables.number
    }

    fn legal(&self, entry: &Entry) -> Result<(), Refusal> {
        match self.refused(&NoPast, &entry.change) {
            Some(refusal) => Err(refusal),
            None => Ok(()),
        }
    }

    fn apply(&mut self, alloc: Global, entry: &Entry) -> Result<(), Refusal> {
        make(alloc, &mut self.tables, &mut self.most_items, &entry.change)
    }

    fn encode(&self, alloc: Global) -> Result<Vec<u8>, Refusal> {
        tables_fit(&self.tables);
        let bytes = inventory_bytes::encode(alloc, &self.tables)?;
        Ok(bytes)
    }

    fn decode_two(alloc: Global, bytes: &[u8]) -> Result<Option<Self>, Refusal> {
        read::<Second>(alloc, bytes)
    }

    fn decode_one(alloc: Global, bytes: &[u8]) -> Result<Option<Self>, Refusal> {
        read::<First>(alloc, bytes)
    }

    fn copy(&self, _alloc: Global) -> Result<Self, Refusal> {
        let tables = self.tables.clone()?;
        Ok(Inventory {
            tables,
            most_items: self.most_items,
        })
    }

    ghost is_meaning = { is_meaning };
}
