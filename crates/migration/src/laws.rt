// What the pools' answer says of a pool's marks, as laws. Each stands on a function that does nothing.
ghost use Rattle.std.specs.Prelude.{◌≡◌, ◌<◌, ℕ};
ghost use Rattle.inventory_answers.specs.Stores.{pool_line};
ghost use Rattle.inventory_rows.specs.pool_tables.declared.pool.Pool.{Pool};
ghost use Rattle.inventory_rows.specs.pool_rows.PoolRows.{PoolRows};
ghost use Rattle.inventory_rows.specs.pool_rows.Shares.{percent_at_least, percent_at_most};
ghost use Rattle.migration.specs.Marks.{has_reached, is_within};

/// By a pool's line at most a percentage is used of it exactly where it is so of the database, and at least one exactly where that is so: nothing is rounded.
pub fn marks_are_exact()
    ensures within { (low : ℕ) (p : ℕ × Pool) (s : PoolRows) → low < 255 → is_within low (pool_line s p) ≡ percent_at_most p.0 low s }
    ensures reached { (high : ℕ) (p : ℕ × Pool) (s : PoolRows) → high < 255 → has_reached high (pool_line s p) ≡ percent_at_least p.0 high s }
{}
