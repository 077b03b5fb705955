// What the definitions mean, as laws. Each stands on a function that does nothing.
ghost use Rattle.std.specs.Prelude.{◌≡◌, ◌==◌, ◌&&◌, ◌+◌, ◌<◌, ◌≤◌, ◌^◌, ℕ, true, not, filter, is_some, [], map};
ghost use Rattle.std.specs.List.{list_any};
ghost use Rattle.std.specs.Map.{lookup};
ghost use Rattle.inventory_rows.specs.object_rows.Filespaces.{at_number};
ghost use Rattle.inventory_rows.specs.Search.{copies, versions};
ghost use Rattle.inventory_rows.specs.State.{Inv};
ghost use Rattle.inventory_rules.specs.Held.{IsTied};
ghost use Rattle.inventory_rules.specs.Valid.{is_valid};
ghost use Rattle.db_losses.specs.Losses.{Losses, has_copies, is_lost, restored, version_left, versions_left};
ghost use Rattle.db_losses.specs.Lost.{all_put, lost_rows};

/// What is kept in the restored database are the objects that have a copy left, each with the copies that it has left, in the order in which they stood; and its copies are those that aren't lost.
pub fn what_is_left()
    ensures versions { (losses : Losses) (file day : ℕ) (v : Inv) → versions (restored losses file day v) ≡ versions_left losses (versions v) }
    ensures copies { (losses : Losses) (file day : ℕ) (v : Inv) → copies (restored losses file day v) ≡ filter (λ e. not (is_lost losses e.0 e.1.pool)) (copies v) }
{}

/// Where the database was valid, and the day is no earlier than its own, what is restored of it is valid, and its volumes hold the segments of the copies that are left.
pub fn restored_is_valid()
    ensures valid { (losses : Losses) (file day : ℕ) (v : Inv) → is_valid v ≡ true → IsTied v → v.today ≤ day → day < 2 ^ 31 → file + 2 < 2 ^ 32 → is_valid (restored losses file day v) ≡ true }
    ensures tied { (losses : Losses) (file day : ℕ) (v : Inv) → is_valid v ≡ true → IsTied v → v.today ≤ day → day < 2 ^ 31 → file + 2 < 2 ^ 32 → IsTied (restored losses file day v) }
{}

/// Of a valid database those objects are listed as lost that are kept in it and of which no copy is left, and no others.
pub fn what_is_lost()
    ensures { (losses : Losses) (v : Inv) (object : ℕ) → is_valid v ≡ true →
        is_some (lookup (at_number object) (all_put (lost_rows losses v.clients) [])) ≡ list_any (λ w. object == w.object && not (has_copies (version_left losses w))) (versions v) }
{}
