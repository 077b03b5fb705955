// How long the bytes of a database are at most, as a law. It stands on a function that does nothing.
ghost use Rattle.std.specs.Prelude.{◌≡◌, ◌^◌, ◌<◌, true, length, nat_le};
ghost use Rattle.fields.specs.Editions.{second_form};
ghost use Rattle.inventory_bytes.specs.Payload.{payload, unheld};
ghost use Rattle.inventory_rows.specs.Items.{count_items, most_items};
ghost use Rattle.inventory_rows.specs.State.{Inv};

/// A database whose values all have a spelling, and which holds no more items than are allowed, takes fewer than 2^36 bytes.
pub fn payload_is_short()
    ensures short { (v : Inv) → (payload second_form).Fits (unheld v) → nat_le (count_items v) most_items ≡ true → length ((payload second_form).spell v) < 2 ^ 36 }
{}
