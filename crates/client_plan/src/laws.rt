// What the definitions mean, as a law. It stands on a function that does nothing.
ghost use Rattle.std.specs.Prelude.{ℕ};
ghost use Rattle.inventory_rows.specs.Ascending.{AreAscending};
ghost use Rattle.inventory_rows.specs.State.{Inv};
ghost use Rattle.inventory_rules.specs.Facts.{Facts};
ghost use Rattle.inventory_answers.specs.Clients.{versions_at};
ghost use Rattle.client_plan.specs.Plans.{AreActive, actives};

/// In a valid database whose rows ascend, the active versions of each filespace ascend by path, one for each path.
#[tactic(auto, using(crate::proofs::Ascend::actives_ascend))]
pub fn active_versions_ascend()
    ensures { (filespace : ℕ) (v : Inv) → Facts v → AreAscending v → AreActive (actives (versions_at filespace v)) }
{}
