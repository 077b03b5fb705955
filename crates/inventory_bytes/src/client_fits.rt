//! Client nodes, filespaces and held objects.
ghost use Rattle.std.specs.Prelude.{◌≡◌, ◌<◌, ◌^◌, ⊤, true, None};
ghost use Rattle.std.specs.List.{list_all};
ghost use Rattle.fields.specs.Editions.{second_form};
ghost use Rattle.inventory_rows.specs.Items.{items_of_filespace, items_of_version};
ghost use Rattle.inventory_rules.specs.Valid.{is_orderly};
ghost use Rattle.inventory_bytes.specs.ClientForms.{node_row, filespace_row, held_row};
ghost use Rattle.inventory_bytes.specs.Payload.{with_number};

use crate::client_codecs::{FilespaceRow, HeldBytes, NodeRow};
use crate::row_fits::{FittingRow, table_fits};
use crate::version_codecs::GroupRow;
use crate::version_fits::copies_fit;
use fields::Second;
use inventory_rows::object_rows::{HeldRow, Node};
use inventory_rows::version_groups::{Filespace, Group};
use kinds::{Fitting, Path};

#[tactic(auto, unfolding(crate::specs::ClientForms::node_row))]
impl FittingRow<Node> for NodeRow {
    ghost within = { λ _. ⊤ };

    ghost spelled = { node_row.Fits };

    fn fits(value: &Node) {
        value.name.fits();
        value.domain.fits();
    }
}

#[tactic(auto, unfolding(crate::specs::ClientForms::filespace_row))]
impl FittingRow<Filespace> for FilespaceRow<Second> {
    ghost within = { λ f. (items_of_filespace f < 2 ^ 32) × (list_all (λ g. is_orderly g.1) f.groups ≡ true) };

    ghost spelled = { (filespace_row second_form).Fits };

    fn fits(value: &Filespace) {
        value.node.fits();
        value.name.fits();
        table_fits::<Path, Group, GroupRow<Second>>(value.groups.as_map());
    }
}

/// A held object has a spelling without its number.
#[tactic(auto, unfolding(crate::specs::ClientForms::held_row))]
impl FittingRow<HeldRow> for HeldBytes {
    ghost within = { λ row. (items_of_version row.held.version < 2 ^ 32) × (row.held.version.since ≡ None) };

    ghost spelled = { λ row. held_row.Fits (with_number 0 row) };

    fn fits(value: &HeldRow) {
        value.filespace.fits();
        value.held.path.fits();
        value.held.description.fits();
        value.held.version.size.fits();
        value.held.version.mtime.fits();
        value.held.version.digest.fits();
        value.held.version.stored.fits();
        value.held.until.fits();
        copies_fit(&value.held.version.copies);
    }
}
