//! Versions of files, their copies, and the groups of paths.
ghost use Rattle.std.specs.Prelude.{◌≡◌, ◌+◌, ◌<◌, ◌^◌, ⊤, true, is_some, length, Some};
ghost use Rattle.std.specs.List.{sum_by};
ghost use Rattle.fields.specs.Editions.{second_form};
ghost use Rattle.fields.specs.Forms.{items};
ghost use Rattle.inventory_rows.specs.Items.{items_of_version, items_of_group};
ghost use Rattle.inventory_rules.specs.Valid.{is_orderly};
ghost use Rattle.inventory_bytes.specs.VersionForms.{copy_row, copies, fields_since, dated_fields, dated, as_spelled, day_of, group_row};
ghost use Rattle.inventory_bytes.specs.Tables.{FitAll, are_older_inactive};

use crate::row_fits::{FittingRow, each_fits};
use crate::version_codecs::{CopyBytes, DatedVersion, GroupRow};
use fields::Second;
use inventory_rows::version_groups::{Copies, CopyRow, Group, Version};
use kinds::{Day, Fitting};

#[tactic(auto, unfolding(crate::specs::VersionForms::copy_row))]
impl FittingRow<CopyRow> for CopyBytes<Second> {
    ghost within = { λ _. ⊤ };

    ghost spelled = { (copy_row second_form).Fits };

    fn fits(value: &CopyRow) {
        value.pool.fits();
        value.placed.fits();
        value.segments.fits();
    }
}

#[tactic(auto, unfolding(crate::specs::VersionForms::copies))]
pub(crate) fn copies_fit(value: &Copies)
    requires { length value.now < 2 ^ 32 }
    ensures { (copies second_form).Fits value.now }
{
    each_fits::<CopyRow, CopyBytes<Second>>(value.as_slice());
}

#[tactic(auto, unfolding(crate::specs::VersionForms::dated_fields))]
fn dated_fits(value: &Version, since: Day)
    requires { items_of_version value.now < 2 ^ 32 }
    ensures { (dated_fields second_form).Fits (fields_since value.now since) }
{
    value.object.fits();
    value.size.fits();
    value.mtime.fits();
    value.digest.fits();
    value.stored.fits();
    since.fits();
    copies_fit(&value.copies);
}

#[tactic(auto, unfolding(crate::specs::VersionForms::dated))]
impl FittingRow<Version> for DatedVersion<Second> {
    ghost within = { λ version. (items_of_version version < 2 ^ 32) × (is_some version.since ≡ true) };

    ghost spelled = { (dated second_form).Fits };

    fn fits(value: &Version) {
        if let Some(since) = value.since {
            dated_fits(value, since);
        }
    }
}

/// The newest version has a spelling, with the first day where it is active.
#[tactic(auto, unfolding(crate::specs::VersionForms::dated))]
fn newest_fits(newest: &Version)
    requires { items_of_version newest.now < 2 ^ 32 }
    ensures { (dated second_form).Fits (record newest.now { since = Some (day_of newest.now.since) }) }
{
    match newest.since {
        Some(since) => dated_fits(newest, since),
        None => dated_fits(newest, Day::default()),
    }
}

fn versions_fit(versions: &[Version])
    requires few { length versions.now + sum_by items_of_version versions.now < 2 ^ 32 }
    requires inactive { are_older_inactive versions.now ≡ true }
    ensures { FitAll (dated second_form).Fits (as_spelled versions.now) }
{
    match versions {
        [] => {}
        [newest, older @ ..] => {
            newest_fits(newest);
            each_fits::<Version, DatedVersion<Second>>(older);
        }
    }
}

#[tactic(auto, unfolding(crate::specs::VersionForms::group_row))]
impl FittingRow<Group> for GroupRow<Second> {
    ghost within = { λ group. (items_of_group group < 2 ^ 32) × (is_orderly group ≡ true) };

    ghost spelled = { (group_row second_form).Fits };

    fn fits(value: &Group) {
        value.class.fits();
        versions_fit(value.versions.as_slice());
    }
}
