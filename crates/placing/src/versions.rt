// The active versions of paths.
ghost use Rattle.std.specs.Prelude.{◌≡◌};
ghost use Rattle.std.specs.Option.{option_copied};
ghost use Rattle.inventory_rows.specs.State.{inv_of};
ghost use Rattle.placing.specs.Placing.{active_of, active_version};

use inventory_rows::Tables;
use inventory_rows::version_groups::Version;
use kinds::Path;

fn active_of(versions: &[Version]) -> Option<&Version>
    ensures { option_copied result ≡ active_of versions.now }
{
    match versions {
        [] => None,
        [newest, ..] => {
            if newest.since.is_none() {
                Some(newest)
            } else {
                None
            }
        }
    }
}

/// The active version of a path of a filespace; none where the path has no version, or its newest is inactive. It takes no memory.
pub fn active_version<'a>(tables: &'a Tables, filespace: u32, path: &Path) -> Option<&'a Version>
    ensures { option_copied result ≡ active_version filespace path.now (inv_of tables.now) }
{
    match tables.objects.group(filespace, path) {
        Some(group) => active_of(group.versions.as_slice()),
        None => None,
    }
}
