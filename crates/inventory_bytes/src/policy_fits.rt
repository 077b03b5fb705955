//! Policy domains, their sets and their classes.
ghost use Rattle.std.specs.Prelude.{◌<◌, ◌^◌, ⊤, length};
ghost use Rattle.std.specs.Option.{option_copied};
ghost use Rattle.fields.specs.Editions.{second_form};
ghost use Rattle.fields.specs.Forms.{option};
ghost use Rattle.kinds.specs.ValueForms.{name};
ghost use Rattle.inventory_rows.specs.Items.{items_of_domain};
ghost use Rattle.inventory_bytes.specs.PolicyForms.{class_row, set_row, domain_row};

use crate::policy_codecs::{ClassBytes, DomainRow, SetRow};
use crate::row_fits::{FittingRow, table_fits};
use fields::Second;
use inventory_rows::policy_domains::{ManagementClass, PolicyDomain, PolicySet};
use kinds::{Fitting, Name};

fn named_fits(named: Option<&Name>)
    ensures { (option (name 30)).Fits (option_copied named.entry) }
{
    if let Some(name) = named {
        name.fits();
    }
}

#[tactic(auto, unfolding(crate::specs::PolicyForms::class_row))]
impl FittingRow<ManagementClass> for ClassBytes<Second> {
    ghost within = { λ _. ⊤ };

    ghost spelled = { (class_row second_form).Fits };

    fn fits(value: &ManagementClass) {
        value.backup.fits();
        value.archive.fits();
    }
}

#[tactic(auto, unfolding(crate::specs::PolicyForms::set_row))]
impl FittingRow<PolicySet> for SetRow<Second> {
    ghost within = { λ set. length set.classes < 2 ^ 32 };

    ghost spelled = { (set_row second_form).Fits };

    fn fits(value: &PolicySet) {
        named_fits(value.default_class());
        table_fits::<Name, ManagementClass, ClassBytes<Second>>(value.classes());
    }
}

#[tactic(auto, unfolding(crate::specs::PolicyForms::domain_row))]
impl FittingRow<PolicyDomain> for DomainRow<Second> {
    ghost within = { λ domain. items_of_domain domain < 2 ^ 32 };

    ghost spelled = { (domain_row second_form).Fits };

    fn fits(value: &PolicyDomain) {
        value.back_retention().fits();
        table_fits::<Name, PolicySet, SetRow<Second>>(value.sets());
    }
}
