//! Rows whose values have a spelling, as far as they are within a bound.
ghost use Rattle.std.specs.Prelude.{◌<◌, ◌^◌, ⊤, length};
ghost use Rattle.std.specs.List.{AllByRecursion};
ghost use Rattle.inventory_bytes.specs.Tables.{FitAll, FitTable};

use fields::Own;
use kinds::Fitting;
use std::collections::BTreeMap;

/// A kind of row each of whose values within a bound has a spelling.
pub(crate) trait FittingRow<V> {
    /// Which values are within the bound.
    ghost within: { V → Type 0 };

    /// Which values have a spelling.
    ghost spelled: { V → Type 0 };

    /// Nothing is done; the caller learns that the value has a spelling.
    fn fits(value: &V)
        requires { within value.now }
        ensures { spelled value.now };
}

impl<T: Fitting> FittingRow<T> for Own {
    ghost within = { λ _. ⊤ };

    ghost spelled = { T.form.Fits };

    fn fits(value: &T) {
        value.fits();
    }
}

/// Nothing is done; the caller learns that each of the values has a spelling.
pub(crate) fn each_fits<V, R: FittingRow<V>>(values: &[V])
    requires few { length values.now < 2 ^ 32 }
    requires within { AllByRecursion R.within values.now }
    ensures { FitAll R.spelled values.now }
{
    'values: for value in values {
        R::fits(value);
    }
}

fn entry_fits<K: Fitting, V, R: FittingRow<V>>(key: &K, value: &V)
    requires { R.within value.now }
    ensures key { K.form.Fits key.now }
    ensures value { R.spelled value.now }
{
    key.fits();
    R::fits(value);
}

fn entries_fit<K: Ord + Fitting, V, R: FittingRow<V>>(map: &BTreeMap<K, V>)
    requires { AllByRecursion (λ e. R.within e.1) map.now.entries }
    ensures { AllByRecursion (λ e. K.form.Fits e.0 × R.spelled e.1) map.now.entries }
{
    'entries: for (key, value) in map.iter() {
        entry_fits::<K, V, R>(key, value);
    }
}

/// Nothing is done; the caller learns that the map has a spelling.
pub(crate) fn table_fits<K: Ord + Fitting, V, R: FittingRow<V>>(map: &BTreeMap<K, V>)
    requires few { length map.now.entries < 2 ^ 32 }
    requires within { AllByRecursion (λ e. R.within e.1) map.now.entries }
    ensures { FitTable K.cmp K.form.Fits R.spelled map.now.entries }
{
    let _len = map.len();
    entries_fit::<K, V, R>(map);
}
