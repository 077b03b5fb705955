//! A tag in front of a value.
ghost use Rattle.std.specs.Prelude.{◌≡◌, ◌++◌, ◌∷◌, OnOk};

use fields::{Formed, Memory, put_u8};

/// Puts the tag and the value's spelling at the end. After an `Err` a part of them may stand there.
pub fn put_tagged<T: Formed>(out: &mut Vec<u8>, tag: u8, value: &T) -> Result<(), Memory>
    requires { T.form.Fits value.now }
    ensures { OnOk result (out.new.items ≡ out.old.items ++ tag ∷ T.form.spell value.now) }
{
    put_u8(out, tag)?;
    value.write_to(out)?;
    Ok(())
}
