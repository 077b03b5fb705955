// Records that stand one after the other.
ghost use Rattle.std.specs.Prelude.{◌≡◌, ◌-◌, ◌∷◌, [], length, IfSome, IfNone};
ghost use Rattle.fields.specs.Forms.{times_at};
ghost use Rattle.backup_payloads.specs.Increments.{Takes, record_bytes};

use fields::Reader;
use std::marker::Model;

/// Records that stand one after the other in some bytes. A contract sees the list of their bytes.
#[derive(Drop)]
pub struct Records<'a> {
    count: u32,
    bytes: &'a [u8],
}

impl<'a> Model for Records<'a> {
    ghost use Rattle.std.specs.Prelude.{List, ℕ, ◌≡◌, Some, IsTrue, is_some};
    ghost use Rattle.fields.specs.Forms.{times_at};
    ghost use Rattle.backup_payloads.specs.Increments.{record_bytes, records_at};

    ghost Value = { List (List ℕ) };

    ghost view = { λ r. records_at r.count r.bytes.now };

    ghost invariant = { λ r. IsTrue (is_some (times_at record_bytes.read r.count r.bytes.now)) };
}

/// Takes the next record.
fn take_record<'a>(reader: &mut Reader<'a>) -> Option<&'a [u8]>
    ensures { Takes (λ r. r.now) result reader.new.rest (record_bytes.read reader.old.rest) }
{
    let len = reader.u32().ok()?;
    reader.bytes(len as usize).ok()
}

/// Takes so many records.
pub(crate) fn take_records<'a>(reader: &mut Reader<'a>, count: u32) -> Option<Records<'a>>
    ensures takes { Takes (λ r. r) result reader.new.rest (times_at record_bytes.read count reader.old.rest) }
    ensures count { IfSome result (λ r. length r ≡ count) }
{
    let bytes = reader.rest();
    'records: for _ in 0..count {
        match take_record(reader) {
            Some(_) => {}
            None => return None,
        }
    }
    Some(Records { count, bytes })
}

impl<'a> Records<'a> {
    /// How many there are.
    pub fn len(&self) -> u32
        ensures { result ≡ length self.now }
    {
        self.count
    }

    /// Takes the first; none where there is none.
    pub fn next(&mut self) -> Option<&'a [u8]>
        ensures some { IfSome result (λ r. self.old ≡ r.now ∷ self.new) }
        ensures none { IfNone result ((self.old ≡ []) × (self.new ≡ [])) }
    {
        if self.count == 0 {
            return None;
        }
        let mut reader = Reader::new(self.bytes);
        match take_record(&mut reader) {
            Some(record) => {
                self.count -= 1;
                self.bytes = reader.rest();
                Some(record)
            }
            None => None,
        }
    }
}
