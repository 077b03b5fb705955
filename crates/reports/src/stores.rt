// The rows of device classes, storage pools, volumes, what lies on volumes, and database backups.
ghost use Rattle.std.specs.Prelude.{◌≡◌, ◌++◌, codes, decimal};
ghost use Rattle.inventory_work.specs.Lists.{Writes};
ghost use Rattle.reports.specs.StoreRows.{device_text, kind_text, size_limit_text, status_text, access_text, row_of_device, row_of_pool, row_of_volume, row_of_content, row_of_backup};

use crate::pieces::{put_number, put_number_or_dash, put_or_dash, put_word, yes_or_no};
use crate::rows::Row;
use inventory_answers::{BackupLine, ContentLine, DeviceLine, PoolLine, VolumeLine};
use inventory_rows::volume_rows::Status;
use kinds::{Access, Capacity, ObjectSize, PoolKind, PoolRule, Refusal, SizeLimit};

fn device_text(capacity: Option<Capacity>) -> &'static [u8]
    ensures { result.now ≡ device_text capacity }
{
    match capacity {
        None => b"DISK",
        Some(_) => b"FILE",
    }
}

fn capacity_bytes(capacity: Option<Capacity>) -> Option<u64>
    ensures { result ≡ capacity }
{
    match capacity {
        None => None,
        Some(capacity) => Some(capacity.bytes()),
    }
}

fn size_bytes(size: Option<ObjectSize>) -> Option<u64>
    ensures { result ≡ size }
{
    match size {
        None => None,
        Some(size) => Some(size.bytes()),
    }
}

fn kind_text(kind: PoolKind) -> &'static [u8]
    ensures { result.now ≡ kind_text kind }
{
    match kind {
        PoolKind::Primary => b"PRIMARY",
        PoolKind::Copy => b"COPY",
    }
}

fn put_size_limit(text: &mut Vec<u8>, words: &[u8], limit: SizeLimit) -> Result<(), Refusal>
    ensures { Writes result text.old.items text.new.items (words.now ++ size_limit_text limit) }
{
    match limit {
        SizeLimit::At(n) => put_number(text, words, n),
        SizeLimit::NoLimit => put_word(text, words, b"NOLIMIT"),
    }
}

fn status_text(status: Status) -> &'static [u8]
    ensures { result.now ≡ status_text status }
{
    match status {
        Status::Online => b"ONLINE",
        Status::Empty => b"EMPTY",
        Status::Filling => b"FILLING",
        Status::Full => b"FULL",
        Status::Pending => b"PENDING",
    }
}

fn access_text(access: Access) -> &'static [u8]
    ensures { result.now ≡ access_text access }
{
    match access {
        Access::ReadWrite => b"READWRITE",
        Access::ReadOnly => b"READONLY",
        Access::Unavailable => b"UNAVAILABLE",
        Access::Offsite => b"OFFSITE",
        Access::Destroyed => b"DESTROYED",
    }
}

// The numbers of a pool's settings.
fn put_settings(text: &mut Vec<u8>, settings: &PoolRule) -> Result<(), Refusal>
    ensures { Writes result text.old.items text.new.items (codes " high=" ++ decimal settings.now.high ++ codes " low=" ++ decimal settings.now.low ++ codes " reclaim=" ++ decimal settings.now.reclaim ++ codes " reusedelay=" ++ decimal settings.now.reuse_delay ++ codes " maxscratch=" ++ decimal settings.now.max_scratch) }
{
    put_number(text, b" high=", u64::from(settings.high))?;
    put_number(text, b" low=", u64::from(settings.low))?;
    put_number(text, b" reclaim=", u64::from(settings.reclaim))?;
    put_number(
        text,
        b" reusedelay=",
        u64::from(settings.reuse_delay.count()),
    )?;
    put_number(text, b" maxscratch=", u64::from(settings.max_scratch))?;
    Ok(())
}

impl Row for DeviceLine {
    ghost printed = { row_of_device };

    fn write(&self, text: &mut Vec<u8>) -> Result<(), Refusal> {
        put_word(text, b"DEVCLASS ", self.name.as_bytes())?;
        put_word(text, b" type=", device_text(self.capacity))?;
        put_number_or_dash(text, b" capacity=", capacity_bytes(self.capacity))?;
        Ok(())
    }
}

impl Row for PoolLine {
    ghost printed = { row_of_pool };

    fn write(&self, text: &mut Vec<u8>) -> Result<(), Refusal> {
        put_number(text, b"POOL ", u64::from(self.number))?;
        put_word(text, b" ", self.name.as_bytes())?;
        put_word(text, b" type=", kind_text(self.kind))?;
        put_word(text, b" device=", self.class.as_bytes())?;
        put_or_dash(text, b" next=", &self.next)?;
        put_number(text, b" percent=", self.percent)?;
        put_settings(text, &self.settings)?;
        put_size_limit(text, b" maxsize=", self.settings.max_size)?;
        Ok(())
    }
}

impl Row for VolumeLine {
    ghost printed = { row_of_volume };

    fn write(&self, text: &mut Vec<u8>) -> Result<(), Refusal> {
        put_word(text, b"VOLUME ", self.name.as_bytes())?;
        put_number(text, b" file=", u64::from(self.file))?;
        put_or_dash(text, b" pool=", &self.pool)?;
        put_word(text, b" status=", status_text(self.status))?;
        put_word(text, b" access=", access_text(self.access))?;
        put_number(text, b" used=", self.used)?;
        put_number(text, b" capacity=", self.capacity.bytes())?;
        Ok(())
    }
}

impl Row for ContentLine {
    ghost printed = { row_of_content };

    fn write(&self, text: &mut Vec<u8>) -> Result<(), Refusal> {
        put_word(text, b"CONTENT ", self.volume.as_bytes())?;
        put_number(text, b" object=", self.object)?;
        put_number_or_dash(text, b" size=", size_bytes(self.size))?;
        put_number(text, b" segments=", self.segments)?;
        Ok(())
    }
}

impl Row for BackupLine {
    ghost printed = { row_of_backup };

    fn write(&self, text: &mut Vec<u8>) -> Result<(), Refusal> {
        put_number(text, b"DBBACKUP ", u64::from(self.file))?;
        put_number(text, b" day=", u64::from(self.taken.number()))?;
        put_number(text, b" seq=", self.number)?;
        put_word(text, b" done=", yes_or_no(self.done))?;
        Ok(())
    }
}
