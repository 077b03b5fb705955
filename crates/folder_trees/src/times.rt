// The times of files in nanoseconds.
ghost use Rattle.std.specs.Prelude.{◌≡◌, ◌+◌, ◌*◌, ◌^◌, ◌-◌, min};

use std::fs::Metadata;
use std::os::unix::fs::MetadataExt;
use std::time::{Duration, SystemTime};

const NANOS: u64 = 1_000_000_000;

// So many seconds and nanoseconds behind 1970, in nanoseconds: 0 for a time before, and the last value for one behind the year 2554.
fn nanos_of(seconds: i64, nanos: i64) -> u64 {
    match (u64::try_from(seconds), u64::try_from(nanos)) {
        (Ok(seconds), Ok(nanos)) => seconds.saturating_mul(NANOS).saturating_add(nanos),
        _ => 0,
    }
}

/// When a file was changed last, in nanoseconds since 1970.
pub(crate) fn mtime_of(file: &Metadata) -> u64 {
    nanos_of(file.mtime(), file.mtime_nsec())
}

/// The time that lies so many nanoseconds behind 1970; none where the system has no such time.
pub(crate) fn time_of(mtime: u64) -> Option<SystemTime> {
    SystemTime::UNIX_EPOCH.checked_add(Duration::from_nanos(mtime))
}
