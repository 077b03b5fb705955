//! What is wanted, and what came of it.
ghost use Rattle.std.specs.Prelude.{◌≡◌, ◌+◌, ◌^◌, ◌<◌};
ghost use Rattle.copy_runs.specs.Runs.{counted};

use copy_attempts::Came;
use kinds::ObjectSize;
use space::Aim;

/// A copy of an object that is to be made.
#[derive(Clone, Copy)]
pub struct Wanted {
    /// The object's number.
    pub object: u64,
    /// Where the copy goes, and whether it is a further one or takes the place of one that is there.
    pub aim: Aim,
    /// How many bytes the object has.
    pub size: ObjectSize,
}

/// What came of the objects of a run.
#[derive(Clone, Copy, Debug, PartialEq, Eq)]
pub struct Moved {
    /// How many copies were made.
    pub moved: u64,
    /// For how many objects none could be made now: no pool has room, no copy can be read, a volume can't be written, or the transaction is too long.
    pub failed: u64,
}

/// The counts with one object more.
pub(crate) fn counted(so_far: Moved, came: Came) -> Moved
    requires moved { so_far.moved + 1 < 2 ^ 64 }
    requires failed { so_far.failed + 1 < 2 ^ 64 }
    ensures { result ≡ counted so_far came }
{
    let Moved { moved, failed } = so_far;
    match came {
        Came::Copied(_) => Moved {
            moved: moved + 1,
            failed,
        },
        Came::Failed => Moved {
            moved,
            failed: failed + 1,
        },
        Came::Passed => so_far,
    }
}
