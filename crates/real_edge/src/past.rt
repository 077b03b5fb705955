// What a store tells of its past. It takes no memory, and its functions do nothing at run time.
ghost use Rattle.std.specs.Prelude.{◌≡◌, Option};
ghost use Rattle.std.specs.Borrow.{ftrue};
ghost use Rattle.real_edge.specs.Past.{Told, past_code};

use files_api::Files;
use std::marker::Model;

// One call of a store, once it has ended.
#[derive(Clone, Copy)]
pub(crate) enum Step {
    // it only looked, or had no effect
    Look,
    // a write was begun, of which a part may have been done
    Write(u32, u64, u64),
    Cut(u32, u64),
    // a cut was begun, of which a part may have been done
    FailedCut(u32, u64),
    Sync(u32),
}

#[derive(Clone, Copy)]
pub(crate) enum Event {
    Called(Step),
    // a stop of the machine and a start
    Stopped,
}

#[derive(Drop)]
pub(crate) struct Past {
    pub ghost told: { Option Told } by { past_code },
}

impl Model for Past {
    ghost also_owns = { λ _. ftrue };
}

impl Past {
    ghost use Rattle.real_edge.specs.Past.{first_past, next_past};

    // The past of a store that begins at a moment over these files.
    pub fn begin<F: Files>(_files: &F, _moment: &u64) -> Past
        ensures { result.told ≡ first_past _moment.now (F.told _files.now) }
    {
        Past {}
    }

    // The past with one more event, after which the files are these.
    pub fn then<F: Files>(&self, _files: &F, _event: &Event) -> Past
        ensures { result.told ≡ next_past _event.now (F.told _files.now) self.now.told }
    {
        Past {}
    }
}
