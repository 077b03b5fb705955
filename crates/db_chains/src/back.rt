// The files of a chain are gone through, back to the one that holds a whole database.
ghost use Rattle.std.specs.Prelude.{◌≡◌, ◌++◌, ◌∷◌, [], IfOk, IfErr, IfSome, IfNone, OnOk};
ghost use Rattle.store_api.specs.Told.{Told};
ghost use Rattle.log_file.specs.Windows.{Onward};
ghost use Rattle.db_chains.specs.Reads.{MayRefuseChain};
ghost use Rattle.db_chains.specs.Walks.{strayed, IsFurther, StepsBack, WentBack, TakenAs};

use crate::backup::{Found, Kind, look};
use crate::refused::ChainRefused;
use entries::Database;
use std::alloc::Global;
use store_api::Store;

/// A backup that follows another: its file, and its payload.
#[derive(Drop)]
pub(crate) struct Link {
    pub(crate) file: u32,
    pub(crate) payload: Vec<u8>,
}

/// What was found in a file.
#[derive(Drop)]
pub(crate) enum Step<D> {
    /// The whole database.
    Base(D),
    /// A link more, whose backup follows the one in the file `after`, of this number.
    Back { after: u32, number: u64 },
}

/// The file whose backup asks for another number than this one, where there is one.
fn strayed(asked: Option<(u32, u64)>, number: u64) -> Option<u32>
    ensures { result ≡ strayed asked number }
{
    match asked {
        Some((follower, wanted)) => {
            if number == wanted {
                None
            } else {
                Some(follower)
            }
        }
        None => None,
    }
}

/// What is found in a file, as a step. An increment becomes a link.
fn take<D: Database>(
    at: u32,
    found: Found<D>,
    links: &mut Vec<Link>,
) -> Result<Step<D>, ChainRefused>
    ensures { TakenAs at found.kind found.payload links.old.items links.new.items result }
{
    let Found {
        number: _,
        kind,
        payload,
    } = found;
    match kind {
        Kind::Whole(database) => Ok(Step::Base(database)),
        Kind::Since { after, number } => {
            if at <= after {
                return Err(ChainRefused::NotABackup(at));
            }
            match links.push(Link { file: at, payload }) {
                Ok(()) => {}
                Err(_) => return Err(ChainRefused::Memory),
            }
            Ok(Step::Back { after, number })
        }
    }
}

/// Looks at one file of a chain. A backup that follows it asks for its number.
fn step_back<D: Database, S: Store>(
    alloc: Global,
    store: &mut S,
    at: u32,
    asked: Option<(u32, u64)>,
    links: &mut Vec<Link>,
) -> Result<Step<D>, ChainRefused>
    ensures told { Told (S.told store.old) (S.told store.new) (StepsBack D.meaning at asked links.old.items links.new.items result) }
    ensures further { IfOk result (IsFurther at) }
    ensures refused { IfErr result (MayRefuseChain (S.faults_of store.old) (S.faults_of store.new) (S.moment_of store.new)) }
    ensures onward { Onward (S.moment_of store.old) (S.moment_of store.new) (S.faults_of store.old) (S.faults_of store.new) }
{
    let found = match look::<D, S>(alloc, store, at) {
        Ok(Some(found)) => found,
        Ok(None) => return Err(ChainRefused::NotABackup(at)),
        Err(refused) => return Err(refused),
    };
    match strayed(asked, found.number) {
        Some(follower) => Err(ChainRefused::NotABackup(follower)),
        None => take(at, found, links),
    }
}

/// Goes back from a file to the one that holds a whole database, and puts the links behind one another, the newest first.
pub(crate) fn go_back<D: Database, S: Store>(
    alloc: Global,
    store: &mut S,
    file: u32,
    links: &mut Vec<Link>,
) -> Result<D, ChainRefused>
    requires { links.old.items ≡ [] }
    ensures told { Told (S.told store.old) (S.told store.new) (WentBack D.meaning file links.new.items result) }
    ensures refused { IfErr result (MayRefuseChain (S.faults_of store.old) (S.faults_of store.new) (S.moment_of store.new)) }
    ensures onward { Onward (S.moment_of store.old) (S.moment_of store.new) (S.faults_of store.old) (S.faults_of store.new) }
{
    let mut at = file;
    let mut asked = None;
    'files: loop {
        match step_back::<D, S>(alloc, store, at, asked, links) {
            Ok(Step::Base(database)) => return Ok(database),
            Ok(Step::Back { after, number }) => {
                asked = Some((at, number));
                at = after;
            }
            Err(refused) => return Err(refused),
        }
    }
}
