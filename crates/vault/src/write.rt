// How the next image and its empty log are written.
ghost use Rattle.std.specs.Prelude.{◌≡◌, ◌+◌, ◌<◌, ◌≤◌, ◌^◌, length, IfOk, OnOk, IfErr, OnErr, None};
ghost use Rattle.store_api.specs.Cause.{Rose, NoneFell};
ghost use Rattle.store_api.specs.Told.{Told};
ghost use Rattle.db_image.specs.declared.phase.Phase.TheVariants.{Begun, Durable};
ghost use Rattle.db_image.specs.Steps.{at_phase};
ghost use Rattle.vault.specs.Files.{log_file, IsOf};
ghost use Rattle.vault.specs.Images.{Wrote, Went, Replaced, IsPaced};

use crate::files::{image_file, log_file};
use db_image::{Image, Mark, Phase};
use log_file::Log;
use store_api::{Failed, Store};

/// Writes on what is left of an image, up to its gate.
fn write_rest<S: Store>(image: &mut Image, store: &mut S) -> Result<(), Failed>
    requires paced { IsPaced image.old.phase (length image.old.payload) (S.moment_of store.old) (S.moment_of store.old) }
    requires short { length image.old.payload < 2 ^ 36 }
    requires time { S.moment_of store.old + (2 ^ 23 + 32) ≤ 2 ^ 62 }
    ensures told { Told (S.told store.old) (S.told store.new) (Went image.old image.new result) }
    ensures ok { OnOk result (image.new ≡ at_phase Durable image.old) }
    ensures time { S.moment_of store.new ≤ S.moment_of store.old + (2 ^ 23 + 16) }
    ensures later { S.moment_of store.old ≤ S.moment_of store.new }
    ensures counts { NoneFell (S.faults_of store.old) (S.faults_of store.new) }
    ensures cause { OnErr result (Rose (S.faults_of store.old image.old.file) (S.faults_of store.new image.old.file)) }
{
    'pieces: loop {
        if let Phase::Durable = image.phase() {
            return Ok(());
        }
        match image.next(store) {
            Ok(_) => {}
            Err(failed) => return Err(failed),
        }
    }
}

/// Writes an image but for its gate, which it shuts first.
fn write_image<S: Store>(image: &mut Image, store: &mut S) -> Result<(), Failed>
    requires begun { image.old.phase ≡ Begun }
    requires short { length image.old.payload < 2 ^ 36 }
    requires time { S.moment_of store.old + (2 ^ 23 + 64) ≤ 2 ^ 62 }
    ensures told { Told (S.told store.old) (S.told store.new) (Wrote image.old result) }
    ensures ok { OnOk result (image.new ≡ at_phase Durable image.old) }
    ensures time { S.moment_of store.new ≤ S.moment_of store.old + (2 ^ 23 + 32) }
    ensures later { S.moment_of store.old ≤ S.moment_of store.new }
    ensures counts { NoneFell (S.faults_of store.old) (S.faults_of store.new) }
    ensures cause { OnErr result (Rose (S.faults_of store.old image.old.file) (S.faults_of store.new image.old.file)) }
{
    match image.next(store) {
        Ok(_) => write_rest(image, store),
        Err(failed) => Err(failed),
    }
}

/// Puts an image of this generation in its file and an empty log in its own: the image's gate is shut, all behind it is
/// written and made durable, the log's first gate is closed, and then the image's gate is opened. On an error it answers
/// the file on which a call failed.
pub(crate) fn put_generation<S: Store>(
    store: &mut S,
    generation: u64,
    payload: Vec<u8>,
) -> Result<Log, u32>
    requires number { generation < 2 ^ 62 }
    requires short { length payload.items < 2 ^ 36 }
    requires time { S.moment_of store.old + (2 ^ 23 + 96) ≤ 2 ^ 62 }
    ensures told { Told (S.told store.old) (S.told store.new) (Replaced generation payload.items result) }
    ensures log { IfOk result (λ log. log ≡ record { file = log_file generation; sure = 0; end = 0; doubt = None }) }
    ensures cause { IfErr result (λ file. IsOf generation file × Rose (S.faults_of store.old file) (S.faults_of store.new file)) }
    ensures time { S.moment_of store.new ≤ S.moment_of store.old + (2 ^ 23 + 64) }
    ensures later { S.moment_of store.old ≤ S.moment_of store.new }
    ensures counts { NoneFell (S.faults_of store.old) (S.faults_of store.new) }
{
    let file = image_file(generation);
    let mut image = Image::begin(payload, Mark::Server, generation, file);
    match write_image(&mut image, store) {
        Ok(()) => {}
        Err(_) => return Err(file),
    }
    let log = match Log::create(store, log_file(generation)) {
        Ok(log) => log,
        Err(_) => return Err(log_file(generation)),
    };
    match image.next(store) {
        Ok(_) => Ok(log),
        Err(_) => Err(file),
    }
}
