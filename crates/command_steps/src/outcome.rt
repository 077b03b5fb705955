//! What a command came to.

use incrementals::Sent;
use inventory_answers::Answer;
use reports::Shown;
use restores::Restored;
use sessions::FileRead;
use volume_audits::Audit;

/// What a command came to, which is printed.
#[derive(Drop)]
pub enum Outcome {
    /// It is said in one line.
    Said(Shown),
    /// This file was read.
    Read(FileRead),
    /// These rows answer it.
    Rows(Answer),
    /// A tree was backed up so; the paths for which nothing was committed ascend.
    Sent(Sent),
    /// These objects were to be restored, and this came of them.
    Restored(Restored),
    /// The copies on a volume were audited so; the damaged ones stand by the numbers of their objects.
    Audited(Audit),
}
