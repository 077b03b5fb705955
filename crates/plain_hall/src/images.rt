//! Images of the database, volumes that are written again, and queries: `image`, `reuse` and `ask`.
use crate::list_hall::{Hall, Picture};
use entries::{Change, Database, Entry};
use inventory_answers::{Answer, Query, Rows};
use kinds::{Holder, Refusal, sooner_of, unless};
use steps::{ImageKind, ImageReply};

/// A step writes so many bytes of an image at most.
const MOST_WRITTEN: usize = 65536;

/// A chain of backups has fewer transactions.
const MOST_BEHIND: u64 = 1 << 32;

impl Hall {
    /// Another image is written.
    fn in_progress(&self) -> Option<Refusal> {
        let image = self.image?;
        Some(Refusal::Busy(Holder::Image(image.actor)))
    }

    /// How many bytes the database is spelled in.
    fn payload_length(&self) -> Result<usize, Refusal> {
        let bytes = self.inventory.encode(self.alloc)?;
        Ok(bytes.len())
    }

    fn begin_checkpoint(&mut self, actor: u32) -> Result<ImageReply, Refusal> {
        if let Some(refusal) = self.in_progress() {
            return Err(refusal);
        }
        let unwritten = self.payload_length()?;
        let seq = self.force();
        let file = if self.generation % 2 == 0 { 1 } else { 0 };
        self.image = Some(Picture {
            actor,
            is_checkpoint: true,
            file,
            seq,
            unwritten,
            copied: 0,
        });
        Ok(ImageReply::Begun { file, seq })
    }

    /// Why no backup may follow the one in this file, where none may: it isn't whole, or not of this run, or too many transactions are behind it.
    fn since_refused(&self, file: u32) -> Option<Refusal> {
        let Some(backup) = self.inventory.tables().backups.get(&file) else {
            return Some(Refusal::NotFound);
        };
        let there = unless(
            backup.is_done && self.first <= backup.number,
            Refusal::NotFound,
        );
        let next = self.number().saturating_add(1);
        let few = next.saturating_sub(backup.number) < MOST_BEHIND;
        sooner_of(there, unless(few, Refusal::InventoryFull))
    }

    /// Makes a transaction that isn't refused so, nor by its own rules.
    fn join_unless(&mut self, entry: &Entry, held: Option<Refusal>) -> Result<u64, Refusal> {
        match sooner_of(held, self.illegal(entry)) {
            Some(refusal) => Err(refusal),
            None => self.join(entry),
        }
    }

    fn begin_backup(
        &mut self,
        actor: u32,
        after: Option<u32>,
        held: Option<Refusal>,
    ) -> Result<ImageReply, Refusal> {
        let file = self.space.next_file();
        let unwritten = self.payload_length()?;
        let held = sooner_of(held, self.in_progress());
        let entry = Entry {
            actor,
            change: Change::DbBegin { file, after },
        };
        let joined = self.join_unless(&entry, held);
        drop(entry);
        let seq = joined?;
        if file < u32::MAX {
            self.space.draw(file);
        }
        self.force();
        self.image = Some(Picture {
            actor,
            is_checkpoint: false,
            file,
            seq,
            unwritten,
            copied: 0,
        });
        Ok(ImageReply::Begun { file, seq })
    }

    /// How many bytes the records of the transactions behind this one have.
    fn records_behind(&self, seq: u64) -> u64 {
        let mut number = self.first;
        let mut sum: u64 = 0;
        for length in self.lengths.as_slice() {
            number = number.saturating_add(1);
            if number > seq {
                sum = sum.saturating_add(*length);
            }
        }
        sum
    }

    /// The image is the newest from now on, and its log has what came behind it.
    fn finish_checkpoint(&mut self, seq: u64) -> Result<ImageReply, Refusal> {
        self.generation = self.generation.saturating_add(1);
        self.log_length = self.records_behind(seq);
        self.force();
        self.image = None;
        Ok(ImageReply::Done { seq })
    }

    fn finish_backup(&mut self, image: Picture) -> Result<ImageReply, Refusal> {
        let entry = Entry {
            actor: image.actor,
            change: Change::DbEnd { file: image.file },
        };
        let joined = self.join_unless(&entry, None);
        drop(entry);
        match joined {
            Ok(_) => {
                self.image = None;
                Ok(ImageReply::Done { seq: image.seq })
            }
            Err(refusal) => {
                if refusal == Refusal::InventoryFull {
                    self.image = None;
                }
                Err(refusal)
            }
        }
    }

    /// Goes on with the actor's own image.
    fn go_on(&mut self, actor: u32) -> Result<ImageReply, Refusal> {
        let image = match self.image {
            Some(image) => image,
            None => return Err(Refusal::NotFound),
        };
        if image.actor != actor {
            return Err(Refusal::NotFound);
        }
        let mut next = image;
        if image.unwritten > 0 {
            next.unwritten = image.unwritten.saturating_sub(MOST_WRITTEN);
            self.image = Some(next);
            return Ok(ImageReply::More);
        }
        if !image.is_checkpoint {
            return self.finish_backup(image);
        }
        if image.copied < self.number().saturating_sub(image.seq) {
            next.copied = image.copied.saturating_add(1);
            self.image = Some(next);
            return Ok(ImageReply::More);
        }
        self.finish_checkpoint(image.seq)
    }

    /// Begins an image, or goes on with the actor's own.
    pub fn image(&mut self, actor: u32, kind: ImageKind) -> Result<ImageReply, Refusal> {
        match kind {
            ImageKind::Checkpoint => self.begin_checkpoint(actor),
            ImageKind::Backup => self.begin_backup(actor, None, None),
            ImageKind::Since { after } => {
                let refused = self.since_refused(after);
                self.begin_backup(actor, Some(after), refused)
            }
            ImageKind::Next => self.go_on(actor),
        }
    }

    /// A sequential volume is written from its start again; the transaction is forced.
    pub fn reuse(&mut self, actor: u32, file: u32) -> Result<u64, Refusal> {
        let entry = Entry {
            actor,
            change: Change::Reuse { file },
        };
        let joined = self.join_unless(&entry, self.held_on(file));
        drop(entry);
        let number = joined?;
        self.force();
        Ok(number)
    }

    /// Answers a query. The length of the log is that of the records behind the newest checkpoint, each five bytes and its transaction.
    pub fn ask(&self, query: &Query) -> Result<Answer, Refusal> {
        match query {
            Query::LogBytes => {
                let tables = self.inventory.tables();
                Ok(Answer {
                    n: tables.number,
                    today: tables.today,
                    rows: Rows::LogBytes(self.log_length),
                })
            }
            _ => self.inventory.answer(self.alloc, query),
        }
    }
}
