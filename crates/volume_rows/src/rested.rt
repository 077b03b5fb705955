ghost use Rattle.std.specs.Prelude.{◌≡◌};
ghost use Rattle.volume_rows.specs.Volumes.{rested};

use kinds::{Day, Days, Refusal};

/// Whether a volume that was emptied on this day has rested long enough.
pub fn rested(file: u32, delay: Days, today: Day, day: Day) -> Result<(), Refusal>
    ensures { result ≡ rested file delay today day }
{
    let delay = delay.count() as u32;
    if today.number().saturating_sub(day.number()) >= delay {
        Ok(())
    } else {
        Err(Refusal::NotYet {
            file,
            day: day.number() + delay,
        })
    }
}
