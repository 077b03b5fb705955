//! What can be asked of the rows by numbers.
use crate::answer::{Answer, Fault, number as found};
use crate::words::{large, number};
use object_rows::Objects;

/// What is left of room for so many items.
fn items_left(objects: &Objects, room: u64) -> Answer {
    match objects.items_left(u128::from(room)) {
        Some(left) => match u64::try_from(left) {
            Ok(left) => Answer::Number(left),
            Err(_) => Answer::Unmet,
        },
        None => Answer::Nothing,
    }
}

/// What the words ask.
pub fn ask(objects: &Objects, words: &[&str]) -> Result<Answer, Fault> {
    match words {
        ["has", object] => Ok(Answer::Is(objects.has_object(large(object)?))),
        ["in", object, pool] => Ok(Answer::Is(objects.has_copy(large(object)?, number(pool)?))),
        ["space", object] => Ok(found(objects.filespace_of(large(object)?))),
        ["holds", pool] => Ok(Answer::Is(objects.holds_copy(number(pool)?))),
        ["count"] => Ok(Answer::Number(objects.count() as u64)),
        ["left", room] => Ok(items_left(objects, large(room)?)),
        _ => Err(Fault::NoCommand),
    }
}
