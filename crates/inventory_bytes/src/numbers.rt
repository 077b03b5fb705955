ghost use Rattle.inventory_bytes.specs.Payload.{numbers, numbers_form};

use fields::{Fault, Formed, Memory, Reader, put_u32, put_u64};
use kinds::Day;
use std::alloc::Global;

/// The number of the last transaction, the day, and the numbers that are given next.
#[derive(Clone, Copy, Drop)]
pub struct Numbers {
    pub number: u64,
    pub today: Day,
    pub next_node: u32,
    pub next_filespace: u32,
    pub next_pool: u32,
    pub next_file: u32,
    pub next_object: u64,
}

#[tactic(auto, unfolding(crate::specs::Payload::numbers))]
impl Formed for Numbers {
    ghost form = { numbers };

    fn write_to(&self, out: &mut Vec<u8>) -> Result<(), Memory> {
        put_u64(out, self.number)?;
        self.today.write_to(out)?;
        put_u32(out, self.next_node)?;
        put_u32(out, self.next_filespace)?;
        put_u32(out, self.next_pool)?;
        put_u32(out, self.next_file)?;
        put_u64(out, self.next_object)?;
        Ok(())
    }

    fn read_from(alloc: Global, reader: &mut Reader<'_>) -> Result<Self, Fault> {
        let number = reader.u64()?;
        let today = Day::read_from(alloc, reader)?;
        let next_node = reader.u32()?;
        let next_filespace = reader.u32()?;
        let next_pool = reader.u32()?;
        let next_file = reader.u32()?;
        let next_object = reader.u64()?;
        Ok(Numbers {
            number,
            today,
            next_node,
            next_filespace,
            next_pool,
            next_file,
            next_object,
        })
    }

    ghost is_form = { numbers_form };
}
