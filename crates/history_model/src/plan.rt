// The shape of a history: how long the row is, how much it takes, which blocks and clients are in
// play.
use crate::dice::Dice;
use rack_model::key::BlockId;
use std::alloc::{AllocError, Global};

#[derive(Drop)]
pub struct Plan {
    pub capacities: Vec<u32>,
    pub room: usize,
    pub blocks: Vec<BlockId>,
    // Writers are the clients 1 to this one.
    pub writers: u8,
}

// Blocks of few files, so that both numbers tell them apart.
fn blocks(heap: Global, count: u64) -> Result<Vec<BlockId>, AllocError> {
    let mut all = Vec::new(heap);
    for number in 0..count {
        all.push(BlockId {
            file: u16::try_from(number % 3).unwrap_or(0).saturating_mul(300),
            block: u16::try_from(number / 3).unwrap_or(0),
        })?;
    }
    Ok(all)
}

// Capacities of 2 to 9, close to one another.
fn capacities(heap: Global, dice: &mut Dice, servers: u8) -> Result<Vec<u32>, AllocError> {
    let base = dice.below(8).saturating_add(2);
    let mut all = Vec::new(heap);
    for _ in 0..servers {
        let capacity = base.saturating_add(dice.below(3)).min(9);
        all.push(u32::try_from(capacity).unwrap_or(9))?;
    }
    Ok(all)
}

impl Plan {
    // A table has room for 2 to 40 entries, mostly for all blocks.
    pub fn draw(heap: Global, dice: &mut Dice, servers: u8) -> Result<Plan, AllocError> {
        let count = dice.below(14).saturating_add(3);
        let room = if dice.chance(75) {
            count.saturating_add(dice.below(25))
        } else {
            dice.below(count).max(2)
        };
        Ok(Plan {
            capacities: capacities(heap, dice, servers)?,
            room: usize::try_from(room).unwrap_or(40),
            blocks: blocks(heap, count)?,
            writers: dice.byte_below(4).saturating_add(1),
        })
    }
}
