// How long a shard is held while it makes a checkpoint of so many rows, and how long the next opening takes.
use crate::reopening::{Node, made, time_shard};
use crate::touches::open_shard;
use device::Device;
use measures::timing::{now, print_since};
use shard::Shard;
use std::alloc::Global;
use std::rt::Clock;
use tuples::Refusal;

/// Opens a shard over the records of so many writes of one touch, each of a tuple of its own, and prints how long three steps take: its checkpoint
/// (`checkpoint`, whose answer is how many bytes the bank then has), the same once more into the other bank (`again`), and an opening after them
/// (`after`, whose answer is the place that was learned). The disks are in memory, so a sync takes no time.
pub(crate) fn measure(
    rt: &(impl Clock + Eprint),
    alloc: Global,
    writes: u32,
) -> Result<(), Refusal> {
    let (a, b) = made(alloc, Node::Shard, writes)?;
    let mut shard = open_shard(alloc, a, b)?;
    let amount = u64::from(writes);
    let pointed = point_twice(rt, alloc, &mut shard, amount);
    let (a, b) = shard.into_devices();
    pointed?;
    time_shard(rt, alloc, a, b, "behind", amount)
}

fn point_twice<D: Device>(
    rt: &(impl Clock + Eprint),
    alloc: Global,
    shard: &mut Shard<D>,
    amount: u64,
) -> Result<(), Refusal> {
    point(rt, alloc, shard, "checkpoint", amount)?;
    point(rt, alloc, shard, "again", amount)
}

// One checkpoint, by this name.
fn point<D: Device>(
    rt: &(impl Clock + Eprint),
    alloc: Global,
    shard: &mut Shard<D>,
    name: &str,
    amount: u64,
) -> Result<(), Refusal> {
    let start = now(rt);
    shard.checkpoint(alloc)?;
    print_since(rt, name, start, amount, Ok(shard.bank_len()))
}
