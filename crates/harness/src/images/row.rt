// A row: a node of a store, and the bytes of its two devices.
ghost use Rattle.std.specs.Prelude.{◌<◌};
ghost use Rattle.std.specs.Option.{ForSome};

use crate::images::opening::{open_coordinator, open_shard};
use device::SimDisk;
use records::Identity;
use std::alloc::Global;
use tuples::{Refusal, Shards};

#[derive(Clone, Copy)]
pub(crate) struct Row<'a> {
    // none for the coordinator
    shard: Option<u8>,
    store: u64,
    shards: Shards,
    a: &'a str,
    b: &'a str,
    ghost there: { ForSome shard (λ s. s < shards) },
}

impl<'a> Row<'a> {
    /// What the row says; none if it is not a row.
    pub(crate) fn read(row: &'a str) -> Option<Row<'a>> {
        let (node, rest) = row.split_once(' ')?;
        let (store, rest) = rest.split_once(' ')?;
        let (shards, rest) = rest.split_once(' ')?;
        let (a, b) = rest.split_once(' ')?;
        let store = store.parse::<u64>().ok()?;
        let shards = Shards::checked(shards.parse::<u8>().ok()?)?;
        if node == "c" {
            return Some(Row {
                shard: None,
                store,
                shards,
                a,
                b,
            });
        }
        let shard = node.parse::<u8>().ok()?;
        if !shards.has(shard) {
            return None;
        }
        Some(Row {
            shard: Some(shard),
            store,
            shards,
            a,
            b,
        })
    }

    /// Opens the node over its devices, and tells what it finds.
    pub(crate) fn open(&self, alloc: Global, out: &mut Vec<u8>) -> Result<(), Refusal> {
        let a = disk(alloc, self.a)?;
        let b = disk(alloc, self.b)?;
        match self.shard {
            None => {
                let me = Identity::coordinator(self.store, self.shards);
                open_coordinator(alloc, me, a, b, out)
            }
            Some(shard) => {
                let me = Identity::shard(self.store, self.shards, shard);
                open_shard(alloc, me, a, b, out)
            }
        }
    }
}

// A disk with these bytes.
fn disk(alloc: Global, text: &str) -> Result<SimDisk, Refusal> {
    let digits = if text == "-" { "" } else { text };
    match hex::decode(alloc, digits) {
        Ok(bytes) => Ok(SimDisk::new(alloc, bytes)?),
        Err(_) => Err(Refusal::BadRequest),
    }
}
