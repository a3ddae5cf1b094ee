// A set of ids of writes.
ghost use Rattle.std.specs.Prelude.{◌≡◌, ◌||◌, [], OnOk, OnErr};
ghost use Rattle.shard.specs.Keeping.{has_id};
ghost use Rattle.tuples.specs.Log.{same_id};
ghost use Rattle.tuples.specs.declared.entry.WriteId.{WriteId as AnyId};

use std::alloc::{AllocError, Global};
use std::collections::BTreeSet;
use std::marker::Model;
use tuples::WriteId;

/// Ids of writes, each found in logarithmic time, which contracts see as a list.
#[derive(Drop)]
pub(crate) struct WriteIds {
    ids: BTreeSet<WriteId>,
}

impl Model for WriteIds {
    ghost use Rattle.std.specs.Prelude.{List};
    ghost use Rattle.tuples.specs.declared.entry.WriteId.{WriteId};

    ghost Value = { List WriteId };

    ghost view = { λ u. u.ids.keys };
}

impl WriteIds {
    /// No ids, which takes no memory.
    pub fn new(alloc: Global) -> Self
        ensures { result ≡ [] }
    {
        WriteIds {
            ids: BTreeSet::new(alloc),
        }
    }

    /// Whether the id is one of them.
    pub fn has(&self, id: WriteId) -> bool
        ensures { result ≡ has_id id self.now }
    {
        self.ids.contains(&id)
    }

    /// The id is one of them from here on. If memory is refused, nothing has changed.
    pub fn put(&mut self, id: WriteId) -> Result<(), AllocError>
        ensures ok { OnOk result ((j : AnyId) → has_id j self.new ≡ (has_id j self.old || same_id id j)) }
        ensures err { OnErr result (self.new ≡ self.old) }
    {
        self.ids.insert(id)?;
        Ok(())
    }
}
