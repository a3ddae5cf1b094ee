// The versions of several memories, where they lie.
ghost use Rattle.std.specs.Prelude.{◌≡◌, ◌≤◌, ◌<◌, ◌++◌, ◌∷◌, [], map, IfOk, OnOk};
ghost use Rattle.std.specs.List.Sorted.{IsPermutation, IsSorted};
ghost use Rattle.reshard.specs.Merging.{all_of, merged};
ghost use Rattle.tuples.specs.Versions.{of_shard};
ghost use Rattle.tuples.specs.declared.tuple.Tuple.{Tuple as AnyTuple};
ghost use Rattle.versions.specs.Alike.{of_tuple};
ghost use Rattle.versions.specs.Rows.{version_cmp};
ghost use Rattle.versions.specs.Walks.{Rise};

use crate::own::Own;
use records::Identity;
use replay::Memory;
use std::alloc::{AllocError, Global};
use std::marker::Model;

/// The versions of several memories; contracts see them as the list of each. Nothing is copied.
#[derive(Drop)]
pub struct Rows<'a> {
    memories: Vec<&'a Memory>,
}

impl<'a> Model for Rows<'a> {
    ghost use Rattle.std.specs.Prelude.{List};
    ghost use Rattle.std.specs.List.{AllByRecursion};
    ghost use Rattle.std.specs.List.Sorted.{IsSorted};
    ghost use Rattle.reshard.specs.Memories.{lists_of};
    ghost use Rattle.tuples.specs.declared.version.Version.{Version as AnyVersion};
    ghost use Rattle.versions.specs.Rows.{version_cmp};

    ghost Value = { List (List AnyVersion) };

    ghost view = { λ r. lists_of r.memories.items };

    ghost invariant = { λ r. AllByRecursion (IsSorted version_cmp) (lists_of r.memories.items) };
}

impl<'a> Rows<'a> {
    /// Those of no memory; allocates nothing itself.
    pub fn new(alloc: Global) -> Rows<'a>
        ensures { result ≡ [] }
    {
        Rows {
            memories: Vec::new(alloc),
        }
    }

    /// Those of one more memory.
    pub fn push(&mut self, memory: &'a Memory) -> Result<(), AllocError>
        requires { (t : AnyTuple) → Rise (of_tuple t memory.now.rows) }
        ensures { OnOk result (self.new ≡ self.old ++ memory.now.rows ∷ []) }
    {
        // A walk goes in order.
        let _ = memory.walk();
        match self.memories.push(memory) {
            Ok(()) => Ok(()),
            Err(_) => Err(AllocError),
        }
    }

    /// The merged list is in order, and has each version of all lists, and no other. Does nothing.
    pub fn keeps_order(&self)
        ensures in_order { IsSorted version_cmp (merged self.now) }
        ensures same { IsPermutation (all_of self.now) (merged self.now) }
    {
        let _memories = &self.memories;
    }

    /// Those of each memory that are the node's, from the first on.
    pub(crate) fn own(&self, alloc: Global, me: Identity) -> Result<Vec<Own<'a>>, AllocError>
        ensures own { IfOk result (λ owns. merged owns.items ≡ of_shard me.shards me.node (merged self.now)) }
    {
        let mut owns = Vec::with_capacity(alloc, self.memories.len())?;
        for index in 0..self.memories.len() {
            owns.push_reserved(Own::new(self.memories[index], me));
        }
        Ok(owns)
    }
}
