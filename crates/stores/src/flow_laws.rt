// Laws of a store that was just made, of flows that begin, go on and end, and of writes that begin, each the clause of a function with an empty body.
ghost use Rattle.std.specs.Prelude.{ℕ};
ghost use Rattle.stores.specs.FlowLaws.{FlowsBegin, FlowsEnd, FlowsGoOn, WritesBegin};
ghost use Rattle.stores.specs.NewStores.{NewStoresStand};

use laws::Leavings;

/// A store that was just made stands for the empty log.
pub fn new_stores_stand()
    ensures { NewStoresStand }
{}

/// A flow that begins leaves what the store stands for.
pub fn flows_that_begin_leave_the_store_standing<W: Leavings>()
    ensures { (store shards : ℕ) → FlowsBegin store shards W.left }
{}

/// So does one that ends.
pub fn flows_that_end_leave_the_store_standing<W: Leavings>()
    ensures { (store shards : ℕ) → FlowsEnd store shards W.left }
{}

/// So does the coordinator that gives a flow's write its id.
pub fn writes_that_begin_leave_the_store_standing<W: Leavings>()
    ensures { (store shards : ℕ) → WritesBegin store shards W.left }
{}

/// So does a flow that goes on over the same machine and nodes, and holds what is right.
pub fn flows_that_go_on_leave_the_store_standing<W: Leavings>()
    ensures { (store shards : ℕ) → FlowsGoOn store shards W.left }
{}
