// Laws of calls that a store shows, each the clause of a function with an empty body.
ghost use Rattle.std.specs.Prelude.{ℕ};
ghost use Rattle.flow_turns.specs.CallLaws.{FailedCallsHaveCause, QuietTurnsAnswer, QuietTurnsGoOn, QuietTurnsRefuse, StillCallsAreQuiet};
ghost use Rattle.flow_turns.specs.Steps.{CancelledFlowsEnd, FlowsStart, FullStoresRefuse};

use device::Device;

/// A call that left its node as it was, up, down or refused, is quiet.
pub fn still_calls_are_quiet<D: Device>()
    ensures { (store shards : ℕ) → StillCallsAreQuiet D.state D.honest D.moment D.left_since store shards }
{}

/// After a quiet call a turn of a flow other than a write keeps the promise of a step: it goes on with what is right in its hands, ends with an
/// answer that agrees, or with a refusal that has its cause.
pub fn quiet_turns_run<D: Device>()
    ensures goes_on { (store shards : ℕ) → QuietTurnsGoOn D.state D.honest D.moment D.left_since store shards }
    ensures answers { (store shards : ℕ) → QuietTurnsAnswer D.state D.honest D.moment D.left_since store shards }
    ensures refuses { (store shards : ℕ) → QuietTurnsRefuse D.state D.honest D.moment D.left_since store shards }
{}

/// A flow of whatever kind keeps the promise of a step if it begins in a slot that was free, or is refused with `Full` while 1,024 run; so does one other
/// than a write if it is cancelled.
pub fn flows_start_and_are_cancelled<D: Device>()
    ensures starts { (store shards : ℕ) → FlowsStart D.state D.honest D.moment D.left_since store shards }
    ensures full { (store shards : ℕ) → FullStoresRefuse D.state D.honest D.moment D.left_since store shards }
    ensures cancelled { (store shards : ℕ) → CancelledFlowsEnd D.state D.honest D.moment D.left_since store shards }
{}

/// A node that goes down in a call of a store that stands has its cause: a device of it failed, or has no room for one more batch.
pub fn failed_calls_have_cause<D: Device>()
    ensures { (store shards : ℕ) → FailedCallsHaveCause D.state D.honest D.moment D.left_since store shards }
{}
