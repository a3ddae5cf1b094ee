// Laws of the turns of cares, each the clause of a function with an empty body.
ghost use Rattle.std.specs.Prelude.{ℕ};
ghost use Rattle.flow_turns.specs.CareTurns.{CaresTurn, CollectsTurn, FlushesTurn, LearnsTurn, RaisesTurn, ResolvesTurn};

use device::Device;

/// A flush of a node answers that it is done, or ends with the refusal of a node that is away or whose flush failed.
pub fn flushes_take_their_turn<D: Device>()
    ensures { (store shards : ℕ) → FlushesTurn D.state D.honest D.moment D.left_since store shards }
{}

/// A shard's learning goes on with heads and decisions that are right, is done if the shard has learned up to the kept place of its heads, or ends with a
/// refusal that has its cause.
pub fn shards_learn_in_turn<D: Device>()
    ensures { (store shards : ℕ) → LearnsTurn D.state D.honest D.moment D.left_since store shards }
{}

/// A shard's collection goes on with heads that are right, is done, or ends with a refusal that has its cause.
pub fn collections_take_their_turn<D: Device>()
    ensures { (store shards : ℕ) → CollectsTurn D.state D.honest D.moment D.left_since store shards }
{}

/// A raise of the horizon goes on with what the shards have settled, is done once the horizon is at its place, or ends with a refusal that has its cause.
pub fn raises_take_their_turn<D: Device>()
    ensures { (store shards : ℕ) → RaisesTurn D.state D.honest D.moment D.left_since store shards }
{}

/// A resolution goes on with what was found of each write, answers all of it, or ends with a refusal that has its cause.
pub fn resolutions_take_their_turn<D: Device>()
    ensures { (store shards : ℕ) → ResolvesTurn D.state D.honest D.moment D.left_since store shards }
{}

/// Any care, whose kind stays, takes its turn.
pub fn cares_take_their_turn<D: Device>()
    ensures { (store shards : ℕ) → CaresTurn D.state D.honest D.moment D.left_since store shards }
{}
