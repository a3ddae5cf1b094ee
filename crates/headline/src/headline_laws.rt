// The headline, and what it is made of: laws, each the clause of a function with an empty body.
ghost use Rattle.std.specs.Prelude.{ℕ};
ghost use Rattle.headline.specs.Acts.{ActedHeadline};
ghost use Rattle.headline.specs.Headline.{Headline};
ghost use Rattle.headline.specs.ManyLives.{ManyLives};
ghost use Rattle.headline.specs.PastLives.{PastWritesOutlive};
ghost use Rattle.headline.specs.PastWrites.{
  CancelledWritesArePast,
  PastWritesAreNeverListed,
  PastWritesStay,
  RefusedWritesArePast,
};
ghost use Rattle.headline.specs.Promised.{RunsKeep, StepsKeep};

use device::Device;

/// Every step that `cluster` takes, from a world that a store shows, keeps the promise of a step of a run.
pub fn steps_keep_their_promise<D: Device>()
    ensures { StepsKeep D.state D.honest D.moment D.left_since }
{}

/// The steps that `run` takes are a chain of the promises of all of them, and after them a store shows the world.
pub fn runs_keep_their_promise<D: Device>()
    ensures { RunsKeep D.state D.honest D.moment D.left_since }
{}

/// The headline: from whatever machine devices rest at, `reopen` over them and then `run` are an opening and a run of all the steps; and after them the
/// devices rest again, with all that was told.
pub fn headline<D: Device>()
    ensures { (store shards : ℕ) → Headline D.state D.honest D.moment D.left_since store shards }
{}

/// The same for a store that is opened over them and then takes steps, with scripts set on its devices between them, in any order.
pub fn acted_headline<D: Device>()
    ensures { (store shards : ℕ) → ActedHeadline D.set_to_fail D.state D.honest D.moment D.left_since store shards }
{}

/// Many lives are one list of moves. Each is opened over what is found of the devices that the one before left, in files that are longer or not, and is closed,
/// or stopped at any moment of its opening or of a step. A write that came to nothing before them is listed at no place after them, and no write of them has its
/// id.
pub fn many_lives<D: Device>()
    ensures { (store shards : ℕ) → ManyLives D.set_to_fail D.state D.honest D.moment D.left_since store shards }
{}

/// A write that ends with a refusal other than `Unsure`, or was cancelled before its decision, is never listed: not by a flow that was left, nor under an
/// id that is given again, whatever steps follow, openings of nodes included.
pub fn refused_writes_are_never_listed<D: Device>()
    ensures refused { (store shards : ℕ) → RefusedWritesArePast D.state D.honest D.moment D.left_since store shards }
    ensures cancelled { (store shards : ℕ) → CancelledWritesArePast D.state D.honest D.moment D.left_since store shards }
    ensures stay { (store shards : ℕ) → PastWritesStay D.state D.honest D.moment D.left_since store shards }
    ensures ever { (store shards : ℕ) → PastWritesAreNeverListed D.state D.honest D.moment D.left_since store shards }
{}

/// Nor in a later life: the rest of its own, with scripts set on devices, and closed, or stopped within a step, ends so that `many_lives` continues from
/// there.
pub fn refused_writes_outlive_their_life<D: Device>()
    ensures { PastWritesOutlive D.set_to_fail D.state D.honest D.moment D.left_since }
{}
