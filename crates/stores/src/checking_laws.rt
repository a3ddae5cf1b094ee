// Laws of checks, each the clause of a function with an empty body.
ghost use Rattle.std.specs.Prelude.{ℕ};
ghost use Rattle.stores.specs.CheckingLaws.{CheckRepliesSelect, ChecksBegin, ChecksGoOn, ChecksSayNo, ChecksSayYes, FullChecksHaveCause};

use laws::Leavings;

/// What the shard of a userset answers at a kept place is what a check asks of the whole store.
pub fn check_replies_select<W: Leavings>()
    ensures { (store shards : ℕ) → CheckRepliesSelect store shards W.left }
{}

/// A check that finds its place holds what is right, and so does one that has walked one more userset: each is walked once, and all that a walked one
/// holds was walked or waits.
pub fn checks_walk<W: Leavings>()
    ensures begin { (store shards : ℕ) → ChecksBegin store shards W.left }
    ensures go_on { (store shards : ℕ) → ChecksGoOn store shards W.left }
{}

/// A check that has found its user answers yes, which agrees; one that has nothing left to walk answers no, which agrees, even around rings; and one
/// that has walked as many usersets as it may, with one left, is `Full` with its cause.
pub fn checks_agree<W: Leavings>()
    ensures yes { (store shards : ℕ) → ChecksSayYes store shards W.left }
    ensures no { (store shards : ℕ) → ChecksSayNo store shards W.left }
    ensures full { (store shards : ℕ) → FullChecksHaveCause store shards W.left }
{}
