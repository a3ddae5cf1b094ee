ghost use Rattle.std.specs.Prelude.{◌≡◌, ◌≤◌, ◌++◌, ◌∷◌, [], Some, None, Contains, IfOk};

use crate::{Begins, Changes, Issues, Joint, Law, Pass};
use std::alloc::{AllocError, Global};
use std::marker::Brand;
use std::test::*;
use std::thread::{Threads, join};

// Part 0 is a count, and part 1 follows it: it never passes what the count has reached. A fact is a number that the count has reached.
struct Follows;

impl Law<u64, u64, u64> for Follows {
    ghost use Rattle.joint.specs.Examples.{IsBehind, HasReached};

    ghost holds = { IsBehind };

    ghost right = { HasReached };
}

type Counts = Joint<u64, u64, u64, Follows>;

type CountPass = Pass<u64, u64, u64>;

fn start_with<B: Begins<u64, u64>>(alloc: Global) -> Result<(Counts, CountPass), AllocError>
    requires { (B.parts ≡ (0, 0) ∷ (1, 0) ∷ []) × (B.facts ≡ []) }
    ensures { IfOk result (λ r. (r.1.table ≡ r.0) × (r.1.parts ≡ (0, 0) ∷ (1, 0) ∷ []) × (r.1.goods ≡ []) × (r.1.facts ≡ [])) }
{
    Joint::new::<B>(alloc)
}

// Both parts begin at 0.
fn start(alloc: Global) -> Result<(Counts, CountPass), AllocError>
    ensures { IfOk result (λ r. (r.1.table ≡ r.0) × (r.1.parts ≡ (0, 0) ∷ (1, 0) ∷ []) × (r.1.goods ≡ []) × (r.1.facts ≡ [])) }
{
    start_with::<Brand>(alloc)
}

fn count_by<C: Changes<u64, u64, u64>>(counts: &Counts, pass: &mut CountPass, from: u64, to: u64)
    requires own { pass.old.table ≡ counts.now }
    requires part { (pass.old.parts ≡ (0, from) ∷ []) × (pass.old.goods ≡ []) }
    requires rises { from ≤ to }
    requires picks { (C.part ≡ Some to) × (C.goods ≡ None) × (C.facts ≡ to ∷ []) }
    ensures same { (pass.new.table ≡ pass.old.table) × (pass.new.goods ≡ []) }
    ensures part { pass.new.parts ≡ (0, to) ∷ [] }
    ensures facts { pass.new.facts ≡ pass.old.facts ++ to ∷ [] }
{
    let _rise = to - from;
    counts.change::<C>(pass);
}

// The count rises, and whoever has its pass knows how far.
fn count(counts: &Counts, pass: &mut CountPass, from: u64, to: u64)
    requires own { pass.old.table ≡ counts.now }
    requires part { (pass.old.parts ≡ (0, from) ∷ []) × (pass.old.goods ≡ []) }
    requires rises { from ≤ to }
    ensures same { (pass.new.table ≡ pass.old.table) × (pass.new.goods ≡ []) }
    ensures part { pass.new.parts ≡ (0, to) ∷ [] }
    ensures facts { pass.new.facts ≡ pass.old.facts ++ to ∷ [] }
{
    count_by::<Brand>(counts, pass, from, to);
}

fn follow_by<C: Changes<u64, u64, u64>>(counts: &Counts, pass: &mut CountPass, from: u64, to: u64)
    requires own { pass.old.table ≡ counts.now }
    requires part { (pass.old.parts ≡ (1, from) ∷ []) × (pass.old.goods ≡ []) }
    requires known { Contains pass.old.facts to }
    requires picks { (C.part ≡ Some to) × (C.goods ≡ None) × (C.facts ≡ []) }
    ensures same { (pass.new.table ≡ pass.old.table) × (pass.new.goods ≡ []) }
    ensures part { pass.new.parts ≡ (1, to) ∷ [] }
{
    let _from = from;
    let _to = to;
    counts.change::<C>(pass);
}

// The other part moves to a number that the count is known to have reached.
fn follow(counts: &Counts, pass: &mut CountPass, from: u64, to: u64)
    requires own { pass.old.table ≡ counts.now }
    requires part { (pass.old.parts ≡ (1, from) ∷ []) × (pass.old.goods ≡ []) }
    requires known { Contains pass.old.facts to }
    ensures same { (pass.new.table ≡ pass.old.table) × (pass.new.goods ≡ []) }
    ensures part { pass.new.parts ≡ (1, to) ∷ [] }
{
    follow_by::<Brand>(counts, pass, from, to);
}

// One thread counts on while another follows to 5. Whoever holds both parts then sees that the one is within the other.
fn two_threads<R: Threads + Sync>(
    rt: &R,
    counts: &Counts,
    counting: CountPass,
    following: CountPass,
) -> CountPass
    requires own { (counting.table ≡ counts.now) × (following.table ≡ counts.now) }
    requires parts { (counting.parts ≡ (0, 5) ∷ []) × (counting.goods ≡ []) × (following.parts ≡ (1, 0) ∷ []) × (following.goods ≡ []) }
    requires known { Contains following.facts 5 }
    ensures same { result.table ≡ counts.now }
    ensures parts { result.parts ≡ (0, 7) ∷ (1, 5) ∷ [] }
{
    let (mut one, other) = join(
        rt,
        move || -> CountPass
            requires own { counting.table ≡ counts.now }
            requires part { (counting.parts ≡ (0, 5) ∷ []) × (counting.goods ≡ []) }
            ensures same { (result.table ≡ counts.entry.now) × (result.parts ≡ (0, 7) ∷ []) }
        {
            let mut pass = counting;
            count(counts, &mut pass, 5, 6);
            count(counts, &mut pass, 6, 7);
            pass
        },
        move || -> CountPass
            requires own { following.table ≡ counts.now }
            requires part { (following.parts ≡ (1, 0) ∷ []) × (following.goods ≡ []) }
            requires known { Contains following.facts 5 }
            ensures same { (result.table ≡ counts.entry.now) × (result.parts ≡ (1, 5) ∷ []) }
        {
            let mut pass = following;
            follow(counts, &mut pass, 0, 5);
            pass
        },
    );
    counts.join(&mut one, other);
    one
}

// What the law says of two parts that are in one hand.
fn is_behind(counts: &Counts, pass: &mut CountPass, count: u64, follower: u64) -> bool
    requires own { pass.old.table ≡ counts.now }
    requires parts { pass.old.parts ≡ (0, count) ∷ (1, follower) ∷ [] }
    ensures same { pass.new ≡ pass.old }
    ensures behind { follower ≤ count }
{
    counts.look(pass);
    follower <= count
}

// A count, of which one part follows the other in a thread of its own; then both parts are dealt again.
fn counted<R: Threads + Sync>(rt: &R, counts: &Counts, first: CountPass) -> (CountPass, CountPass)
    requires own { first.table ≡ counts.now }
    requires parts { (first.parts ≡ (0, 0) ∷ (1, 0) ∷ []) × (first.goods ≡ []) × (first.facts ≡ []) }
    ensures own { (result.0.table ≡ counts.now) × (result.1.table ≡ counts.now) }
    ensures parts { (result.0.parts ≡ (0, 7) ∷ []) × (result.1.parts ≡ (1, 5) ∷ []) }
{
    let mut following = first;
    let mut counting = counts.deal(&mut following);
    count(counts, &mut counting, 0, 5);
    let news = counts.note(&mut counting);
    counts.join(&mut following, news);
    let mut all = two_threads(rt, counts, counting, following);
    let _behind = is_behind(counts, &mut all, 7, 5);
    let dealt = counts.deal(&mut all);
    (dealt, all)
}

#[test]
fn a_part_follows_what_is_known_of_another(rt: HostRuntime) -> Result<(), Fail> {
    let (counts, first) = start(rt.alloc())?;
    let (mut one, other) = counted(&rt, &counts, first);
    counts.join(&mut one, other);
    assert!(rt; is_behind(&counts, &mut one, 7, 5));
    Ok(())
}

fn issue_with<I: Issues<u64, u64>>(counts: &Counts, pass: &mut CountPass) -> CountPass
    requires own { pass.old.table ≡ counts.now }
    requires picks { (I.goods ≡ Some 3) × (I.facts ≡ []) }
    ensures same { pass.new ≡ pass.old }
    ensures own { (result.table ≡ counts.now) × (result.parts ≡ []) }
{
    counts.issue::<I>(pass)
}

// A caller's goods.
fn issue(counts: &Counts, pass: &mut CountPass) -> CountPass
    requires own { pass.old.table ≡ counts.now }
    ensures same { pass.new ≡ pass.old }
    ensures own { (result.table ≡ counts.now) × (result.parts ≡ []) }
{
    issue_with::<Brand>(counts, pass)
}

#[test]
fn goods_go_to_a_node_and_come_back(rt: HostRuntime) -> Result<(), Fail> {
    let (counts, mut first) = start(rt.alloc())?;
    let one = issue(&counts, &mut first);
    let mut other = issue(&counts, &mut first);
    counts.join(&mut first, one);
    let back = counts.leave(&mut first);
    counts.join(&mut other, back);
    counts.look(&mut other);
    assert!(rt; is_behind(&counts, &mut first, 0, 0));
    Ok(())
}
