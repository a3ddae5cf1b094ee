// The versions of one memory that are a node's.
ghost use Rattle.std.specs.Prelude.{◌≡◌, ◌∷◌, [], List, MatchOption};
ghost use Rattle.reshard.specs.Merging.{is_lower as stands_lower, left_of, version_at};
ghost use Rattle.tuples.specs.Parts.{is_of};
ghost use Rattle.tuples.specs.Versions.{of_shard};
ghost use Rattle.tuples.specs.declared.version.Version.{Version as AnyVersion};
ghost use Rattle.versions.specs.Rows.{version_cmp};

use records::Identity;
use replay::Memory;
use std::cmp::Ordering;
use std::marker::Model;
use tuples::Packed;
use versions::{Row, Walk};

/// A version, named by where it lies.
#[derive(Clone, Copy)]
pub(crate) struct Head<'a> {
    pub tuple: &'a Packed,
    pub row: Row,
}

/// The versions of a memory that are the node's and are left, the first of them at hand.
#[derive(Drop)]
pub(crate) struct Own<'a> {
    first: Option<Head<'a>>,
    walk: Walk<'a>,
    me: Identity,
}

impl<'a> Model for Own<'a> {
    ghost use Rattle.std.specs.Prelude.{List};
    ghost use Rattle.reshard.specs.Merging.{left_of};
    ghost use Rattle.tuples.specs.Versions.{of_shard};
    ghost use Rattle.tuples.specs.declared.version.Version.{Version as AnyVersion};

    ghost Value = { List AnyVersion };

    ghost view = { λ o. left_of o.first (of_shard o.me.shards o.me.node o.walk) };
}

// Whether the tuple is the node's.
fn is_own(tuple: &Packed, me: Identity) -> bool
    ensures { result ≡ is_of me.shards me.node tuple.now }
{
    tuple.shard(me.shards()) == me.node()
}

// The next version that is the node's.
fn next_own<'a>(walk: &mut Walk<'a>, me: Identity) -> Option<Head<'a>>
    ensures { of_shard me.shards me.node walk.old ≡ left_of result (of_shard me.shards me.node walk.new) }
{
    while let Some((tuple, row)) = walk.next() {
        if is_own(tuple, me) {
            return Some(Head { tuple, row });
        }
    }
    None
}

impl<'a> Own<'a> {
    /// All versions of the memory that are the node's.
    pub fn new(memory: &'a Memory, me: Identity) -> Own<'a>
        ensures { result ≡ of_shard me.shards me.node memory.now.rows }
    {
        let mut walk = memory.walk();
        let first = next_own(&mut walk, me);
        Own { first, walk, me }
    }

    /// The next version; moves past it.
    pub fn next(&mut self) -> Option<Head<'a>>
        ensures { MatchOption result ((self.old ≡ []) × (self.new ≡ [])) (λ h. self.old ≡ version_at h ∷ self.new) }
    {
        let first = self.first;
        if first.is_some() {
            self.first = next_own(&mut self.walk, self.me);
        }
        first
    }
}

fn compare(a: Head<'_>, b: Head<'_>) -> Ordering
    ensures { result ≡ version_cmp (version_at a.entry) (version_at b.entry) }
{
    let tuples = a.tuple.cmp(b.tuple);
    tuples.then(a.row.place.cmp(&b.row.place))
}

/// Whether the first version of the one is below that of the other, by tuple and then by place. One without any counts as above all others.
pub(crate) fn is_lower(a: &Own<'_>, b: &Own<'_>) -> bool
    ensures { result ≡ stands_lower a.now b.now }
{
    match (a.first, b.first) {
        (Some(a), Some(b)) => compare(a, b).is_lt(),
        (Some(_), None) => true,
        (None, _) => false,
    }
}
