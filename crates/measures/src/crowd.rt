// How long a check takes to look into a userset of many plain users.
ghost use Rattle.std.specs.Prelude.{◌≡◌, IfOk};
ghost use Rattle.measures.specs.Reads.{FoundForCheck};

use crate::changes::push_touches;
use crate::timing::{now, print_since};
use std::alloc::{AllocError, Global};
use std::rt::Clock;
use tuples::{Change, Refusal, Tuple, Userset};
use versions::{Budget, Versions};

// How many usersets the userset holds.
const USERSETS: u32 = 10;

// How often it is asked.
const READS: u64 = 1000;

/// Gives a userset this many plain users and ten usersets, and asks of it what a check asks, for one of the users (`check`), and prints
/// how long it took. Its answer is how many tuples were found.
pub fn measure(rt: &(impl Clock + Eprint), alloc: Global, users: u32) -> Result<(), Refusal> {
    let asked = Tuple::parse(alloc, b"doc:d#viewer@u0")?;
    let mut versions = Versions::new(alloc);
    let mut changes = Vec::new(alloc);
    let measured = measure_in(rt, alloc, &mut versions, &mut changes, &asked, users);
    drop(asked);
    measured
}

// What is measured is borrowed, since each exit of a function that owns it is proved.
fn measure_in(
    rt: &(impl Clock + Eprint),
    alloc: Global,
    versions: &mut Versions,
    changes: &mut Vec<Change>,
    asked: &Tuple,
    users: u32,
) -> Result<(), Refusal> {
    apply(alloc, versions, changes, users)?;
    let start = now(rt);
    let tuples = ask(alloc, versions, asked);
    print_since(rt, "check", start, READS, tuples)
}

fn apply(
    alloc: Global,
    versions: &mut Versions,
    changes: &mut Vec<Change>,
    users: u32,
) -> Result<(), Refusal> {
    push_touches(alloc, changes, users, "doc:d#viewer@u", "")?;
    push_touches(alloc, changes, USERSETS, "doc:d#viewer@group:g", "#member")?;
    versions.apply(1, changes)?;
    Ok(())
}

// How many tuples the last of all reads found.
fn ask(alloc: Global, versions: &Versions, asked: &Tuple) -> Result<u64, Refusal> {
    let mut tuples = 0;
    for _ in 0..READS {
        tuples = found(alloc, versions, asked)?;
    }
    Ok(tuples as u64)
}

fn userset_of(asked: &Tuple) -> Result<Userset, AllocError>
    ensures { IfOk result (λ s. s ≡ record { object = asked.now.object; relation = asked.now.relation }) }
{
    Ok(Userset {
        object: asked.object.clone()?,
        relation: asked.relation.clone()?,
    })
}

// How many tuples a check finds at the userset of this tuple, for its user.
fn found(alloc: Global, versions: &Versions, asked: &Tuple) -> Result<usize, AllocError>
    ensures { IfOk result (λ n. FoundForCheck versions.now 1 asked.now n) }
{
    let userset = userset_of(asked)?;
    let tuples = versions.asked_at(alloc, 1, &userset, &asked.user, &mut Budget::unbounded());
    drop(userset);
    Ok(tuples?.len())
}
