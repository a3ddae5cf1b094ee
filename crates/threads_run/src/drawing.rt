// What is asked next, by chance.
ghost use Rattle.std.specs.Prelude.{◌<◌};

use crate::plan::SHARED;
use crate::random::Random;
use std::alloc::Global;
use tuples::{Change, Condition, Freshness, Refusal, Tuple, Want, Write};

/// Which write of which writer it is, and the highest place that the writer was told.
#[derive(Clone, Copy)]
pub(crate) struct Drawn {
    pub(crate) writer: u64,
    pub(crate) number: u64,
    pub(crate) known: u64,
}

// One of the tuples that writers share.
fn shared(random: &mut Random) -> &'static str {
    SHARED[random.below(20) as usize]
}

/// After the others.
pub(crate) fn add_touch(
    alloc: Global,
    changes: &mut Vec<Change>,
    text: &str,
) -> Result<(), Refusal> {
    changes.reserve(1)?;
    let tuple = Tuple::parse(alloc, text.as_bytes())?;
    changes.push_reserved(Change::Touch(tuple));
    Ok(())
}

/// After the others.
pub(crate) fn add_delete(
    alloc: Global,
    changes: &mut Vec<Change>,
    text: &str,
) -> Result<(), Refusal> {
    changes.reserve(1)?;
    let tuple = Tuple::parse(alloc, text.as_bytes())?;
    changes.push_reserved(Change::Delete(tuple));
    Ok(())
}

fn add_condition(
    alloc: Global,
    conditions: &mut Vec<Condition>,
    text: &str,
    want: Want,
) -> Result<(), Refusal> {
    conditions.reserve(1)?;
    let tuple = Tuple::parse(alloc, text.as_bytes())?;
    conditions.push_reserved(Condition { tuple, want });
    Ok(())
}

// The change that no other write has.
fn add_own(alloc: Global, changes: &mut Vec<Change>, drawn: Drawn) -> Result<(), Refusal> {
    let Drawn { writer, number, .. } = drawn;
    let text = format!(in alloc; "doc:w{writer}_{number}#owner@u0")?;
    add_touch(alloc, changes, text.as_str())
}

// None, one or two changes of tuples that writers share. Two that are alike are refused, and then another write is drawn.
fn add_shared(
    alloc: Global,
    random: &mut Random,
    changes: &mut Vec<Change>,
) -> Result<(), Refusal> {
    for _ in 0..random.below(3) {
        let text = shared(random);
        if random.happens(60) {
            add_touch(alloc, changes, text)?;
        } else {
            add_delete(alloc, changes, text)?;
        }
    }
    Ok(())
}

fn draw_want(random: &mut Random, known: u64) -> Want {
    match random.below(3) {
        0 => Want::Exists,
        1 => Want::Absent,
        _ => Want::NotAfter(draw_place(random, known)),
    }
}

fn fill(
    alloc: Global,
    random: &mut Random,
    drawn: Drawn,
    changes: &mut Vec<Change>,
    conditions: &mut Vec<Condition>,
) -> Result<(), Refusal> {
    add_own(alloc, changes, drawn)?;
    add_shared(alloc, random, changes)?;
    if random.happens(25) {
        let text = shared(random);
        let want = draw_want(random, drawn.known);
        add_condition(alloc, conditions, text, want)?;
    }
    Ok(())
}

/// A write of a tuple of its own, and now and then of others, under a condition.
pub(crate) fn draw_write(
    alloc: Global,
    random: &mut Random,
    drawn: Drawn,
) -> Result<Write, Refusal> {
    let mut changes = Vec::new(alloc);
    let mut conditions = Vec::new(alloc);
    match fill(alloc, random, drawn, &mut changes, &mut conditions) {
        Ok(()) => Write::new(changes, conditions),
        Err(refusal) => Err(refusal),
    }
}

// A place that was told, most often a late one, or now and then one of the future.
fn draw_place(random: &mut Random, known: u64) -> u64 {
    if random.happens(3) {
        return known.saturating_add(90);
    }
    known - random.below(known / 2 + 1)
}

/// How fresh an answer is to be.
pub(crate) fn draw_freshness(random: &mut Random, known: u64) -> Freshness {
    match random.below(4) {
        0 => Freshness::AtLeast(draw_place(random, known)),
        1 => Freshness::Exact(draw_place(random, known)),
        _ => Freshness::Latest,
    }
}
