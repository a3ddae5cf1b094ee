// Two callers, one of whom is told what the other was told, and two more who are told nothing.
use crate::findings::Findings;
use crate::opening::FAILED;
use crate::single::{Deed, has, tell_refusal, watch, write};
use device::Device;
use locked::{Caller, Gate, Store};
use sides::Room;
use std::alloc::Global;
use std::rt::Runtime;
use std::sync::Wait;
use std::thread::{self, Threads};
use tuples::{Change, Freshness, Refusal, Version};

// The tuple that A writes.
const TUPLE: &str = "doc:a#viewer@u1";

// B, whom A tells, and what it found.
#[derive(Drop)]
struct Friend<B: Room> {
    caller: Caller<B>,
    findings: Findings,
}

// Two who are told nothing, and what they found.
#[derive(Drop)]
struct Strangers<B: Room> {
    third: Caller<B>,
    fourth: Caller<B>,
    findings: Findings,
}

// What B sees: the latest place, and where the tuple was asked for and whether it was there, at latest and at the place of the write.
#[derive(Drop)]
struct Sights {
    latest: u64,
    at_latest: (u64, bool),
    at_place: (u64, bool),
}

// What B sees of the write at the place.
fn b_sees<D: Device, B: Room, G: Gate, R: Wait>(
    rt: &R,
    alloc: Global,
    store: &Store<D, B, G>,
    caller: &mut Caller<B>,
    place: u64,
) -> Result<Sights, Refusal> {
    let latest = store.latest(caller);
    let at_latest = has(rt, alloc, store, caller, Freshness::Latest, TUPLE)?;
    let at_place = has(rt, alloc, store, caller, Freshness::Exact(place), TUPLE)?;
    Ok(Sights {
        latest,
        at_latest,
        at_place,
    })
}

// What has to be so of it.
fn find_sights(findings: &mut Findings, seen: &Sights, place: u64) {
    findings.find(seen.latest >= place, "B's latest is at least the place");
    let (at, there) = seen.at_latest;
    findings.find(at >= place && there, "B reads the tuple at latest");
    let (at, there) = seen.at_place;
    findings.find(at == place && there, "B reads the tuple at the place");
}

// What the strangers see of it.
fn strangers_see<D: Device, B: Room, G: Gate, R: Wait>(
    rt: &R,
    alloc: Global,
    store: &Store<D, B, G>,
    strangers: &mut Strangers<B>,
    place: u64,
) -> Result<(), Refusal> {
    let Strangers {
        third,
        fourth,
        findings,
    } = strangers;
    let (at, there) = has(rt, alloc, store, third, Freshness::AtLeast(place), TUPLE)?;
    findings.find(
        at >= place && there,
        "a third, who was told nothing, reads the tuple at the place or behind it",
    );
    let (at, events) = watch(rt, alloc, store, fourth, place)?;
    findings.find(
        at == place && events.is_empty(),
        "a fourth, who was told nothing, watches from the place, and nothing lies behind it",
    );
    Ok(())
}

fn has_touch_at(events: &[Version], place: u64) -> bool {
    for event in events {
        if let Change::Touch(_) = event.change {
            if event.place == place {
                return true;
            }
        }
    }
    false
}

// What B sees of the write at the place, if another one at `gone` deleted the tuple.
fn b_sees_behind<D: Device, B: Room, G: Gate, R: Wait>(
    rt: &R,
    alloc: Global,
    store: &Store<D, B, G>,
    b: &mut Friend<B>,
    place: u64,
    gone: u64,
) -> Result<(), Refusal> {
    let Friend { caller, findings } = b;
    let (at, there) = has(rt, alloc, store, caller, Freshness::Latest, TUPLE)?;
    findings.find(
        at >= gone && !there,
        "behind a further write B reads at latest that the tuple is gone",
    );
    let (at, there) = has(rt, alloc, store, caller, Freshness::Exact(place), TUPLE)?;
    findings.find(at == place && there, "B still reads the tuple at the place");
    let (at, events) = watch(rt, alloc, store, caller, place.saturating_sub(1))?;
    findings.find(
        at >= gone && has_touch_at(&events, place),
        "B's watch from before the place lists the write",
    );
    Ok(())
}

// A writes while B, on another thread, reads what there is.
fn a_writes<
    D: Device + Send + Sync,
    B: Room + Send + Sync,
    G: Gate + Sync,
    R: Threads + Wait + Sync,
>(
    rt: &R,
    alloc: Global,
    store: &Store<D, B, G>,
    a: &mut Caller<B>,
    b: &mut Caller<B>,
    deed: Deed,
) -> Result<u64, Refusal> {
    let (place, read) = thread::join(
        rt,
        || write(rt, alloc, store, a, deed, TUPLE),
        || has(rt, alloc, store, b, Freshness::Latest, TUPLE),
    );
    let _ = read?;
    place
}

// B looks beside the strangers.
fn all_look<
    D: Device + Send + Sync,
    B: Room + Send + Sync,
    G: Gate + Sync,
    R: Threads + Wait + Sync,
>(
    rt: &R,
    alloc: Global,
    store: &Store<D, B, G>,
    b: &mut Friend<B>,
    strangers: &mut Strangers<B>,
    place: u64,
) -> Result<(), Refusal> {
    let Friend { caller, findings } = b;
    let (seen, strange) = thread::join(
        rt,
        || b_sees(rt, alloc, store, caller, place),
        || strangers_see(rt, alloc, store, strangers, place),
    );
    find_sights(findings, &seen?, place);
    strange
}

// A writes and tells B, who looks.
fn play<D: Device + Send + Sync, B: Room + Send + Sync, G: Gate + Sync, R: Threads + Wait + Sync>(
    rt: &R,
    alloc: Global,
    store: &Store<D, B, G>,
    a: &mut Caller<B>,
    b: &mut Friend<B>,
    strangers: &mut Strangers<B>,
) -> Result<(), Refusal> {
    let place = a_writes(rt, alloc, store, a, &mut b.caller, Deed::Touch)?;
    store.tell(a, &mut b.caller);
    all_look(rt, alloc, store, b, strangers, place)?;
    let gone = a_writes(rt, alloc, store, a, &mut b.caller, Deed::Delete)?;
    store.tell(a, &mut b.caller);
    b_sees_behind(rt, alloc, store, b, place, gone)
}

/// Plays it, and prints what was found. Returns the status.
pub(crate) fn run<
    D: Device + Send + Sync,
    B: Room + Send + Sync,
    G: Gate + Sync,
    R: Runtime + Threads + Wait + Sync,
>(rt: &R, alloc: Global, store: &Store<D, B, G>) -> u8 {
    let mut a = store.session(rt);
    let mut b = Friend {
        caller: store.session(rt),
        findings: Findings::new(alloc),
    };
    let mut strangers = Strangers {
        third: store.session(rt),
        fourth: store.session(rt),
        findings: Findings::new(alloc),
    };
    let played = play(rt, alloc, store, &mut a, &mut b, &mut strangers);
    let status = b.findings.print(rt) | strangers.findings.print(rt);
    match played {
        Ok(()) => status,
        Err(refusal) => {
            tell_refusal(rt, refusal);
            FAILED
        }
    }
}
