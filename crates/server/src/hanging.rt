// Lines on standard error while a disk does not answer.
ghost use Rattle.std.specs.Prelude.{◌<◌};

use crate::named::Named;
use crate::stamp::Stamp;
use files::Pulse;
use names::NodeName;
use std::alloc::Global;
use std::io::Eprint;
use std::sync::Arc;
use std::time::{Clock, Duration, Instant};
use tuples::MAX_SHARDS;

// Those of the largest store: two for each node, of which one is the coordinator.
const FILES: usize = 2 * (MAX_SHARDS as usize + 1);

// It is looked so often at most.
const SECONDS_A_LOOK: u64 = 1;

// A call that lasts so long is told, and then again each minute.
const SLOW_SECONDS: u64 = 10;

const MINUTE_SECONDS: u64 = 60;

// The call of a file that is under way.
#[derive(Clone, Copy)]
struct Call {
    number: u64,
    // when it was first seen
    seen: Instant,
    // when it was last told that it lasts
    told: Option<Instant>,
}

/// Looks now and then whether a call of a file lasts, and tells of those that do.
#[derive(Drop)]
pub(crate) struct Hanging<'a> {
    pulses: &'a [Arc<Pulse, Global>],
    calls: [Option<Call>; FILES],
    looked: Option<Instant>,
}

impl<'a> Hanging<'a> {
    /// None is under way.
    pub(crate) fn new(pulses: &'a [Arc<Pulse, Global>]) -> Hanging<'a> {
        Hanging {
            pulses,
            calls: [None; FILES],
            looked: None,
        }
    }

    /// Looks, if it has not looked within the last second. If the clock can't be read nothing is told.
    pub(crate) fn look(&mut self, rt: &(impl Eprint + Clock)) {
        let Ok(now) = Instant::now(rt) else {
            return;
        };
        if is_within(self.looked, now, SECONDS_A_LOOK) {
            return;
        }
        self.looked = Some(now);
        for file in 0..FILES {
            let Some(pulse) = self.pulses.get(file) else {
                return;
            };
            self.calls[file] = looked_at(rt, now, node_of(file), self.calls[file], pulse.call());
        }
    }
}

// Whether that was less than so many seconds ago.
fn is_within(before: Option<Instant>, now: Instant, seconds: u64) -> bool {
    match before {
        Some(before) => now.duration_since(before) < Duration::from_secs(seconds),
        None => false,
    }
}

// Whose file it is, of two for each node.
fn node_of(file: usize) -> NodeName
    requires { file < FILES }
{
    match file / 2 {
        0 => NodeName::Coordinator,
        number => NodeName::Shard((number - 1) as u8),
    }
}

// What is known of a file whose call was this one, and which has a call of this number under way now, or none if that is 0.
fn looked_at(
    rt: &(impl Eprint + Clock),
    now: Instant,
    node: NodeName,
    before: Option<Call>,
    number: u64,
) -> Option<Call> {
    if let Some(call) = before {
        if call.number == number {
            return Some(lasting(rt, now, node, call));
        }
        if call.told.is_some() {
            tell_answer(rt, now, node, call);
        }
    }
    if number == 0 {
        return None;
    }
    Some(Call {
        number,
        seen: now,
        told: None,
    })
}

// A call that lasts, and whether that is told.
fn lasting(rt: &(impl Eprint + Clock), now: Instant, node: NodeName, call: Call) -> Call {
    if is_within(Some(call.seen), now, SLOW_SECONDS) || is_within(call.told, now, MINUTE_SECONDS) {
        return call;
    }
    let seconds = now.duration_since(call.seen).as_secs();
    let (stamp, node) = (Stamp::now(rt), Named(node));
    // Nothing depends on the line, so that it can't be printed keeps nobody from being served.
    let _ = eprintln!(rt; "zanstore: {stamp}{node}: its disk has not answered for {seconds} s");
    Call {
        number: call.number,
        seen: call.seen,
        told: Some(now),
    }
}

fn tell_answer(rt: &(impl Eprint + Clock), now: Instant, node: NodeName, call: Call) {
    let seconds = now.duration_since(call.seen).as_secs();
    let (stamp, node) = (Stamp::now(rt), Named(node));
    let _ = eprintln!(rt; "zanstore: {stamp}{node}: its disk answers again, after {seconds} s");
}
