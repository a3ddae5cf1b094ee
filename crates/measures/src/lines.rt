// How many request lines a session answers, over memory, if what it asks costs nothing.
use crate::timing::{now, print_since};
use json_lines::{Events, Membership, Rows, Written};
use sessions::{Answers, serve_stream};
use std::alloc::{AllocError, Global};
use std::rt::Clock;
use tuples::{Freshness, Namespace, Refusal, Tuple, Tupleset, Write};

const PLACE: u64 = 1;

/// The request of each line.
#[derive(Clone, Copy)]
pub enum Kind {
    Write,
    Read,
    Check,
    Watch,
}

impl Kind {
    // A request of two tuples, tuplesets or namespaces if it takes several, and of a zookie.
    fn line(self) -> &'static str {
        match self {
            Kind::Write => {
                r#"{"op":"write","changes":[{"op":"touch","tuple":"doc:d1#viewer@u1"},{"op":"delete","tuple":"doc:d2#viewer@group:g1#member"}],"conditions":[{"tuple":"doc:d1#lock@lock","since":"AQAAAAAAAAAAAQAAAAAAAAAB"}]}"#
            }
            Kind::Read => {
                r#"{"op":"read","sets":["doc:d1","doc#viewer@u1"],"at_least":"AQAAAAAAAAAAAQAAAAAAAAAB"}"#
            }
            Kind::Check => {
                r#"{"op":"check","tuple":"doc:d1#viewer@u1","exact":"AQAAAAAAAAAAAQAAAAAAAAAB"}"#
            }
            Kind::Watch => {
                r#"{"op":"watch","from":"AQAAAAAAAAAAAQAAAAAAAAAB","limit":256,"namespaces":["doc","group"]}"#
            }
        }
    }
}

// Answers at once, and counts what it was asked.
#[derive(Drop)]
struct Idle {
    alloc: Global,
    asked: u64,
}

impl Idle {
    fn count(&mut self) {
        self.asked = self.asked.saturating_add(1);
    }
}

impl Answers for Idle {
    ghost store = { 1 };

    ghost gives = { λ a request reply b. Unit {0} };

    fn store_id(&self) -> u64 {
        1
    }

    fn write(&mut self, _write: Write) -> Result<Written, Refusal> {
        self.count();
        Ok(Written { place: PLACE })
    }

    fn read(&mut self, _freshness: Freshness, _sets: Vec<Tupleset>) -> Result<Rows, Refusal> {
        self.count();
        Ok(Rows {
            sets: Vec::new(self.alloc),
            place: PLACE,
        })
    }

    fn check(&mut self, _freshness: Freshness, _tuple: Tuple) -> Result<Membership, Refusal> {
        self.count();
        Ok(Membership {
            is_member: true,
            place: PLACE,
        })
    }

    fn watch(
        &mut self,
        _from: u64,
        _limit: u16,
        _namespaces: Vec<Namespace>,
    ) -> Result<Events, Refusal> {
        self.count();
        Ok(Events {
            events: Vec::new(self.alloc),
            heartbeat: PLACE,
        })
    }
}

// This many lines of this kind.
fn push_lines(input: &mut Vec<u8>, kind: Kind, count: u32) -> Result<(), AllocError> {
    for _ in 0..count {
        input.extend_from_slice(kind.line().as_bytes())?;
        input.extend_from_slice(b"\n")?;
    }
    Ok(())
}

/// Answers this many lines of one kind, and prints how long they took. Its answer is how many were asked, and the bytes of the answers.
pub fn measure(
    rt: &(impl Clock + Eprint),
    alloc: Global,
    kind: Kind,
    count: u32,
) -> Result<(), Refusal> {
    let mut input = Vec::new(alloc);
    push_lines(&mut input, kind, count)?;
    let mut idle = Idle { alloc, asked: 0 };
    let mut output = Vec::new(alloc);
    measure_in(rt, alloc, &input, &mut output, &mut idle, count)
}

// What is measured is borrowed, since each exit of a function that owns it is proved.
fn measure_in(
    rt: &(impl Clock + Eprint),
    alloc: Global,
    input: &[u8],
    output: &mut Vec<u8>,
    idle: &mut Idle,
    count: u32,
) -> Result<(), Refusal> {
    let mut rest = input;
    let start = now(rt);
    if serve_stream(alloc, &mut rest, output, idle).is_err() {
        return Err(Refusal::Down);
    }
    let answer = idle.asked.saturating_add(output.len() as u64);
    print_since(rt, "lines", start, u64::from(count), Ok(answer))
}
