// A session's pass that rests on a word, from which threads take it in turn.
ghost use Rattle.std.specs.Prelude.{◌≡◌, [], max, IfSome};
ghost use mathlib.Core.List.{IsPrefix};

use crate::pass::SessionPass;
use crate::rule::View;
use crate::words::Published;
use atomic_table::{Perch, Seat};
use crossbeam_utils::CachePadded;
use std::hint::spin_loop;
use std::marker::Model;
use std::sync::Wait;
use std::thread;

// What the word of a perch says: somebody has what rests there, or it rests.
const TAKEN: u64 = 0;

const RESTS: u64 = 2;

// How often what rests is looked for before the caller yields its processor. A copy takes some tens of nanoseconds.
const TRIES: u32 = 100;

/// A session's pass, as for what lies under a lock that many may hold at once. A thread that learns from it takes it for the few instructions of a copy, since
/// only the holder of a pass can copy it.
#[derive(Drop)]
pub struct RestingPass<W> {
    // nothing else shares its word's cache line
    perch: CachePadded<Perch<(), View<W>>>,
}

impl<W> Model for RestingPass<W> {
    ghost use Rattle.std.specs.Prelude.{◌≡◌, false};
    ghost use Rattle.crossbeam_utils.specs.Padded.{padded_value};
    ghost use Rattle.published.specs.Known.{Known};

    ghost Value = { Known W };

    ghost view = { λ p. let perch = padded_value p.perch in record { table = perch.table_id; seen = perch.view.seen; horizon = perch.view.horizon } };

    ghost invariant = { λ p. let perch = padded_value p.perch in (perch.view.leads ≡ false) × (perch.view.told_horizon ≡ 0) };
}

// What rests there, unless somebody has it for long.
fn try_seat<W>(perch: &Perch<(), View<W>>) -> Option<Seat<(), View<W>>>
    ensures { IfSome result (λ seat. (seat.table_id ≡ perch.now.table_id) × (seat.me ≡ (perch.now.view, []))) }
{
    for _ in 0..TRIES {
        if let (_, Some(seat)) = perch.take(TAKEN) {
            return Some(seat);
        }
        spin_loop();
    }
    None
}

// What rests there, taken once nobody has it.
fn take_seat<W, R: Wait>(rt: &R, perch: &Perch<(), View<W>>) -> Seat<(), View<W>>
    ensures { (result.table_id ≡ perch.now.table_id) × (result.me ≡ (perch.now.view, [])) }
{
    for _ in rt.forever() {
        if let Some(seat) = try_seat(perch) {
            return seat;
        }
        // Its holder waits for a processor.
        thread::yield_now();
    }
    unreachable!()
}

// It rests again. Only its holder can say so, and so the perch takes it.
fn rest<W>(perch: &Perch<(), View<W>>, seat: Seat<(), View<W>>)
    requires { (seat.table_id ≡ perch.now.table_id) × (seat.me ≡ (perch.now.view, [])) }
{
    let _ = perch.give(seat, TAKEN, RESTS);
}

impl<W> RestingPass<W> {
    /// From a session's pass.
    pub fn new(pass: SessionPass<W>) -> RestingPass<W>
        ensures { result ≡ pass }
    {
        let SessionPass { seat, lane: _ } = pass;
        let perch = Perch::new(&seat, TAKEN);
        rest(&perch, seat);
        RestingPass {
            perch: CachePadded::new(perch),
        }
    }

    /// The session's pass. A new one has to replace it, since there is none then: whoever asks waits forever.
    pub fn take<R: Wait>(&mut self, rt: &R) -> SessionPass<W>
        ensures pass { result ≡ self.old }
    {
        SessionPass {
            seat: take_seat(rt, &self.perch),
            lane: 0,
        }
    }

    /// The session's pass learns what this one has seen, which others may tell meanwhile.
    pub(crate) fn tell<R: Wait>(&self, rt: &R, words: &Published<W>, pass: &mut SessionPass<W>)
        requires { (self.now.table ≡ words.now) × (pass.old.table ≡ words.now) }
        ensures same { pass.new.table ≡ pass.old.table }
        ensures seen { IsPrefix pass.old.seen pass.new.seen }
        ensures told { IsPrefix self.now.seen pass.new.seen }
        ensures horizon { pass.new.horizon ≡ max pass.old.horizon self.now.horizon }
    {
        let mut seat = take_seat(rt, &self.perch);
        let note = words.copy(&mut seat);
        rest(&self.perch, seat);
        let lane = pass.lane;
        words.learn(pass, SessionPass { seat: note, lane });
    }
}
