// The two words, and the calls on them.
ghost use Rattle.std.specs.Prelude.{◌≡◌, ◌≤◌, ◌+◌, ◌++◌, ◌<◌, [], length, max, IfOk};
ghost use mathlib.Core.List.{IsPrefix};
ghost use Rattle.published.specs.Tells.{note};

use crate::pass::{LogPass, SessionPass};
use crate::rule::{OneList, View};
use crate::steps::{Adds, Advances, LoadsHorizon, LoadsPlace, Notes, Raises};
use atomic_table::{Seat, Table};
use std::alloc::{AllocError, Global};
use std::marker::Model;

const SAFE_PLACE: usize = 0;

const HORIZON: usize = 1;

/// The safe place and the horizon. A pass belongs to the words that it came from, and contracts see which.
#[derive(Drop)]
pub struct Published<W> {
    table: Table<(), View<W>, (), OneList, Global>,
}

impl<W> Model for Published<W> {
    ghost use Rattle.std.specs.Prelude.{◌≡◌};
    ghost use Rattle.atomic_table.specs.Seated.{TableId};

    ghost Value = { TableId };

    ghost view = { λ p. p.table.shared.table_id };

    ghost invariant = { λ p. p.table.shared.table_id.words ≡ 2 };
}

impl<W> Published<W> {
    /// Both words are 0, and nothing was seen.
    pub fn new(alloc: Global) -> Result<(Published<W>, LogPass<W>), AllocError>
        ensures { IfOk result (λ r. (r.1.table ≡ r.0) × (r.1.seen ≡ []) × (r.1.horizon ≡ 0)) }
    {
        let (table, seat) = Table::of_words(alloc, &[0, 0], &())?;
        Ok((Published { table }, LogPass { seat, sessions: 0 }))
    }

    /// The safe place, by one load. The pass has then seen that many writes.
    pub fn latest(&self, pass: &mut SessionPass<W>) -> u64
        requires { pass.old.table ≡ self.now }
        ensures same { (pass.new.table ≡ pass.old.table) × (pass.new.horizon ≡ pass.old.horizon) }
        ensures later { IsPrefix pass.old.seen pass.new.seen }
        ensures length { length pass.new.seen ≡ result }
        ensures rises { length pass.old.seen ≤ result }
        ensures below { pass.new.horizon ≤ result }
    {
        self.table
            .shared
            .load::<LoadsPlace>(&mut pass.seat, SAFE_PLACE)
    }

    /// The horizon, by one load. The pass has then seen at least that many writes.
    pub fn horizon(&self, pass: &mut SessionPass<W>) -> u64
        requires { pass.old.table ≡ self.now }
        ensures same { pass.new.table ≡ pass.old.table }
        ensures later { IsPrefix pass.old.seen pass.new.seen }
        ensures below { result ≤ length pass.new.seen }
        ensures rises { pass.old.horizon ≤ result }
        ensures known { pass.new.horizon ≡ result }
    {
        self.table
            .shared
            .load::<LoadsHorizon>(&mut pass.seat, HORIZON)
    }

    /// Adds writes to the list, and moves the safe place to its end, by one step.
    pub fn advance<A: Adds<W>>(&self, log: &mut LogPass<W>, place: u64)
        requires own { log.old.table ≡ self.now }
        requires place { place ≡ length log.old.seen + length A.added }
        ensures same { (log.new.table ≡ log.old.table) × (log.new.horizon ≡ log.old.horizon) }
        ensures added { log.new.seen ≡ log.old.seen ++ A.added }
    {
        self.table
            .shared
            .fetch_max::<Advances<A>>(&mut log.seat, SAFE_PLACE, place);
    }

    /// Raises the horizon to this place, if it is below.
    pub fn raise(&self, log: &mut LogPass<W>, place: u64)
        requires own { log.old.table ≡ self.now }
        requires place { place ≤ length log.old.seen }
        ensures same { (log.new.table ≡ log.old.table) × (log.new.seen ≡ log.old.seen) }
        ensures raised { log.new.horizon ≡ max log.old.horizon place }
    {
        self.table
            .shared
            .fetch_max::<Raises>(&mut log.seat, HORIZON, place);
    }

    /// How long the list is, by one load.
    pub fn length(&self, log: &mut LogPass<W>) -> u64
        requires { log.old.table ≡ self.now }
        ensures same { log.new ≡ log.old }
        ensures length { result ≡ length log.old.seen }
        ensures below { log.old.horizon ≤ result }
    {
        self.table
            .shared
            .load::<LoadsPlace>(&mut log.seat, SAFE_PLACE)
    }

    /// A new pass, which has seen what the log's pass has.
    pub fn session(&self, log: &mut LogPass<W>) -> SessionPass<W>
        requires { log.old.table ≡ self.now }
        ensures same { log.new ≡ log.old }
        ensures session { result ≡ log.old }
    {
        log.sessions = log.sessions.wrapping_add(1);
        SessionPass {
            seat: self.copy(&mut log.seat),
            lane: log.sessions,
        }
    }

    /// The pass learns what the log's pass has seen, which is all that there is.
    pub fn meet(&self, log: &mut LogPass<W>, pass: &mut SessionPass<W>)
        requires { (log.old.table ≡ self.now) × (pass.old.table ≡ self.now) }
        ensures same { (log.new ≡ log.old) × (pass.new.table ≡ pass.old.table) }
        ensures all { pass.new.seen ≡ log.old.seen }
        ensures seen { IsPrefix pass.old.seen log.old.seen }
        ensures horizon { (pass.new.horizon ≡ log.old.horizon) × (pass.old.horizon ≤ log.old.horizon) }
        ensures below { log.old.horizon ≤ length log.old.seen }
    {
        let note = self.copy(&mut pass.seat);
        let table = &self.table.shared;
        table.join_seat::<Notes>(&mut log.seat, note);
        // Only a load makes known what the note says: what the session had seen is a beginning of the list.
        table.load::<LoadsPlace>(&mut log.seat, SAFE_PLACE);
        pass.seat = self.copy(&mut log.seat);
    }

    /// Each pass learns what the other has seen.
    pub fn share(&self, one: &mut SessionPass<W>, other: &mut SessionPass<W>)
        requires { (one.old.table ≡ self.now) × (other.old.table ≡ self.now) }
        ensures same { (one.new.table ≡ one.old.table) × (other.new.table ≡ other.old.table) }
        ensures one { IsPrefix one.old.seen one.new.seen × IsPrefix other.old.seen one.new.seen }
        ensures other { IsPrefix one.old.seen other.new.seen × IsPrefix other.old.seen other.new.seen }
        ensures horizon { (one.new.horizon ≡ max one.old.horizon other.old.horizon) × (other.new.horizon ≡ max one.old.horizon other.old.horizon) }
    {
        let note = self.note(one);
        let answer = self.note(other);
        self.learn(one, answer);
        self.learn(other, note);
    }

    // A seat that knows what this one does.
    pub(crate) fn copy(&self, seat: &mut Seat<(), View<W>>) -> Seat<(), View<W>>
        requires { seat.old.table_id ≡ self.now }
        ensures same { (seat.new.table_id ≡ seat.old.table_id) × (seat.new.me ≡ seat.old.me) }
        ensures copy { (result.table_id ≡ seat.old.table_id) × (result.me ≡ (note seat.old.me.0, [])) }
    {
        self.table.shared.split_seat::<Notes>(seat)
    }

    /// A new pass, which has seen what this pass has, and learns from the same copy of a shared pass.
    pub fn note(&self, pass: &mut SessionPass<W>) -> SessionPass<W>
        requires { pass.old.table ≡ self.now }
        ensures same { pass.new ≡ pass.old }
        ensures note { result ≡ pass.old }
    {
        SessionPass {
            seat: self.copy(&mut pass.seat),
            lane: pass.lane,
        }
    }

    // The pass learns what the note has seen, by one load.
    pub(crate) fn learn(&self, pass: &mut SessionPass<W>, note: SessionPass<W>)
        requires { (pass.old.table ≡ self.now) × (note.table ≡ self.now) }
        ensures same { pass.new.table ≡ pass.old.table }
        ensures seen { IsPrefix pass.old.seen pass.new.seen }
        ensures told { IsPrefix note.seen pass.new.seen }
        ensures horizon { pass.new.horizon ≡ max pass.old.horizon note.horizon }
    {
        let SessionPass {
            seat: other,
            lane: _,
        } = note;
        let table = &self.table.shared;
        table.join_seat::<Notes>(&mut pass.seat, other);
        table.load::<LoadsPlace>(&mut pass.seat, SAFE_PLACE);
    }
}
