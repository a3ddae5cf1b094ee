// What is gathered of a read, shard by shard and tupleset by tupleset.
ghost use Rattle.std.specs.Prelude.{◌≡◌, ◌⊎◌, ◌<◌, ◌≤◌, ◌+◌, IfOk, IsTrue, ◌↔◌, Some, None};
ghost use Rattle.calls.specs.Flows.{IfNext};
ghost use Rattle.decisions.specs.Flows.{nothing_read};
ghost use Rattle.answer_flow.specs.Reading.{Continues, Finishes, FlushGives, HeadsGive, CatchUpGives, LacksMemory, Merges, ReadGives, RowsGive};
ghost use Rattle.answer_flow.specs.ReadViews.{IsNext, IsOfUser, at_rest, catch_up as to_catch_up, IsOutOf, IsReadyOf, holding, rows_of, shard_for, view_of, view_out};
ghost use Rattle.answer_flow.specs.declared.read_phase.Out.TheVariants as out_of;
ghost use Rattle.catch_up.specs.CatchingUp.{Fits as FitsCatchUp};

use crate::finding::{Found, find};
use crate::merging::merge;
use crate::read_phase::{AskedRead, Gathered, ReadEnd, Ready};
use calls::{Boxed, Progress, Reply};
use catch_up::{CatchUp, CatchUpCall};
use decisions::Heads;
use shard::ReadReply;
use std::alloc::{AllocError, Global};
use tuples::{Refusal, Shards, Tuple, Tupleset, shard_of};

fn refused(refusal: Refusal) -> Progress<Ready, ReadEnd>
    ensures { result ≡ Progress.Ended (ReadEnd.Refused refusal) }
{
    Progress::Ended(ReadEnd::Refused(refusal))
}

/// The shard that is asked next.
#[tactic(auto, using(tuples::proofs::Named::shard_below))]
pub(crate) fn shard_to_ask(set: &Boxed<Tupleset>, shards: Shards, below: u8) -> u8
    requires within { below < shards }
    ensures value { result ≡ shard_for shards set.now below }
    ensures there { result < shards }
{
    match set.get() {
        Tupleset::Key(tuple) => shard_of(&tuple.object, shards),
        Tupleset::OfObject(object, _) => shard_of(object, shards),
        Tupleset::OfUser(_, _, _) => below,
    }
}

fn copied(alloc: Global, set: &Tupleset) -> Result<Boxed<Tupleset>, AllocError>
    ensures { IfOk result (λ copy. copy ≡ set.now) }
{
    Boxed::new(alloc, set.clone()?)
}

// The shard that is asked next is brought up to the place.
fn bring_up(asked: &AskedRead, gathered: Gathered, set: Boxed<Tupleset>) -> Progress<Ready, ReadEnd>
    requires { IsNext asked.now.shards asked.now.sets.items gathered set }
    ensures view { view_of result ≡ at_rest to_catch_up (holding gathered None) }
    ensures kept { IfNext result (IsReadyOf asked.now.shards asked.now.sets.items) }
{
    let shard = shard_to_ask(&set, asked.shards, gathered.below);
    let catch_up = CatchUp::new(shard, gathered.place);
    Progress::Next(Ready::CatchUp(gathered, set, catch_up))
}

/// The next tupleset; after the last one it ends.
pub(crate) fn go_on(
    asked: &AskedRead,
    place: u64,
    done: Vec<Vec<Tuple>>,
) -> Progress<Ready, ReadEnd>
    ensures goes { Continues asked.now.sets.items place (record nothing_read { place = Some place; done = rows_of done.items }) (view_of result) }
    ensures kept { IfNext result (IsReadyOf asked.now.shards asked.now.sets.items) }
{
    // There is a first shard.
    let _count = asked.shards.count();
    let Some(set) = asked.sets.get(done.len()) else {
        return Progress::Ended(ReadEnd::Answered(place, done));
    };
    match copied(asked.alloc, set) {
        Ok(set) => {
            let rows = Vec::new(asked.alloc);
            let gathered = Gathered {
                place,
                done,
                below: 0,
                rows,
            };
            bring_up(asked, gathered, set)
        }
        Err(_) => refused(Refusal::NoMemory),
    }
}

/// The coordinator has told its heads.
pub(crate) fn told(asked: &AskedRead, answer: Result<Heads, Refusal>) -> Progress<Ready, ReadEnd>
    ensures gives { HeadsGive asked.now.freshness asked.now.sets.items answer (view_of result) }
    ensures kept { IfNext result (IsReadyOf asked.now.shards asked.now.sets.items) }
{
    match answer {
        Ok(heads) => match find(asked.freshness, &heads) {
            Found::At(place) => go_on(asked, place, Vec::new(asked.alloc)),
            Found::Later => Progress::Next(Ready::Flush),
            Found::Refused(refusal) => refused(refusal),
        },
        Err(refusal) => refused(refusal),
    }
}

/// The coordinator was flushed, and is asked again.
pub(crate) fn flushed(asked: &AskedRead, answer: Result<(), Refusal>) -> Progress<Ready, ReadEnd>
    ensures gives { FlushGives answer (view_of result) }
    ensures kept { IfNext result (IsReadyOf asked.now.shards asked.now.sets.items) }
{
    let _asked = asked;
    match answer {
        Ok(()) => Progress::Next(Ready::Heads),
        Err(refusal) => refused(refusal),
    }
}

/// A call of the catch-up was answered.
pub(crate) fn caught_up(
    asked: &AskedRead,
    gathered: Gathered,
    set: Boxed<Tupleset>,
    call: CatchUpCall,
    reply: Reply,
) -> Progress<Ready, ReadEnd>
    requires kept { IsOutOf asked.now.shards asked.now.sets.items (out_of.CatchUp gathered set call) }
    requires fits { FitsCatchUp call.awaited reply }
    ensures gives { CatchUpGives (view_out (out_of.CatchUp gathered set call)) call.awaited reply (view_of result) }
    ensures kept { IfNext result (IsReadyOf asked.now.shards asked.now.sets.items) }
{
    let _asked = asked;
    match call.give(reply) {
        catch_up::Progress::Next(catch_up) => {
            Progress::Next(Ready::CatchUp(gathered, set, catch_up))
        }
        catch_up::Progress::There => Progress::Next(Ready::Read(gathered, set)),
        catch_up::Progress::Refused(refusal) => {
            drop(gathered);
            drop(set);
            refused(refusal)
        }
    }
}

// A tupleset is done.
fn finish_one(
    asked: &AskedRead,
    place: u64,
    mut done: Vec<Vec<Tuple>>,
    rows: Vec<Tuple>,
) -> Progress<Ready, ReadEnd>
    ensures goes { (h : _) → h ≡ record nothing_read { place = Some place; done = rows_of done.items; below = h.below; rows = h.rows } → Finishes asked.now.sets.items place h rows.items (view_of result) }
    ensures kept { IfNext result (IsReadyOf asked.now.shards asked.now.sets.items) }
{
    match done.push(rows) {
        Ok(()) => go_on(asked, place, done),
        Err(_) => refused(Refusal::NoMemory),
    }
}

fn asks_all(set: &Boxed<Tupleset>) -> bool
    ensures { IsTrue result ↔ IsOfUser set.now }
{
    match set.get() {
        Tupleset::Key(_) | Tupleset::OfObject(_, _) => false,
        Tupleset::OfUser(_, _, _) => true,
    }
}

// The rows of one shard more; after the last shard the tupleset is done.
fn gather_more(
    asked: &AskedRead,
    gathered: Gathered,
    set: Boxed<Tupleset>,
    more: Vec<Tuple>,
) -> Progress<Ready, ReadEnd>
    requires next { IsNext asked.now.shards asked.now.sets.items gathered set }
    ensures goes { LacksMemory (view_of result) ⊎ Merges asked.now.shards asked.now.sets.items gathered.place (holding gathered None) more.items (view_of result) }
    ensures kept { IfNext result (IsReadyOf asked.now.shards asked.now.sets.items) }
{
    let Gathered {
        place,
        done,
        below,
        rows,
    } = gathered;
    let Ok(rows) = merge(asked.alloc, rows, more) else {
        drop(done);
        drop(set);
        return refused(Refusal::NoMemory);
    };
    // A number of shards leaves room for one more.
    let _count = asked.shards.count();
    let below = below + 1;
    if asked.shards.has(below) {
        let gathered = Gathered {
            place,
            done,
            below,
            rows,
        };
        return bring_up(asked, gathered, set);
    }
    drop(set);
    finish_one(asked, place, done, rows)
}

// The rows of a shard: those of its object's shard are all of the tupleset.
fn gather(
    asked: &AskedRead,
    gathered: Gathered,
    set: Boxed<Tupleset>,
    more: Vec<Tuple>,
) -> Progress<Ready, ReadEnd>
    requires { IsNext asked.now.shards asked.now.sets.items gathered set }
    ensures goes { RowsGive asked.now.shards asked.now.sets.items gathered.place (holding gathered None) set more.items (view_of result) }
    ensures kept { IfNext result (IsReadyOf asked.now.shards asked.now.sets.items) }
{
    if asks_all(&set) {
        return gather_more(asked, gathered, set, more);
    }
    let Gathered {
        place,
        done,
        below: _,
        rows,
    } = gathered;
    drop(rows);
    drop(set);
    finish_one(asked, place, done, more)
}

/// The shard has read, or has not learned so far.
pub(crate) fn have_read(
    asked: &AskedRead,
    gathered: Gathered,
    set: Boxed<Tupleset>,
    answer: Result<ReadReply, Refusal>,
) -> Progress<Ready, ReadEnd>
    requires { IsNext asked.now.shards asked.now.sets.items gathered set }
    ensures gives { ReadGives asked.now.shards asked.now.sets.items (view_out (out_of.Read gathered)) set answer (view_of result) }
    ensures kept { IfNext result (IsReadyOf asked.now.shards asked.now.sets.items) }
{
    match answer {
        Ok(ReadReply::Rows(rows)) => gather(asked, gathered, set, rows),
        Ok(ReadReply::Behind) => bring_up(asked, gathered, set),
        Err(refusal) => {
            drop(gathered);
            drop(set);
            refused(refusal)
        }
    }
}
