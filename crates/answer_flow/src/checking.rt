// What a check makes of the answers to its calls.
ghost use Rattle.std.specs.Prelude.{◌≡◌, ◌≢◌, ◌⊎◌, ◌≤◌, ◌<◌, ◌↔◌, [], IfOk, IsTrue, Contains, MatchOption, Some, None, false};
ghost use Rattle.calls.specs.Flows.{IfNext};
ghost use Rattle.names.specs.declared.call_name.CallName.TheVariants as names;
ghost use Rattle.tuples.specs.Checking.{holding};
ghost use Rattle.tuples.specs.Parts.{shard_of as shard_number};
ghost use Rattle.answer_flow.specs.Checking.{CatchUpGives, Continues, FlushGives, HeadsGive, LacksMemory, ReadGives, RowsGive};
ghost use Rattle.answer_flow.specs.CheckViews.{IsFirst, IsOutOf, IsReadyOf, at_rest, catch_up as to_catch_up, checked, ended, holding_walk, name_ready, read as to_read, view_of, view_out};
ghost use Rattle.answer_flow.specs.declared.check_phase.Out.TheVariants as out_of;
ghost use Rattle.catch_up.specs.CatchingUp.{Fits as FitsCatchUp};

use crate::check_phase::{AskedCheck, CheckEnd, Question, Ready};
use crate::finding::{Found, find};
use crate::walk::{Walk, has_user};
use calls::{Boxed, Progress, Reply};
use catch_up::{CatchUp, CatchUpCall};
use decisions::Heads;
use shard::ReadReply;
use std::alloc::{AllocError, Global};
use tuples::{MAX_WALKED, Refusal, Shards, Tuple, User, Userset, shard_of};

fn refused(refusal: Refusal) -> Progress<Ready, CheckEnd>
    ensures { result ≡ Progress.Ended (CheckEnd.Refused refusal) }
{
    Progress::Ended(CheckEnd::Refused(refusal))
}

fn answered(place: u64, is_member: bool) -> Progress<Ready, CheckEnd>
    ensures { result ≡ Progress.Ended (CheckEnd.Answered place is_member) }
{
    Progress::Ended(CheckEnd::Answered(place, is_member))
}

/// The shard that keeps the rows of a userset.
#[tactic(auto, using(tuples::proofs::Named::shard_below))]
pub(crate) fn shard_to_ask(userset: &Userset, shards: Shards) -> u8
    ensures value { result ≡ shard_number shards userset.now.object }
    ensures there { result < shards }
{
    shard_of(&userset.object, shards)
}

// The shard of the first that waits is brought up to the place. If none waits the user is no member.
fn bring_up(asked: &AskedCheck, place: u64, walk: Walk) -> Progress<Ready, CheckEnd>
    ensures none { walk.waiting ≡ [] → view_of result ≡ ended (checked place false) }
    ensures more { walk.waiting ≢ [] → view_of result ≡ at_rest to_catch_up (holding_walk walk (Some place) None) }
    ensures kept { IfNext result (IsReadyOf asked.now.shards asked.now.user) }
{
    let Some(first) = walk.first() else {
        return answered(place, false);
    };
    let shard = shard_to_ask(first, asked.shards);
    let catch_up = CatchUp::new(shard, place);
    Progress::Next(Ready::CatchUp(place, walk, catch_up))
}

/// It goes on, unless as many were walked as may be.
pub(crate) fn go_on(asked: &AskedCheck, place: u64, walk: Walk) -> Progress<Ready, CheckEnd>
    ensures goes { Continues place (holding_walk walk (Some place) None) (view_of result) }
    ensures kept { IfNext result (IsReadyOf asked.now.shards asked.now.user) }
{
    if walk.waits() && MAX_WALKED <= walk.walked() {
        return refused(Refusal::Full);
    }
    bring_up(asked, place, walk)
}

/// The coordinator has told its heads.
pub(crate) fn told(
    asked: &AskedCheck,
    walk: Walk,
    answer: Result<Heads, Refusal>,
) -> Progress<Ready, CheckEnd>
    ensures gives { HeadsGive asked.now.freshness (view_out (out_of.Heads walk)) answer (view_of result) }
    ensures kept { IfNext result (IsReadyOf asked.now.shards asked.now.user) }
{
    match answer {
        Ok(heads) => match find(asked.freshness, &heads) {
            Found::At(place) => go_on(asked, place, walk),
            Found::Later => Progress::Next(Ready::Flush(walk)),
            Found::Refused(refusal) => {
                drop(walk);
                refused(refusal)
            }
        },
        Err(refusal) => {
            drop(walk);
            refused(refusal)
        }
    }
}

/// The coordinator was flushed, and is asked again.
pub(crate) fn flushed(
    asked: &AskedCheck,
    walk: Walk,
    answer: Result<(), Refusal>,
) -> Progress<Ready, CheckEnd>
    ensures gives { FlushGives (view_out (out_of.Flush walk)) answer (view_of result) }
    ensures kept { IfNext result (IsReadyOf asked.now.shards asked.now.user) }
{
    let _asked = asked;
    match answer {
        Ok(()) => Progress::Next(Ready::Heads(walk)),
        Err(refusal) => {
            drop(walk);
            refused(refusal)
        }
    }
}

// What the first that waits is asked.
fn question(alloc: Global, walk: &Walk, user: &User) -> Result<Option<Question>, AllocError>
    ensures { IfOk result (λ asks. MatchOption asks (walk.now.waiting ≡ []) (λ q. IsFirst walk.now q.userset × (q.user ≡ user.now))) }
{
    let Some(first) = walk.first() else {
        return Ok(None);
    };
    let user = Boxed::new(alloc, user.clone()?)?;
    let userset = Boxed::new(alloc, first.clone()?)?;
    Ok(Some(Question { userset, user }))
}

// The shard has learned so far, and is read.
pub(crate) fn ask(asked: &AskedCheck, place: u64, walk: Walk) -> Progress<Ready, CheckEnd>
    requires { walk.waiting ≢ [] }
    ensures gives { (view_of result ≡ at_rest to_read (holding_walk walk (Some place) None)) ⊎ LacksMemory (view_of result) }
    ensures named { IfNext result (λ ready. name_ready ready ≡ names.Read) }
    ensures kept { IfNext result (IsReadyOf asked.now.shards asked.now.user) }
{
    match question(asked.alloc, &walk, &asked.user) {
        Ok(Some(question)) => Progress::Next(Ready::Read(place, walk, question)),
        Ok(None) => answered(place, false),
        Err(_) => refused(Refusal::NoMemory),
    }
}

/// A call of the catch-up was answered.
pub(crate) fn caught_up(
    asked: &AskedCheck,
    place: u64,
    walk: Walk,
    call: CatchUpCall,
    reply: Reply,
) -> Progress<Ready, CheckEnd>
    requires kept { IsOutOf asked.now.shards (out_of.CatchUp place walk call) }
    requires fits { FitsCatchUp call.awaited reply }
    ensures gives { CatchUpGives (view_out (out_of.CatchUp place walk call)) call.awaited reply (view_of result) }
    ensures kept { IfNext result (IsReadyOf asked.now.shards asked.now.user) }
{
    match call.give(reply) {
        catch_up::Progress::Next(catch_up) => {
            Progress::Next(Ready::CatchUp(place, walk, catch_up))
        }
        catch_up::Progress::There => ask(asked, place, walk),
        catch_up::Progress::Refused(refusal) => refused(refusal),
    }
}

// Whether the first that waits holds the user.
fn is_found(walk: &Walk, rows: &[Tuple], user: &User) -> bool
    ensures { (y : _) → IsFirst walk.now y → (IsTrue result ↔ Contains rows.now (holding y user.now)) }
{
    match walk.first() {
        Some(first) => has_user(rows, first, user),
        None => false,
    }
}

// The rows of the first that waits.
fn gather(asked: &AskedCheck, place: u64, walk: Walk, rows: Vec<Tuple>) -> Progress<Ready, CheckEnd>
    ensures goes { (y : _) → IsFirst walk y → RowsGive asked.now.user place (holding_walk walk (Some place) None) y rows.items (view_of result) }
    ensures kept { IfNext result (IsReadyOf asked.now.shards asked.now.user) }
{
    if is_found(&walk, &rows, &asked.user) {
        return answered(place, true);
    }
    match walk.walk_first(&rows) {
        Ok(walk) => go_on(asked, place, walk),
        Err(_) => refused(Refusal::NoMemory),
    }
}

/// The shard has read, or has not learned so far.
pub(crate) fn have_read(
    asked: &AskedCheck,
    place: u64,
    walk: Walk,
    answer: Result<ReadReply, Refusal>,
) -> Progress<Ready, CheckEnd>
    ensures gives { ReadGives asked.now.user (view_out (out_of.Read place walk)) answer (view_of result) }
    ensures kept { IfNext result (IsReadyOf asked.now.shards asked.now.user) }
{
    match answer {
        Ok(ReadReply::Rows(rows)) => gather(asked, place, walk, rows),
        Ok(ReadReply::Behind) => bring_up(asked, place, walk),
        Err(refusal) => refused(refusal),
    }
}
