// A flow begins.
ghost use Rattle.std.specs.Prelude.{◌≡◌, ◌≤◌, ◌↔◌, IsTrue, IfOk, OnErr, OnOk};
ghost use Rattle.cluster.specs.Begun.{IsFresh, IsInLimits, IsNodeThere, MayCare, begun_for, caring_for};
ghost use Rattle.slab.specs.Slab.{HasRoomFor};
ghost use Rattle.cluster.specs.Kept.{AreFlows};
ghost use Rattle.cluster.specs.Steps.{AddsFlow, Begins};

use crate::{Flow, What, Writing};
use answer_flow::{CheckFlow, ReadFlow, WatchFlow};
use care_flow::CareFlow;
use commit_flow::WriteFlow;
use names::{Care, NodeName};
use slab::Slab;
use std::alloc::{AllocError, Global};
use tuples::{
    Freshness, MAX_ASKED, MAX_FLOWS, MAX_NUMBER, MAX_WATCHED, Refusal, Request, Shards, Tuple,
    Userset, Write,
};

fn is_place(freshness: Freshness) -> bool
    ensures { IsTrue result ↔ IsFresh freshness }
{
    match freshness {
        Freshness::Latest => true,
        Freshness::AtLeast(place) => place <= MAX_NUMBER,
        Freshness::Exact(place) => place <= MAX_NUMBER,
    }
}

fn is_in_limits(request: &Request) -> bool
    ensures { IsTrue result ↔ IsInLimits request.now }
{
    match request {
        Request::Write(_) => true,
        Request::Read { freshness, sets } => {
            is_place(*freshness) && !sets.is_empty() && sets.len() <= MAX_ASKED
        }
        Request::Check { freshness, .. } => is_place(*freshness),
        Request::Watch {
            from,
            limit,
            namespaces,
        } => {
            *from <= MAX_NUMBER
                && 1 <= *limit
                && u64::from(*limit) <= MAX_WATCHED
                && !namespaces.is_empty()
                && namespaces.len() <= MAX_ASKED
        }
    }
}

fn begin_write(alloc: Global, shards: Shards, write: &Write) -> Result<Flow, AllocError>
    ensures { IfOk result (λ flow. flow ≡ begun_for shards (Request.Write write.now)) }
{
    let write = write.clone()?;
    match WriteFlow::new(alloc, shards, write) {
        Ok(flow) => Ok(Flow::Write(Writing {
            flow,
            is_cancelled: false,
        })),
        Err(_) => Err(AllocError),
    }
}

// It asks for the user of the tuple, in the userset of its object and relation.
fn begin_check(
    alloc: Global,
    shards: Shards,
    freshness: Freshness,
    tuple: &Tuple,
) -> Result<Flow, AllocError>
    ensures { IfOk result (λ flow. flow ≡ begun_for shards (Request.Check freshness tuple.now)) }
{
    let Tuple {
        object,
        relation,
        user,
    } = tuple.clone()?;
    let userset = Userset { object, relation };
    let flow = CheckFlow::new(alloc, shards, freshness, &userset, user)?;
    Ok(Flow::Check(flow))
}

fn begin(alloc: Global, shards: Shards, request: &Request) -> Result<Flow, AllocError>
    ensures { IfOk result (λ flow. flow ≡ begun_for shards request.now) }
{
    match request {
        Request::Write(write) => begin_write(alloc, shards, write),
        Request::Read { freshness, sets } => {
            let sets = sets.clone()?;
            Ok(Flow::Read(ReadFlow::new(alloc, shards, *freshness, sets)))
        }
        Request::Check { freshness, tuple } => begin_check(alloc, shards, *freshness, tuple),
        Request::Watch {
            from,
            limit,
            namespaces,
        } => {
            let namespaces = namespaces.clone()?;
            Ok(Flow::Watch(WatchFlow::new(alloc, *from, u64::from(*limit), namespaces)))
        }
    }
}

// Puts a flow that begins into a free slot, and reports which.
fn add(flows: &mut Slab<Flow>, flow: Flow) -> Option<What>
    requires { HasRoomFor flows.old 1 }
    ensures { AddsFlow flows.old.slots flow result flows.new.slots }
{
    Some(What::Began(flows.insert_reserved(flow)))
}

/// A flow for the request begins, if the request is within its limits.
pub(crate) fn start(
    alloc: Global,
    shards: Shards,
    flows: &mut Slab<Flow>,
    request: &Request,
) -> Result<Option<What>, AllocError>
    ensures ok { IfOk result (λ told. Begins flows.old.slots (IsInLimits request.now) (begun_for shards request.now) told flows.new.slots) }
    ensures err { OnErr result (flows.new.slots ≡ flows.old.slots) }
    ensures kept { OnOk result (AreFlows shards flows.old.slots → AreFlows shards flows.new.slots) }
{
    if !is_in_limits(request) {
        return Ok(None);
    }
    if flows.len() >= MAX_FLOWS {
        return Ok(Some(What::Refused(Refusal::Full)));
    }
    flows.reserve(1)?;
    let flow = begin(alloc, shards, request)?;
    Ok(add(flows, flow))
}

fn is_there(shards: Shards, node: NodeName) -> bool
    ensures { IsTrue result ↔ IsNodeThere shards node }
{
    match node {
        NodeName::Coordinator => true,
        NodeName::Shard(shard) => shards.has(shard),
    }
}

fn may_care(shards: Shards, care: Care) -> bool
    ensures { IsTrue result ↔ MayCare shards care }
{
    match care {
        Care::Flush(node) | Care::Checkpoint(node) => is_there(shards, node),
        Care::Learn(shard) => shards.has(shard),
        Care::Resolve(shard) => shards.has(shard),
        Care::Raise(place) => place <= MAX_NUMBER,
        Care::Collect(shard) => shards.has(shard),
    }
}

/// A flow for the care begins, if its node is there.
pub(crate) fn care_for(
    alloc: Global,
    shards: Shards,
    flows: &mut Slab<Flow>,
    care: Care,
) -> Result<Option<What>, AllocError>
    ensures ok { IfOk result (λ told. Begins flows.old.slots (MayCare shards care) (caring_for shards care) told flows.new.slots) }
    ensures err { OnErr result (flows.new.slots ≡ flows.old.slots) }
    ensures kept { OnOk result (AreFlows shards flows.old.slots → AreFlows shards flows.new.slots) }
{
    if !may_care(shards, care) {
        return Ok(None);
    }
    if flows.len() >= MAX_FLOWS {
        return Ok(Some(What::Refused(Refusal::Full)));
    }
    flows.reserve(1)?;
    let flow = Flow::Care(CareFlow::new(alloc, shards, care));
    Ok(add(flows, flow))
}
