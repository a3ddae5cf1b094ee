// A request, from its line.
ghost use Rattle.std.specs.Prelude.{◌≡◌, ◌≤◌, ◌⊎◌, List, All, IfErr, IfOk, IsUtf8, Some, None, codes, length, map};
ghost use Rattle.serde_json.specs.Read.{read};
ghost use Rattle.serde_json.specs.View.{view};
ghost use Rattle.tuples.specs.declared.tuple.Tuple.{Tuple as AnyTuple};
ghost use Rattle.tuples.specs.declared.tupleset.Tupleset.{Tupleset as AnySet};
ghost use Rattle.tuples.specs.Names.{IsName};
ghost use Rattle.tuples.specs.Texts.{IsTuple, tuple_text};
ghost use Rattle.tuples.specs.Limits.{max_watched};
ghost use Rattle.json_lines.specs.Causes.{AreSets, Cause, FormCause, IsFresh, ListCause, WriteCause};
ghost use Rattle.json_lines.specs.Lines.{IsObject, Spells, written_change, written_condition};
ghost use Rattle.json_lines.specs.Shapes.{Field, IsFormed, asks_sets, asks_tuple, change_json, condition_json, form_fields, form_of, freshness_fields, question_with, texts_json, watch_with};

use crate::member::members_of;
use crate::places::{decode_conditions, decode_freshness, decode_place};
use crate::reading::shape_of;
use crate::shape::{ChangeShape, ConditionShape, FreshnessShape, Shape};
use crate::texts::{parse_changes, parse_conditioned, parse_namespaces, parse_sets, parse_tuple};
use serde_json::Value;
use std::alloc::Global;
use tuples::{MAX_ASKED, MAX_CHANGES, MAX_CONDITIONS, Refusal, Request, Write};

/// The request that the line spells, at a store with this id; the line comes without its line feed. A refusal is that of the first
/// thing wrong, in this order: `BadRequest` if the line is not JSON in a request's shape, `TooLarge` for more changes, conditions,
/// tuplesets or namespaces than the limits, `BadTuple` if a text is not in its grammar, `BadZookie` or `WrongStore` for the first
/// zookie that is not of this store, `Repeated` if two changes or two conditions name one tuple. `NoMemory` may come for any line.
pub fn parse_request(alloc: Global, line: &[u8], store: u64) -> Result<Request, Refusal>
    ensures ok { IfOk result (λ r. (fields : List Field) × IsObject line.now fields × Spells store fields r) }
    ensures err { IfErr result (Cause store line.now) }
{
    let value = value_of(alloc, line)?;
    let members = members_of(alloc, &value)?;
    let shape = shape_of(alloc, &members)?;
    request_of(alloc, shape, store)
}

// What `serde_json` reads the line as.
fn value_of(alloc: Global, line: &[u8]) -> Result<Value, Refusal>
    ensures ok { IfOk result (λ v. IsUtf8 line.now × (read line.now ≡ Some (view v))) }
    ensures err { IfErr result (λ e. ((e ≡ Refusal.BadRequest) × (IsUtf8 line.now → read line.now ≡ None)) ⊎ (e ≡ Refusal.NoMemory)) }
{
    match Value::from_slice(alloc, line) {
        Ok(value) => Ok(value),
        Err(error) if error.is_memory() => Err(Refusal::NoMemory),
        Err(_) => Err(Refusal::BadRequest),
    }
}

// The request of a shape.
#[tactic(auto, using(crate::proofs::Causing::spells_listed, crate::proofs::Causing::spells_unlisted))]
fn request_of(alloc: Global, shape: Shape<'_>, store: u64) -> Result<Request, Refusal>
    requires { IsFormed (form_of shape) }
    ensures ok { IfOk result (Spells store (form_fields (form_of shape.entry))) }
    ensures err { IfErr result (FormCause store (form_of shape.entry)) }
{
    match shape {
        Shape::Write {
            changes,
            conditions,
        } => match conditions {
            None => Ok(Request::Write(write_of(alloc, &changes, &[], store)?)),
            Some(conditions) => Ok(Request::Write(write_of(alloc, &changes, &conditions, store)?)),
        },
        Shape::Read { freshness, sets } => read_of(alloc, freshness, &sets, store),
        Shape::Check { freshness, tuple } => check_of(alloc, freshness, tuple, store),
        Shape::Watch {
            from,
            limit,
            namespaces,
        } => watch_of(alloc, from, limit, &namespaces, store),
    }
}

fn write_of(
    alloc: Global,
    changes: &[ChangeShape<'_>],
    conditions: &[ConditionShape<'_>],
    store: u64,
) -> Result<Write, Refusal>
    requires { 1 ≤ length changes.now }
    ensures ok { IfOk result (λ w. (map change_json changes.now ≡ map written_change w.changes) × (map condition_json conditions.now ≡ map (written_condition store) w.conditions)) }
    ensures err { IfErr result (WriteCause store changes.now conditions.now) }
{
    if changes.len() > MAX_CHANGES || conditions.len() > MAX_CONDITIONS {
        return Err(Refusal::TooLarge);
    }
    let changes = parse_changes(alloc, changes)?;
    let tuples = parse_conditioned(alloc, conditions)?;
    let conditions = decode_conditions(alloc, conditions, tuples, store)?;
    let write = Write::new(changes, conditions)?;
    Ok(write)
}

fn read_of(
    alloc: Global,
    freshness: FreshnessShape<'_>,
    sets: &[&str],
    store: u64,
) -> Result<Request, Refusal>
    requires { 1 ≤ length sets.now }
    ensures ok { IfOk result (Spells store (question_with (freshness_fields freshness.entry) (codes "read") (asks_sets (map (λ t. t.now) sets.now)))) }
    ensures err { IfErr result (ListCause store (length sets.now) ((qs : List AnySet) × AreSets (map (λ t. t.now) sets.now) qs) (λ IsBad. IsFresh IsBad freshness.entry)) }
{
    if sets.len() > MAX_ASKED {
        return Err(Refusal::TooLarge);
    }
    let sets = parse_sets(alloc, sets)?;
    let freshness = decode_freshness(freshness, store)?;
    Ok(Request::Read { freshness, sets })
}

fn check_of(
    alloc: Global,
    freshness: FreshnessShape<'_>,
    tuple: &str,
    store: u64,
) -> Result<Request, Refusal>
    ensures ok { IfOk result (Spells store (question_with (freshness_fields freshness.entry) (codes "check") (asks_tuple tuple.now))) }
    ensures err { IfErr result (ListCause store 1 ((t : AnyTuple) × IsTuple t × (tuple.now ≡ tuple_text t)) (λ IsBad. IsFresh IsBad freshness.entry)) }
{
    let tuple = parse_tuple(alloc, tuple)?;
    match decode_freshness(freshness, store) {
        Ok(freshness) => Ok(Request::Check { freshness, tuple }),
        Err(refusal) => {
            drop(tuple);
            Err(refusal)
        }
    }
}

fn watch_of(
    alloc: Global,
    from: &str,
    limit: u16,
    namespaces: &[&str],
    store: u64,
) -> Result<Request, Refusal>
    requires some { 1 ≤ length namespaces.now }
    requires low { 1 ≤ limit }
    requires high { limit ≤ max_watched }
    ensures ok { IfOk result (Spells store (watch_with from.now limit (texts_json (map (λ t. t.now) namespaces.now)))) }
    ensures err { IfErr result (ListCause store (length namespaces.now) (All IsName (map (λ t. t.now) namespaces.now)) (λ IsBad. IsBad from.now)) }
{
    if namespaces.len() > MAX_ASKED {
        return Err(Refusal::TooLarge);
    }
    let namespaces = parse_namespaces(alloc, namespaces)?;
    let from = decode_place(from, store)?;
    Ok(Request::Watch {
        from,
        limit,
        namespaces,
    })
}
