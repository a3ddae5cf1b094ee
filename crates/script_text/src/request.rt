// A request, from its shape.
ghost use Rattle.std.specs.Prelude.{◌≡◌, ◌≤◌, List, All, IfErr, IfOk, length, map};
ghost use Rattle.tuples.specs.declared.tuple.Tuple.{Tuple as AnyTuple};
ghost use Rattle.tuples.specs.declared.tupleset.Tupleset.{Tupleset as AnySet};
ghost use Rattle.tuples.specs.Changes.{IsWrite};
ghost use Rattle.tuples.specs.Names.{IsName};
ghost use Rattle.tuples.specs.Texts.{IsTuple, tuple_text};
ghost use Rattle.json_lines.specs.Causes.{AreSets, ListCause};
ghost use Rattle.script_text.specs.Causes.{IsFresh, ShapeCause, WriteCause};
ghost use Rattle.script_text.specs.Lines.{SpellsRequest};
ghost use Rattle.script_text.specs.Shapes.{IsShaped, check, fresh_view, read, shape_view, shape_words, watch};
ghost use Rattle.script_text.specs.Texts.{IsLimit, change_text, condition_text};
ghost use Rattle.script_text.specs.Words.{AreWanted, texts};

use crate::conditions::parse_conditions;
use crate::places::{decode_freshness, decode_place};
use crate::shape::{FreshShape, Shape};
use crate::texts::{parse_changes, parse_namespaces, parse_sets};
use std::alloc::Global;
use tuples::{MAX_ASKED, MAX_CHANGES, MAX_CONDITIONS, Refusal, Request, Tuple, Write};

/// The request of a shape, at the store with this id.
pub(crate) fn request_of(alloc: Global, shape: Shape<'_>, store: u64) -> Result<Request, Refusal>
    requires { IsShaped (shape_view shape) }
    ensures ok { IfOk result (SpellsRequest store (shape_words (shape_view shape.entry))) }
    ensures err { IfErr result (ShapeCause store (shape_view shape.entry)) }
{
    match shape {
        Shape::Write {
            changes,
            conditions,
        } => Ok(Request::Write(write_of(alloc, changes, conditions)?)),
        Shape::Read { freshness, sets } => read_of(alloc, freshness, sets, store),
        Shape::Check { freshness, tuple } => check_of(alloc, freshness, tuple, store),
        Shape::Watch {
            from,
            limit,
            namespaces,
        } => watch_of(alloc, from, limit, namespaces, store),
    }
}

fn write_of(alloc: Global, changes: &[&[u8]], conditions: &[&[u8]]) -> Result<Write, Refusal>
    requires { 1 ≤ length changes.now }
    ensures ok { IfOk result (λ w. (texts changes.now ≡ map change_text w.changes) × (texts conditions.now ≡ map condition_text w.conditions) × IsWrite w.changes w.conditions × AreWanted w.conditions) }
    ensures err { IfErr result (WriteCause (texts changes.now) (texts conditions.now)) }
{
    if changes.len() > MAX_CHANGES || conditions.len() > MAX_CONDITIONS {
        return Err(Refusal::TooLarge);
    }
    let changes = parse_changes(alloc, changes)?;
    let conditions = parse_conditions(alloc, conditions)?;
    let write = Write::new(changes, conditions)?;
    Ok(write)
}

fn read_of(
    alloc: Global,
    freshness: FreshShape<'_>,
    sets: &[&[u8]],
    store: u64,
) -> Result<Request, Refusal>
    requires { 1 ≤ length sets.now }
    ensures ok { IfOk result (SpellsRequest store (shape_words (read (fresh_view freshness.entry) (texts sets.now)))) }
    ensures err { IfErr result (ListCause store (length (texts sets.now)) ((qs : List AnySet) × AreSets (texts sets.now) qs) (λ IsBad. IsFresh IsBad (fresh_view freshness.entry))) }
{
    if sets.len() > MAX_ASKED {
        return Err(Refusal::TooLarge);
    }
    let sets = parse_sets(alloc, sets)?;
    let freshness = decode_freshness(freshness, store)?;
    Ok(Request::Read { freshness, sets })
}

fn check_of(
    alloc: Global,
    freshness: FreshShape<'_>,
    tuple: &[u8],
    store: u64,
) -> Result<Request, Refusal>
    ensures ok { IfOk result (SpellsRequest store (shape_words (check (fresh_view freshness.entry) tuple.now))) }
    ensures err { IfErr result (ListCause store 1 ((t : AnyTuple) × IsTuple t × (tuple.now ≡ tuple_text t)) (λ IsBad. IsFresh IsBad (fresh_view freshness.entry))) }
{
    let tuple = Tuple::parse(alloc, tuple)?;
    let freshness = decode_freshness(freshness, store)?;
    Ok(Request::Check { freshness, tuple })
}

fn watch_of(
    alloc: Global,
    from: &[u8],
    limit: u16,
    namespaces: &[&[u8]],
    store: u64,
) -> Result<Request, Refusal>
    requires limit { IsLimit limit }
    requires some { 1 ≤ length namespaces.now }
    ensures ok { IfOk result (SpellsRequest store (shape_words (watch from.now limit (texts namespaces.now)))) }
    ensures err { IfErr result (ListCause store (length (texts namespaces.now)) (All IsName (texts namespaces.now)) (λ IsBad. IsBad from.now)) }
{
    if namespaces.len() > MAX_ASKED {
        return Err(Refusal::TooLarge);
    }
    let namespaces = parse_namespaces(alloc, namespaces)?;
    let from = decode_place(from, store)?;
    Ok(Request::Watch {
        from,
        limit,
        namespaces,
    })
}
