// Members of an object.
ghost use Rattle.std.specs.Prelude.{◌≡◌, ◌∷◌, ◌++◌, [], OnOk, IfOk, map};
ghost use Rattle.serde_json.specs.Data.{put as with_member, string};
ghost use Rattle.serde_json.specs.View.{members_view, view};
ghost use Rattle.json_lines.specs.Shapes.{texts_json};
ghost use Rattle.client.specs.Forms.{asked_json, changed_json};
ghost use Rattle.client.specs.Reading.{change_view, condition_view, fresh_view, texts, with_fresh};

use crate::form::{Change, Condition, Freshness};
use serde_json::{Map, Value, json};
use std::alloc::{AllocError, Global};

/// Puts a text at the key.
pub(crate) fn put_text(
    object: &mut Map<String, Value>,
    alloc: Global,
    key: &str,
    text: &str,
) -> Result<(), AllocError>
    ensures { OnOk result (members_view object.new.entries ≡ with_member key.now (string text.now) (members_view object.old.entries)) }
{
    let value = Value::try_from_str(alloc, text)?;
    serde_json::put(object, alloc, key, value)
}

/// Puts a list of texts at the key.
pub(crate) fn put_texts(
    object: &mut Map<String, Value>,
    alloc: Global,
    key: &str,
    words: &[&str],
) -> Result<(), AllocError>
    ensures { OnOk result (members_view object.new.entries ≡ with_member key.now (texts_json (texts words.now)) (members_view object.old.entries)) }
{
    let mut list = Vec::new(alloc);
    match push_texts(&mut list, alloc, words) {
        Ok(()) => serde_json::put(object, alloc, key, Value::Array(list)),
        Err(error) => Err(error),
    }
}

fn push_texts(list: &mut Vec<Value>, alloc: Global, words: &[&str]) -> Result<(), AllocError>
    ensures { OnOk result (map view list.new.items ≡ map view list.old.items ++ map string (texts words.now)) }
{
    for word in words {
        let value = Value::try_from_str(alloc, word)?;
        serde_json::push(list, value)?;
    }
    Ok(())
}

/// Puts the member that names the freshness.
pub(crate) fn put_freshness(
    object: &mut Map<String, Value>,
    alloc: Global,
    freshness: Freshness<'_>,
) -> Result<(), AllocError>
    ensures { OnOk result (members_view object.new.entries ≡ with_fresh (fresh_view freshness.entry) (members_view object.old.entries)) }
{
    match freshness {
        Freshness::Unsaid => Ok(()),
        Freshness::Latest => Ok(()),
        Freshness::AtLeast(token) => put_text(object, alloc, "at_least", token),
        Freshness::Exact(token) => put_text(object, alloc, "exact", token),
    }
}

/// Appends a change.
pub(crate) fn push_change(
    list: &mut Vec<Value>,
    alloc: Global,
    change: Change<'_>,
) -> Result<(), AllocError>
    ensures { OnOk result (map view list.new.items ≡ map view list.old.items ++ changed_json (change_view change.entry) ∷ []) }
{
    let value = change_value(alloc, change)?;
    serde_json::push(list, value)
}

fn change_value(alloc: Global, change: Change<'_>) -> Result<Value, AllocError>
    ensures { IfOk result (λ v. view v ≡ changed_json (change_view change.entry)) }
{
    match change {
        Change::Touch(tuple) => json!(in alloc; {"op": "touch", "tuple": tuple}),
        Change::Delete(tuple) => json!(in alloc; {"op": "delete", "tuple": tuple}),
    }
}

/// Appends a condition.
pub(crate) fn push_condition(
    list: &mut Vec<Value>,
    alloc: Global,
    condition: Condition<'_>,
) -> Result<(), AllocError>
    ensures { OnOk result (map view list.new.items ≡ map view list.old.items ++ asked_json (condition_view condition.entry) ∷ []) }
{
    let value = condition_value(alloc, condition)?;
    serde_json::push(list, value)
}

fn condition_value(alloc: Global, condition: Condition<'_>) -> Result<Value, AllocError>
    ensures { IfOk result (λ v. view v ≡ asked_json (condition_view condition.entry)) }
{
    match condition {
        Condition::Since(tuple, token) => json!(in alloc; {"since": token, "tuple": tuple}),
        Condition::Exists(tuple) => json!(in alloc; {"tuple": tuple, "want": "exists"}),
        Condition::Absent(tuple) => json!(in alloc; {"tuple": tuple, "want": "absent"}),
    }
}
