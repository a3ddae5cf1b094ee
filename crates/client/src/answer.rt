// What an answer line says.
ghost use Rattle.std.specs.Prelude.{◌≡◌, None, Some, IfErr, IfOk, OnOk, codes, option_and_then, option_map, string_bytes};
ghost use Rattle.serde_json.specs.Data.{Data, put, string};
ghost use Rattle.serde_json.specs.Errors.{IsMemory};
ghost use Rattle.serde_json.specs.Find.{as_str, get};
ghost use Rattle.serde_json.specs.Read.{read};
ghost use Rattle.serde_json.specs.View.{members_view, view};
ghost use Rattle.client.specs.Answers.{GoesOn, IsRefusal, Says, told_number};
ghost use Rattle.client.specs.Kinds.{has_answer, has_bool, has_list, has_text};

use crate::advising::refusal_of;
use crate::kind::Kind;
use refusal::Refusal;
use serde_json::{Error, Map, Value};
use std::alloc::{AllocError, Global};

/// An answer line, and what it says of how to go on.
#[derive(Drop)]
pub struct Answered {
    pub line: String,
    /// Why the request was refused.
    pub refusal: Option<Refusal>,
    /// Where a watch goes on.
    pub heartbeat: Option<String>,
    /// What a check says of the user.
    pub member: Option<bool>,
    /// Whether it has what an answer to the request has.
    pub is_answer: bool,
}

/// What the line says to a request of this kind. An `Err` is for want of memory, or the line is no JSON.
pub fn read_answer(alloc: Global, kind: Kind, line: String) -> Result<Answered, Error>
    ensures ok { IfOk result (λ a. (d : Data) × (a.line ≡ line) × (read (string_bytes line) ≡ Some d) × Says kind d a) }
    ensures err { IfErr result (λ e. (IsMemory e → ⊥) → read (string_bytes line) ≡ None) }
{
    let value = Value::from_str(alloc, line.as_str())?;
    let refusal = refusal_in(&value);
    let heartbeat = heartbeat_in(alloc, &value)?;
    let member = value.get("member").and_then(Value::as_bool);
    let is_answer = is_answer_to(kind, &value);
    Ok(Answered {
        line,
        refusal,
        heartbeat,
        member,
        is_answer,
    })
}

fn is_answer_to(kind: Kind, value: &Value) -> bool
    ensures { result ≡ has_answer kind (view value.now) }
{
    match kind {
        Kind::Write => is_text(value, "zookie"),
        Kind::Read => is_list(value, "sets") && is_text(value, "zookie"),
        Kind::Check => is_bool(value, "member") && is_text(value, "zookie"),
        Kind::Watch => is_list(value, "events") && is_text(value, "heartbeat"),
        Kind::Other => false,
    }
}

fn is_text(value: &Value, key: &str) -> bool
    ensures { result ≡ has_text key.now (view value.now) }
{
    value.get(key).and_then(Value::as_str).is_some()
}

fn is_list(value: &Value, key: &str) -> bool
    ensures { result ≡ has_list key.now (view value.now) }
{
    value.get(key).and_then(Value::as_array).is_some()
}

fn is_bool(value: &Value, key: &str) -> bool
    ensures { result ≡ has_bool key.now (view value.now) }
{
    value.get(key).and_then(Value::as_bool).is_some()
}

fn refusal_in(value: &Value) -> Option<Refusal>
    ensures { IsRefusal (told_number (view value.now)) result }
{
    match value.get("error").and_then(Value::as_u64) {
        Some(number) => refusal_of(number),
        None => None,
    }
}

fn heartbeat_in(alloc: Global, value: &Value) -> Result<Option<String>, AllocError>
    ensures { IfOk result (λ h. option_map string_bytes h ≡ option_and_then as_str (get (codes "heartbeat") (view value.now))) }
{
    match value.get("heartbeat").and_then(Value::as_str) {
        Some(text) => Ok(Some(String::from_str(alloc, text)?)),
        None => Ok(None),
    }
}

/// The watch that goes on from the heartbeat: the request with this cursor in place of its own. A request that is no object goes on as it is. An `Err` is for
/// want of memory, or the request is no JSON.
pub fn watch_on(alloc: Global, request: &str, heartbeat: &str) -> Result<String, Error>
    ensures ok { IfOk result (λ line. GoesOn request.now heartbeat.now (string_bytes line)) }
    ensures err { IfErr result (λ e. (IsMemory e → ⊥) → read request.now ≡ None) }
{
    let mut value = Value::from_str(alloc, request)?;
    if let Some(object) = value.as_object_mut() {
        put_text(object, alloc, "from", heartbeat)?;
    }
    Ok(value.to_string(alloc)?)
}

fn put_text(
    object: &mut Map<String, Value>,
    alloc: Global,
    key: &str,
    text: &str,
) -> Result<(), AllocError>
    ensures { OnOk result (members_view object.new.entries ≡ put key.now (string text.now) (members_view object.old.entries)) }
{
    let value = Value::try_from_str(alloc, text)?;
    serde_json::put(object, alloc, key, value)
}
