// What of a request a server refused, as far as its texts tell.
use crate::grammar::{Why, why_no_name, why_no_tuple, why_no_tupleset};
use refusal::Refusal;
use serde_json::Value;
use std::alloc::{AllocError, Global};
use tuples::{MAX_ASKED, MAX_CHANGES, MAX_CONDITIONS, MAX_LINE, Namespace, Tuple, Tupleset};

const SPLIT: &str = "send several requests; a write that is split is no longer one write";

/// What of the request line the server refused so, and why: the first text that is none, a list or line that is too long, or a tuple that stands twice. None
/// if that is not seen in it.
pub(crate) fn cause_in(
    alloc: Global,
    line: &str,
    refusal: Refusal,
) -> Result<Option<String>, AllocError> {
    if !matches!(
        refusal,
        Refusal::BadTuple | Refusal::TooLarge | Refusal::Repeated
    ) {
        return Ok(None);
    }
    if line.len() > MAX_LINE {
        let told = format!(in alloc;
            "the line has {} bytes, and {MAX_LINE} are the most",
            line.len()
        )?;
        return Ok(Some(told));
    }
    let Ok(request) = Value::from_str(alloc, line) else {
        return Ok(None);
    };
    match refusal {
        Refusal::BadTuple => bad_text(alloc, &request),
        Refusal::TooLarge => too_many(alloc, &request),
        _ => repeated(alloc, &request),
    }
}

// The parts of a request, by their keys.
fn list_at<'a>(request: &'a Value, key: &str) -> &'a [Value] {
    match request.get(key).and_then(Value::as_array) {
        Some(list) => list.as_slice(),
        None => &[],
    }
}

fn tuple_of(part: &Value) -> Option<&str> {
    part.get("tuple").and_then(Value::as_str)
}

fn bad_text(alloc: Global, request: &Value) -> Result<Option<String>, AllocError> {
    for key in ["changes", "conditions"] {
        for part in list_at(request, key) {
            if let Some(text) = tuple_of(part)
                && is_no_tuple(alloc, text)
            {
                return told(alloc, text, why_no_tuple(text));
            }
        }
    }
    if let Some(text) = tuple_of(request)
        && is_no_tuple(alloc, text)
    {
        return told(alloc, text, why_no_tuple(text));
    }
    bad_set(alloc, request)
}

fn bad_set(alloc: Global, request: &Value) -> Result<Option<String>, AllocError> {
    for part in list_at(request, "sets") {
        if let Some(text) = part.as_str()
            && is_no_tupleset(alloc, text)
        {
            return told(alloc, text, why_no_tupleset(text));
        }
    }
    for part in list_at(request, "namespaces") {
        if let Some(text) = part.as_str()
            && is_no_namespace(alloc, text)
        {
            return told(alloc, text, why_no_name("namespace", text));
        }
    }
    Ok(None)
}

fn is_no_tuple(alloc: Global, text: &str) -> bool {
    matches!(Tuple::parse(alloc, text.as_bytes()), Err(Refusal::BadTuple))
}

fn is_no_tupleset(alloc: Global, text: &str) -> bool {
    matches!(
        Tupleset::parse(alloc, text.as_bytes()),
        Err(Refusal::BadTuple)
    )
}

fn is_no_namespace(alloc: Global, text: &str) -> bool {
    matches!(
        Namespace::parse(alloc, text.as_bytes()),
        Err(Refusal::BadTuple)
    )
}

fn told(alloc: Global, text: &str, why: Option<Why<'_>>) -> Result<Option<String>, AllocError> {
    match why {
        Some(why) => Ok(Some(format!(in alloc; "{why}")?)),
        None => Ok(Some(format!(in alloc; "{text:?} is invalid")?)),
    }
}

// The first list that is too long.
fn too_many(alloc: Global, request: &Value) -> Result<Option<String>, AllocError> {
    for (key, most, advice) in [
        ("changes", MAX_CHANGES, SPLIT),
        ("conditions", MAX_CONDITIONS, SPLIT),
        ("sets", MAX_ASKED, "send several requests"),
        ("namespaces", MAX_ASKED, "send several requests"),
    ] {
        let count = list_at(request, key).len();
        if count > most {
            let told = format!(in alloc; "{count} {key}, and {most} are the most: {advice}")?;
            return Ok(Some(told));
        }
    }
    Ok(None)
}

// The first tuple that stands twice among the changes, or among the conditions.
fn repeated(alloc: Global, request: &Value) -> Result<Option<String>, AllocError> {
    for key in ["changes", "conditions"] {
        if let Some(text) = twice(list_at(request, key)) {
            let told = format!(in alloc; "two {key} name {text:?}: leave one of them out")?;
            return Ok(Some(told));
        }
    }
    Ok(None)
}

fn twice(parts: &[Value]) -> Option<&str> {
    for index in 0..parts.len() {
        let text = tuple_of(&parts[index])?;
        for earlier in &parts[..index] {
            if tuple_of(earlier) == Some(text) {
                return Some(text);
            }
        }
    }
    None
}
