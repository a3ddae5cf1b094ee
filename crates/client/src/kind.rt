// Which request a line is.
ghost use Rattle.std.specs.Prelude.{◌≡◌, IfOk, string_bytes};
ghost use Rattle.serde_json.specs.View.{view};
ghost use Rattle.client.specs.Kinds.{data_kind, line_kind, name_kind};

use serde_json::Value;
use std::alloc::{AllocError, Global};

/// Which request a line is.
#[derive(Clone, Copy, Debug, PartialEq, Eq)]
pub enum Kind {
    Write,
    Read,
    Check,
    Watch,
    /// No JSON, or none that names one of these. Each server refuses it.
    Other,
}

/// A request line, without its line feed, and which request it is.
#[derive(Drop)]
pub struct RequestLine {
    pub line: String,
    pub kind: Kind,
    ghost named: { kind ≡ line_kind (string_bytes line) },
}

impl RequestLine {
    /// The line, and which request it is.
    pub fn new(alloc: Global, line: String) -> Result<RequestLine, AllocError>
        ensures { IfOk result (λ r. r.line ≡ line) }
    {
        let kind = kind_of(alloc, line.as_str())?;
        Ok(RequestLine { line, kind })
    }
}

fn kind_of(alloc: Global, line: &str) -> Result<Kind, AllocError>
    ensures { IfOk result (λ kind. kind ≡ line_kind line.now) }
{
    match Value::from_str(alloc, line) {
        Ok(value) => Ok(kind_in(&value)),
        Err(error) => {
            if error.is_memory() {
                Err(AllocError)
            } else {
                Ok(Kind::Other)
            }
        }
    }
}

fn kind_in(value: &Value) -> Kind
    ensures { result ≡ data_kind (view value.now) }
{
    let Some(name) = value.get("op").and_then(Value::as_str) else {
        return Kind::Other;
    };
    kind_named(name)
}

fn kind_named(name: &str) -> Kind
    ensures { result ≡ name_kind name.now }
{
    if name == "write" {
        Kind::Write
    } else if name == "read" {
        Kind::Read
    } else if name == "check" {
        Kind::Check
    } else if name == "watch" {
        Kind::Watch
    } else {
        Kind::Other
    }
}
