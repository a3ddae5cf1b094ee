// The names of flows.
ghost use Rattle.std.specs.Prelude.{◌≡◌, ◌↔◌, All, IfOk, IsTrue, MatchOption, Some, slice_get};
ghost use Rattle.std.specs.List.{list_all, position};
ghost use Rattle.std.specs.Str.{bytes_eq};
ghost use Rattle.script_text.specs.Lines.{IsFree};
ghost use Rattle.script_text.specs.Texts.{IsFlowName, is_flow_byte};

use std::alloc::{AllocError, Global};
use std::marker::Model;

// The most bytes of a name.
const MAX_NAME: usize = 16;

/// The name of a flow: 1 to 16 bytes of `a-z` and `0-9`; contracts see them as their list.
#[derive(Drop)]
pub struct Name {
    bytes: Vec<u8>,
}

impl Model for Name {
    ghost use Rattle.std.specs.Prelude.{List, ℕ};
    ghost use Rattle.script_text.specs.Texts.{IsFlowName};

    ghost Value = { List ℕ };

    ghost view = { λ n. n.bytes.items };

    ghost invariant = { λ n. IsFlowName n.bytes.items };
}

impl Name {
    pub fn as_bytes(&self) -> &[u8]
        ensures { result.now ≡ self.now }
    {
        &self.bytes
    }

    /// A copy of these bytes.
    pub(crate) fn copy(alloc: Global, bytes: &[u8]) -> Result<Name, AllocError>
        requires { IsFlowName bytes.now }
        ensures { IfOk result (λ n. n ≡ bytes.now) }
    {
        let bytes = Vec::from_slice(alloc, bytes)?;
        Ok(Name { bytes })
    }
}

/// The flow that has the name, by its number among those that run.
pub(crate) fn find(name: &[u8], running: &[Name]) -> Option<usize>
    ensures { MatchOption result (All (λ other. other ≡ name.now → ⊥) running.now) (λ flow. slice_get running.now flow ≡ Some name.now) }
{
    position_of(name, running)
}

fn position_of(name: &[u8], running: &[Name]) -> Option<usize>
    ensures { result ≡ position (λ other. bytes_eq other name.now) running.now }
{
    running.iter().position(|other| other.as_bytes() == name)
}

/// Whether a flow may be begun with this name.
pub(crate) fn is_free(name: &[u8], running: &[Name]) -> bool
    ensures { IsTrue result ↔ IsFree running.now name.now }
{
    is_flow_name(name) && find(name, running).is_none()
}

fn is_flow_name(bytes: &[u8]) -> bool
    ensures { IsTrue result ↔ IsFlowName bytes.now }
{
    !bytes.is_empty() && bytes.len() <= MAX_NAME && are_flow_bytes(bytes)
}

fn are_flow_bytes(bytes: &[u8]) -> bool
    ensures { result ≡ list_all is_flow_byte bytes.now }
{
    bytes.iter().all(|byte| is_flow_byte(*byte))
}

fn is_flow_byte(byte: u8) -> bool
    ensures { result ≡ is_flow_byte byte }
{
    matches!(byte, b'a'..=b'z' | b'0'..=b'9')
}
