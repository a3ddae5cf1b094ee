// The bodies that a content spells, up to the closed gate.
ghost use Rattle.std.specs.Prelude.{◌≡◌, ◌≤◌, ◌<◌, ◌⊎◌, ◌++◌, ◌∷◌, [], None, true, false, take, drop, length, map, IfOk, IfErr, OnOk, MatchOption};
ghost use Rattle.gated.specs.Gated.{gated, is_whole, body_length, IsSpelled};

use crate::format::{HEAD, MAX_BODY, OPEN};
use refusal::Refusal;
use std::alloc::{AllocError, Global};

/// The body after the gate at the front, if its record is whole and the next gate is inside.
fn whole_body(content: &[u8]) -> Option<&[u8]>
    ensures { MatchOption result (is_whole content.now ≡ false) (λ body. (is_whole content.now ≡ true) × (body.now ≡ take (body_length content.now) (drop 5 content.now))) }
{
    if content.len() <= HEAD {
        return None;
    }
    let size = [content[1], content[2], content[3], content[4]];
    let n = u32::from_be_bytes(size) as usize;
    if n < 1 || n > MAX_BODY || HEAD + n >= content.len() {
        return None;
    }
    // An open next gate with nothing after it is no gate: its record was cut off.
    if HEAD + n + 1 == content.len() && content[HEAD + n] == OPEN {
        return None;
    }
    Some(&content[HEAD..HEAD + n])
}

/// Adds a copy of a body.
fn push_copy(alloc: Global, bodies: &mut Vec<Vec<u8>>, body: &[u8]) -> Result<(), AllocError>
    ensures { OnOk result (map (λ b. b.items) bodies.new.items ≡ map (λ b. b.items) bodies.old.items ++ body.now ∷ []) }
{
    bodies.push(Vec::from_slice(alloc, body)?)?;
    Ok(())
}

/// The bodies of a content, oldest first, and the offset of the closed gate that ends them.
pub(crate) fn split(alloc: Global, content: &[u8]) -> Result<(Vec<Vec<u8>>, usize), Refusal>
    requires { 2 ≤ length content.now }
    ensures ok { IfOk result (λ r. IsSpelled content.now (map (λ b. b.items) r.0.items) r.1) }
    ensures damaged { IfErr result (λ e. e ≡ Refusal.Damaged → gated content.now ≡ None) }
    ensures err { IfErr result (λ e. (e ≡ Refusal.NoMemory) ⊎ (e ≡ Refusal.Damaged)) }
{
    let mut bodies = Vec::new(alloc);
    let mut end = 0;
    while content[end] == OPEN {
        let body = whole_body(&content[end..]).ok_or(Refusal::Damaged)?;
        let Ok(()) = push_copy(alloc, &mut bodies, body) else {
            return Err(Refusal::NoMemory);
        };
        end += HEAD + body.len();
    }
    Ok((bodies, end))
}
