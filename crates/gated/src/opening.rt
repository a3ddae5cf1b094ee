// The list of a device, found at its opening.
ghost use Rattle.std.specs.Prelude.{◌≡◌, ◌≤◌, ◌⊎◌, ◌↔◌, [], None, true, false, length, map, OnOk, OnErr, IsErr, IsErrOf, IfOk, IfErr, vec_len, ◌∷◌};
ghost use Rattle.refusal.specs.Refusals.{IsOneOf};
ghost use Rattle.gated.specs.Gated.{gated, IsAllDurable, IsReady, IsFoundList};
ghost use Rattle.device.specs.Device.{Keeps, LeavesOnly, Failed, HasFailed, left};

use crate::format::CLOSED;
use crate::split::split;
use device::{Device, Stopped};
use refusal::Refusal;
use std::alloc::Global;

/// Initializes a device of at most one byte as the empty list.
fn make<D: Device>(device: &mut D) -> Result<(), Stopped>
    requires { D.honest device.old → ((D.state device.old).stopped ≡ false) × (length (D.state device.old).seen ≤ 1) }
    ensures honest { D.honest device.old ↔ D.honest device.new }
    ensures ready { D.honest device.old → OnOk result (IsReady (D.state device.new) 0) }
    ensures durable { D.honest device.old → OnOk result (IsAllDurable (D.state device.new)) }
    ensures ok { D.honest device.old → OnOk result (IsFoundList (D.state device.old) [] (D.state device.new)) }
    ensures err { OnErr result (Failed (D.state device.old) (D.state device.new)) }
    ensures counts { (D.state device.old).failures ≤ (D.state device.new).failures }
    ensures none { OnOk result ((D.state device.new).failures ≡ (D.state device.old).failures) }
    ensures any_moment { D.honest device.old → LeavesOnly D.moment D.left_since device.old device.new (λ c. gated c ≡ gated (D.state device.old).seen) }
{
    // Whatever a stop leaves of this write, or of one before it, a content of at most one byte has no body.
    device.write_at(0, &[CLOSED])?;
    // Until it is durable it may be lost; an opening then makes it again.
    device.sync()
}

/// Reads all `n` bytes.
fn read_whole<D: Device>(alloc: Global, device: &mut D, n: usize) -> Result<Vec<u8>, Refusal>
    requires { D.honest device.old → (D.state device.old).stopped ≡ false → n ≡ length (D.state device.old).seen }
    ensures honest { D.honest device.old ↔ D.honest device.new }
    ensures ok { D.honest device.old → (D.state device.old).stopped ≡ false → IfOk result (λ v. v.items ≡ (D.state device.old).seen) }
    ensures len { IfOk result (λ v. vec_len v ≡ n) }
    ensures up { D.honest device.old → OnOk result ((D.state device.new).stopped ≡ false) }
    ensures keeps { D.honest device.old → Keeps (D.state device.old) (D.state device.new) }
    ensures down { IfErr result (λ e. e ≡ Refusal.Down → Failed (D.state device.old) (D.state device.new)) }
    ensures err { IfErr result (λ e. (e ≡ Refusal.Down) ⊎ (e ≡ Refusal.NoMemory)) }
    ensures counts { (D.state device.old).failures ≤ (D.state device.new).failures }
    ensures none { IsErrOf result Refusal.Down ⊎ ((D.state device.new).failures ≡ (D.state device.old).failures) }
    ensures any_moment { D.honest device.old → LeavesOnly D.moment D.left_since device.old device.new (left (D.state device.old)) }
{
    let Ok(mut content) = vec![in alloc; 0u8; n] else {
        return Err(Refusal::NoMemory);
    };
    match device.read_at(0, &mut content) {
        Ok(()) => Ok(content),
        Err(Stopped) => Err(Refusal::Down),
    }
}

/// Finds the bodies of a device, and the offset of the closed gate that ends them.
pub(crate) fn find_list<D: Device>(
    alloc: Global,
    device: &mut D,
) -> Result<(Vec<Vec<u8>>, usize), Refusal>
    ensures honest { D.honest device.old ↔ D.honest device.new }
    ensures ready { D.honest device.old → IfOk result (λ r. IsReady (D.state device.new) r.1) }
    ensures durable { D.honest device.old → OnOk result (IsAllDurable (D.state device.new)) }
    ensures ok { D.honest device.old → IfOk result (λ r. IsFoundList (D.state device.old) (map (λ b. b.items) r.0.items) (D.state device.new)) }
    ensures damaged { D.honest device.old → IfErr result (λ e. e ≡ Refusal.Damaged → gated (D.state device.old).seen ≡ None) }
    ensures down { IfErr result (λ e. e ≡ Refusal.Down → HasFailed (D.state device.old) (D.state device.new)) }
    ensures err { IfErr result (λ e. IsOneOf e (Refusal.Down ∷ Refusal.NoMemory ∷ Refusal.Damaged ∷ [])) }
    ensures stopped { (D.state device.old).stopped ≡ true → IsErr result }
    ensures counts { (D.state device.old).failures ≤ (D.state device.new).failures }
    ensures none { IsErrOf result Refusal.Down ⊎ ((D.state device.new).failures ≡ (D.state device.old).failures) }
    ensures any_moment { D.honest device.old → LeavesOnly D.moment D.left_since device.old device.new (λ c. left (D.state device.old) c ⊎ (gated c ≡ gated (D.state device.old).seen)) }
    ensures still { (D.state device.old).stopped ≡ true → D.honest device.old → LeavesOnly D.moment D.left_since device.old device.new (left (D.state device.old)) }
{
    let Ok(n) = device.len() else {
        return Err(Refusal::Down);
    };
    if n < 2 {
        let Ok(()) = make(device) else {
            return Err(Refusal::Down);
        };
        return Ok((Vec::new(alloc), 0));
    }
    // A gate may read as open, and be closed after a stop: what is read has to be durable before a list is returned.
    let Ok(()) = device.sync() else {
        return Err(Refusal::Down);
    };
    let content = read_whole(alloc, device, n)?;
    split(alloc, &content)
}
