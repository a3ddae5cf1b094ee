// The devices of the new nodes, on each of which a checkpoint begins before any of them has more.
ghost use Rattle.std.specs.Prelude.{◌≡◌, ◌≤◌, ◌<◌, ◌+◌, ◌*◌, ◌++◌, ◌∷◌, [], All, IfErr, OnErr, OnOk};
ghost use Rattle.refusal.specs.Refusals.{IsOneOf};
ghost use Rattle.std.specs.Vec.{vec_capacity, vec_len};
ghost use Rattle.reshard.specs.Made.{AreHonest, devices_of};
ghost use Rattle.reshard.specs.Refusing.{HaveSomething, IsBlank};
ghost use Rattle.reshard.specs.Written.{BeginsNode, HeadBegins, PutsTwoBack};

use device::Device;
use journal::{Begun, Refused};
use std::alloc::Global;
use tuples::Refusal;

// The two devices of the next node.
fn take_two<D: Device>(devices: &mut Vec<D>) -> (D, D)
    requires { 2 ≤ vec_len devices.old }
    ensures items { devices.old.items ≡ result.0 ∷ result.1 ∷ devices.new.items }
    ensures len { vec_len devices.new + 2 ≡ vec_len devices.old }
    ensures room { vec_capacity devices.new ≡ vec_capacity devices.old }
{
    let a = devices.remove(0);
    let b = devices.remove(0);
    (a, b)
}

// Two devices go before the others, for which there is room.
fn put_two<D: Device>(devices: &mut Vec<D>, a: D, b: D)
    requires { vec_len devices.old + 2 ≤ vec_capacity devices.old }
    ensures items { devices.new.items ≡ a ∷ b ∷ devices.old.items }
    ensures len { vec_len devices.new ≡ vec_len devices.old + 2 }
    ensures room { vec_capacity devices.new ≡ vec_capacity devices.old }
{
    let _ = devices.insert(0, b);
    let _ = devices.insert(0, a);
}

// The checkpoint of the next node begins on its devices; if it does not they are put back.
fn begin_next<D: Device>(
    alloc: Global,
    devices: &mut Vec<D>,
    begun: &mut Vec<Begun<D>>,
) -> Result<(), Refusal>
    requires left { 2 ≤ vec_len devices.old }
    requires within { vec_len devices.old ≤ vec_capacity devices.old }
    requires room { vec_len begun.old < vec_capacity begun.old }
    ensures left { vec_len devices.new + 2 * vec_len begun.new ≡ vec_len devices.old + 2 * vec_len begun.old }
    ensures ok { OnOk result (vec_len begun.new ≡ vec_len begun.old + 1) }
    ensures honest { All D.honest devices.old.items → AreHonest D.honest begun.old.items → OnOk result (All D.honest devices.new.items × AreHonest D.honest begun.new.items) }
    ensures capacity { (vec_capacity devices.new ≡ vec_capacity devices.old) × (vec_capacity begun.new ≡ vec_capacity begun.old) }
    ensures node { OnOk result (BeginsNode D.state D.honest D.moment D.left_since devices.old.items begun.old.items devices.new.items begun.new.items) }
    ensures back { OnErr result (PutsTwoBack D.state D.honest D.moment D.left_since devices.old.items devices.new.items × (begun.new ≡ begun.old)) }
    ensures blank { All (IsBlank D.state D.honest) devices.old.items → OnOk result (All (IsBlank D.state D.honest) devices.new.items) }
    ensures err { IfErr result (λ e. IsOneOf e (Refusal.Down ∷ Refusal.NoMemory ∷ Refusal.Damaged ∷ [])) }
    ensures damaged { result ≡ Err Refusal.Damaged → HaveSomething D.state D.honest devices.old.items }
{
    let (a, b) = take_two(devices);
    match Begun::begin(alloc, a, b) {
        Ok(node) => {
            begun.push_reserved(node);
            Ok(())
        }
        Err(refused) => {
            let Refused { refusal, a, b } = refused;
            put_two(devices, a, b);
            Err(refusal)
        }
    }
}

/// A checkpoint begins on the devices of each of so many nodes.
pub(crate) fn begin_all<D: Device>(
    alloc: Global,
    count: usize,
    devices: &mut Vec<D>,
    begun: &mut Vec<Begun<D>>,
) -> Result<(), Refusal>
    requires left { vec_len devices.old ≡ 2 * count }
    requires within { vec_len devices.old ≤ vec_capacity devices.old }
    requires none { begun.old.items ≡ [] }
    requires empty { vec_len begun.old ≡ 0 }
    requires room { count ≤ vec_capacity begun.old }
    ensures left { vec_len devices.new + 2 * vec_len begun.new ≡ vec_len devices.old }
    ensures ok { OnOk result (vec_len begun.new ≡ count) }
    ensures honest { All D.honest devices.old.items → OnOk result (AreHonest D.honest begun.new.items) }
    ensures capacity { vec_capacity devices.new ≡ vec_capacity devices.old }
    ensures head { HeadBegins D.state D.honest D.moment D.left_since devices.old.items begun.new.items devices.new.items }
    ensures err { IfErr result (λ e. IsOneOf e (Refusal.Down ∷ Refusal.NoMemory ∷ Refusal.Damaged ∷ [])) }
    ensures damaged { result ≡ Err Refusal.Damaged → HaveSomething D.state D.honest devices.old.items }
{
    while begun.len() < count {
        begin_next(alloc, devices, begun)?;
    }
    Ok(())
}

/// The devices of the nodes go before the others, for which there is room.
pub(crate) fn give_back<D: Device>(mut begun: Vec<Begun<D>>, devices: &mut Vec<D>)
    requires { vec_len devices.old + 2 * vec_len begun ≤ vec_capacity devices.old }
    ensures items { devices.new.items ≡ devices_of begun.items ++ devices.old.items }
    ensures len { vec_len devices.new ≡ vec_len devices.old + 2 * vec_len begun }
{
    while let Some(node) = begun.pop() {
        let (a, b) = node.into_devices();
        put_two(devices, a, b);
    }
}
