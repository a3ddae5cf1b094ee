// What a node finds as it is opened, and which bytes it leaves on its devices.
ghost use Rattle.std.specs.Prelude.{◌≡◌, ◌<◌};
ghost use Rattle.records.specs.Identity.{coordinator_number};

use coordinator::Coordinator;
use decisions::Batch;
use device::Device;
use records::Identity;
use script_text::Printed;
use shard::Shard;
use std::alloc::Global;
use tuples::{Change, Refusal};

// Texts that name no store are the same at every store.
const ANY_STORE: u64 = 0;

/// Opens the shard: what it has learned up to, the writes in doubt, its versions, and the bytes of its devices after the opening.
pub(crate) fn open_shard<D: Device>(
    alloc: Global,
    me: Identity,
    a: D,
    b: D,
    out: &mut Vec<u8>,
) -> Result<(), Refusal>
    requires { me.node < me.shards }
{
    match Shard::open(alloc, a, b, me) {
        Ok(shard) => {
            let told = tell_shard(alloc, &shard, out);
            let (mut a, mut b) = shard.into_devices();
            told?;
            tell_bytes(alloc, &mut a, out)?;
            tell_bytes(alloc, &mut b, out)
        }
        Err(refused) => Err(refused.refusal),
    }
}

fn tell_shard<D: Device>(
    alloc: Global,
    shard: &Shard<D>,
    out: &mut Vec<u8>,
) -> Result<(), Refusal> {
    let learned = shard.learned()?;
    tell(format!(in alloc; "learned {learned}\n")?.as_str(), out)?;
    for id in &shard.in_doubt(alloc)? {
        Printed::Undecided(*id).write_to(ANY_STORE, out)?;
    }
    let rows = shard.rows(alloc)?;
    Ok(Printed::Versions(&rows).write_to(ANY_STORE, out)?)
}

/// Opens the coordinator: its kept place and its horizon, its decisions above that with their changes, and the bytes of its devices after the opening.
pub(crate) fn open_coordinator<D: Device>(
    alloc: Global,
    me: Identity,
    a: D,
    b: D,
    out: &mut Vec<u8>,
) -> Result<(), Refusal>
    requires { me.node ≡ coordinator_number }
{
    match Coordinator::open(alloc, a, b, me) {
        Ok(coordinator) => {
            let told = tell_coordinator(alloc, &coordinator, out);
            let (mut a, mut b) = coordinator.into_devices();
            told?;
            tell_bytes(alloc, &mut a, out)?;
            tell_bytes(alloc, &mut b, out)
        }
        Err(refused) => Err(refused.refusal),
    }
}

fn tell_coordinator<D: Device>(
    alloc: Global,
    coordinator: &Coordinator<D>,
    out: &mut Vec<u8>,
) -> Result<(), Refusal> {
    let kept = coordinator.kept();
    let horizon = coordinator.horizon();
    tell(
        format!(in alloc; "kept {kept} horizon {horizon}\n")?.as_str(),
        out,
    )?;
    let decided = coordinator.batch(alloc, horizon.min(kept), kept)?;
    tell_decisions(alloc, &decided, out)
}

fn tell_decisions(alloc: Global, decided: &Batch, out: &mut Vec<u8>) -> Result<(), Refusal> {
    let mut place = decided.from();
    for write in decided.writes() {
        place = place.saturating_add(1);
        Printed::Committed(write.id, place).write_to(ANY_STORE, out)?;
        tell_changes(alloc, place, write.changes.as_slice(), out)?;
    }
    Ok(())
}

// As versions are told.
fn tell_changes(
    alloc: Global,
    place: u64,
    changes: &[Change],
    out: &mut Vec<u8>,
) -> Result<(), Refusal> {
    for change in changes {
        let (sign, tuple) = match change {
            Change::Touch(tuple) => ('+', tuple),
            Change::Delete(tuple) => ('-', tuple),
        };
        tell(format!(in alloc; "{place} {sign}")?.as_str(), out)?;
        tuple.write_to(out)?;
        tell("\n", out)?;
    }
    Ok(())
}

// The bytes of a device, in hexadecimal digits.
fn tell_bytes<D: Device>(alloc: Global, device: &mut D, out: &mut Vec<u8>) -> Result<(), Refusal> {
    let Ok(len) = device.len() else {
        return Err(Refusal::Down);
    };
    let mut bytes = vec![in alloc; 0u8; len]?;
    if device.read_at(0, &mut bytes).is_err() {
        return Err(Refusal::Down);
    }
    tell(hex::encode(alloc, bytes.as_slice())?.as_str(), out)?;
    tell("\n", out)
}

fn tell(text: &str, out: &mut Vec<u8>) -> Result<(), Refusal> {
    Ok(out.extend_from_slice(text.as_bytes())?)
}
