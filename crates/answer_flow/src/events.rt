// The events of decisions.
ghost use Rattle.std.specs.Prelude.{◌≡◌, ◌+◌, ◌++◌, IfOk, OnOk, filter};
ghost use Rattle.tuples.specs.Versions.{placed};
ghost use Rattle.tuples.specs.Watching.{events_from, is_among};

use decisions::Batch;
use std::alloc::{AllocError, Global};
use tuples::{Change, Entry, Namespace, Version};

/// The changes of a batch in these namespaces, each with its place.
pub(crate) fn events_of(
    alloc: Global,
    namespaces: &[Namespace],
    batch: &Batch,
) -> Result<Vec<Version>, AllocError>
    ensures { IfOk result (λ events. events.items ≡ events_from (batch.now.from + 1) namespaces.now batch.now.writes) }
{
    let mut events = Vec::new(alloc);
    let _end = batch.to();
    let mut place = batch.from();
    for write in batch.writes() {
        place += 1;
        push_events(&mut events, namespaces, place, write.changes.as_slice())?;
    }
    Ok(events)
}

// The changes of one write.
fn push_events(
    events: &mut Vec<Version>,
    namespaces: &[Namespace],
    place: u64,
    changes: &[Change],
) -> Result<(), AllocError>
    ensures { OnOk result (events.new.items ≡ events.old.items ++ placed place (filter (is_among namespaces.now) changes.now)) }
{
    for change in changes {
        if is_in(namespaces, change) {
            let change = copied(change)?;
            events.push(Version { place, change })?;
        }
    }
    Ok(())
}

fn is_in(namespaces: &[Namespace], change: &Change) -> bool
    ensures { result ≡ is_among namespaces.now change.now }
{
    let own = &change.tuple().object.namespace;
    namespaces
        .iter()
        .any(|namespace| own.cmp(namespace).is_eq())
}

fn copied(change: &Change) -> Result<Change, AllocError>
    ensures { IfOk result (λ copy. copy ≡ change.now) }
{
    change.clone()
}
