// The changes that decided writes add.
ghost use Rattle.std.specs.Prelude.{◌≡◌, ◌++◌, IfOk, OnOk, OnErr};
ghost use Rattle.records.specs.Replays.{learned_rows};
ghost use Rattle.versions.specs.Alike.{AreAlike};
ghost use Rattle.versions.specs.Placed.{all_placed};

use holds::Holds;
use records::PlacedId;
use std::alloc::{AllocError, Global};
use versions::{PlacedChanges, Versions};

/// Adds the changes of these placed ids, each found among the writes in doubt. If memory is refused, nothing has changed.
pub fn apply_learned(
    versions: &mut Versions,
    alloc: Global,
    placed_ids: &[PlacedId],
    holds: &Holds,
) -> Result<(), AllocError>
    ensures ok { OnOk result (AreAlike versions.new (versions.old ++ learned_rows placed_ids.now holds.now)) }
    ensures err { OnErr result (versions.new ≡ versions.old) }
{
    let writes = learned_changes(alloc, placed_ids, holds)?;
    versions.apply_all(&writes)
}

// The changes of these placed ids, borrowed from the writes in doubt.
fn learned_changes<'a>(
    alloc: Global,
    placed_ids: &[PlacedId],
    holds: &'a Holds,
) -> Result<Vec<PlacedChanges<'a>>, AllocError>
    ensures { IfOk result (λ writes. all_placed writes.items ≡ learned_rows placed_ids.now holds.now) }
{
    let mut writes = Vec::with_capacity(alloc, placed_ids.len())?;
    for placed_id in placed_ids {
        if let Some(entry) = holds.find(placed_id.id) {
            writes.push(PlacedChanges {
                place: placed_id.place,
                changes: entry.changes.as_slice(),
            })?;
        }
    }
    Ok(writes)
}
