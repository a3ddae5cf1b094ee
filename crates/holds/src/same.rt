// Ids of writes that are compared.
ghost use Rattle.std.specs.Prelude.{◌≡◌};
ghost use Rattle.tuples.specs.Log.{same_id};

use tuples::WriteId;

/// Whether they are the same id.
pub fn is_same(a: WriteId, b: WriteId) -> bool
    ensures { result ≡ same_id a b }
{
    a.epoch == b.epoch && a.number == b.number
}
