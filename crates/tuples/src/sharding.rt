// Which shard has an object.
ghost use Rattle.std.specs.Prelude.{◌≡◌, ◌<◌, ◌≤◌, length, sum};
ghost use Rattle.tuples.specs.Limits.{max_id, max_shards};
ghost use Rattle.tuples.specs.Parts.{shard_of as shard_number};

use crate::{Object, Packed, Shards};

/// The shard of the object, from 0 on: the sum of the bytes of its text modulo their number.
pub fn shard_of(object: &Object, shards: Shards) -> u8
    ensures value { result ≡ shard_number shards object.now }
    ensures below { result < shards }
    ensures few { result < max_shards }
{
    shard_of_names(object.namespace.as_bytes(), object.id.as_bytes(), shards)
}

impl Packed {
    /// The shard of the tuple's object.
    pub fn shard(&self, shards: Shards) -> u8
        ensures value { result ≡ shard_number shards self.now.object }
        ensures below { result < shards }
    {
        let parts = self.parts();
        shard_of_names(parts.userset.namespace, parts.userset.id, shards)
    }
}

#[tactic(auto, unfolding(crate::specs::Parts::shard_of))]
fn shard_of_names(namespace: &[u8], id: &[u8], shards: Shards) -> u8
    requires namespace { length namespace.now ≤ max_id }
    requires id { length id.now ≤ max_id }
    ensures value { result ≡ shard_number shards (record { namespace = namespace.now; id = id.now }) }
    ensures below { result < shards }
    ensures few { result < max_shards }
{
    let count = shards.count();
    let namespace = byte_sum(namespace);
    let id = byte_sum(id);
    ((namespace + u32::from(b':') + id) % u32::from(count)) as u8
}

fn byte_sum(bytes: &[u8]) -> u32
    requires { length bytes.now ≤ max_id }
    ensures value { result ≡ sum bytes.now }
    ensures small { result ≤ 32640 }
{
    bytes.iter().map(|b| u32::from(*b)).sum()
}
