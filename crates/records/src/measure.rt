// How long the record of a shard's part would be, found without allocating.
ghost use Rattle.std.specs.Prelude.{ℕ, ◌≡◌, ◌≤◌, ◌*◌, false, length};
ghost use Rattle.std.specs.List.{flat_map};
ghost use Rattle.records.specs.Format.{change_bytes, condition_bytes, object_bytes, record_bytes, text_bytes, tuple_bytes, user_bytes, want_bytes};
ghost use Rattle.records.specs.declared.record.Record.TheVariants.{Decision, Prepare};
ghost use Rattle.tuples.specs.Limits.{max_changes, max_conditions, max_id};
ghost use Rattle.tuples.specs.Parts.{part};

use crate::Identity;
use tuples::{Change, Condition, Entry, Object, PartChanges, PartConditions, Tuple, User, Want};

fn text_len(text: &[u8]) -> usize
    requires { length text.now ≤ max_id }
    ensures len { result ≡ length (text_bytes text.now) }
    ensures short { result ≤ 129 }
{
    1 + text.len()
}

fn object_len(object: &Object) -> usize
    ensures len { result ≡ length (object_bytes object.now) }
    ensures short { result ≤ 258 }
{
    text_len(object.namespace.as_bytes()) + text_len(object.id.as_bytes())
}

fn user_len(user: &User) -> usize
    ensures len { result ≡ length (user_bytes user.now) }
    ensures short { result ≤ 388 }
{
    match user {
        User::Id(id) => 1 + text_len(id.as_bytes()),
        User::Set(set) => 1 + object_len(&set.object) + text_len(set.relation.as_bytes()),
    }
}

fn tuple_len(tuple: &Tuple) -> usize
    ensures len { result ≡ length (tuple_bytes tuple.now) }
    ensures short { result ≤ 775 }
{
    object_len(&tuple.object) + text_len(tuple.relation.as_bytes()) + user_len(&tuple.user)
}

fn change_len(change: &Change) -> usize
    ensures len { result ≡ length (change_bytes change.now) }
    ensures short { result ≤ 776 }
{
    match change {
        Change::Touch(tuple) => 1 + tuple_len(tuple),
        Change::Delete(tuple) => 1 + tuple_len(tuple),
    }
}

fn want_len(want: &Want) -> usize
    ensures len { result ≡ length (want_bytes false want.now) }
    ensures short { result ≤ 9 }
{
    match want {
        Want::NotAfter(_) => 9,
        Want::Exists | Want::Absent => 1,
    }
}

fn condition_len(condition: &Condition) -> usize
    ensures len { result ≡ length (condition_bytes false condition.now) }
    ensures short { result ≤ 784 }
{
    tuple_len(&condition.tuple) + want_len(&condition.want)
}

fn changes_len(changes: PartChanges) -> usize
    requires few { length changes ≤ max_changes }
    ensures len { result ≡ length (flat_map change_bytes changes.entry) }
    ensures short { result ≤ 776 * max_changes }
{
    let mut len = 0;
    for change in changes {
        len += change_len(change);
    }
    len
}

fn conditions_len(conditions: PartConditions) -> usize
    requires few { length conditions ≤ max_conditions }
    ensures len { result ≡ length (flat_map (condition_bytes false) conditions.entry) }
    ensures short { result ≤ 784 * max_conditions }
{
    let mut len = 0;
    for condition in conditions {
        len += condition_len(condition);
    }
    len
}

/// The number of bytes of the record that prepares this shard's part of a write.
#[tactic(auto, unfolding(crate::specs::Format::record_bytes, tuples::specs::Parts::part))]
pub fn prepare_len(write: &Entry, me: Identity) -> usize
    requires few_changes { length write.now.changes ≤ max_changes }
    requires few_conditions { length write.now.conditions ≤ max_conditions }
    ensures { result ≡ length (record_bytes false (Prepare (part me.shards me.node write.now))) }
{
    let own = write.part_at(me.shards(), me.node());
    // the kind, the id, and the two numbers of what follows
    1 + 16 + 1 + changes_len(own.changes()) + 1 + conditions_len(own.conditions())
}

fn all_changes_len(changes: &[Change]) -> usize
    requires { length changes.now ≤ max_changes }
    ensures len { result ≡ length (flat_map change_bytes changes.now) }
    ensures short { result ≤ 776 * 64 }
{
    let mut len = 0;
    for change in changes {
        len += change_len(change);
    }
    len
}

fn all_conditions_len(conditions: &[Condition]) -> usize
    requires { length conditions.now ≤ max_conditions }
    ensures len { result ≡ length (flat_map (condition_bytes false) conditions.now) }
    ensures short { result ≤ 784 * 16 }
{
    let mut len = 0;
    for condition in conditions {
        len += condition_len(condition);
    }
    len
}

/// The number of bytes of the record that decides a write, at any place.
#[tactic(auto, unfolding(crate::specs::Format::record_bytes))]
pub fn decision_len(write: &Entry) -> usize
    requires few_changes { length write.now.changes ≤ max_changes }
    requires few_conditions { length write.now.conditions ≤ max_conditions }
    ensures { (place : ℕ) → result ≡ length (record_bytes false (Decision place write.now)) }
{
    let changes = all_changes_len(write.changes.as_slice());
    let conditions = all_conditions_len(write.conditions.as_slice());
    // the kind, the place, the id, and the two numbers of what follows
    1 + 8 + 16 + 1 + changes + 1 + conditions
}
