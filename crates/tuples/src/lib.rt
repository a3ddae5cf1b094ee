//! Relation tuples, and the writes that change them.
//!
//! Keeps: each name and id is in its grammar, and a `Write` names no tuple twice and is within its limits.
//! Never: touches a device, or looks at more than the values that it is given.
//! Callers rely on: `==` and `cmp` are those of the texts.
//!
//! Start at `specs/Texts.antt`, the one text of each value, and `specs/Log.antt`, what a list of writes means.
#![tactic(auto)]

mod change;
mod entry;
mod freshness;
mod grammar;
mod id;
mod laws;
mod limits;
mod name;
mod namespace;
mod object;
mod packed;
mod packed_by_user;
mod packing;
mod part;
mod participants;
mod relation;
mod request;
mod sharding;
mod shards;
mod spell;
mod split;
mod tuple;
mod tuple_ref;
mod tupleset;
mod user;
mod version;
mod write;

pub use change::{Change, Changes, Condition, Conditions, Want};
pub use entry::{Entry, WriteId};
pub use freshness::Freshness;
pub use id::Id;
pub use laws::{a_text_is_of_one_tuple, a_text_is_of_one_tupleset, a_tuple_has_one_text};
pub use limits::{
    MAX_ASKED, MAX_BATCH, MAX_CHANGES, MAX_CONDITIONS, MAX_FLOWS, MAX_LINE, MAX_NUMBER, MAX_OPEN,
    MAX_SHARDS, MAX_WALKED, MAX_WATCHED,
};
pub use namespace::Namespace;
pub use object::{Object, Userset};
pub use packed::Packed;
pub use packed_by_user::PackedByUser;
pub use part::{PartChanges, PartConditions, ShardPart};
pub use refusal::Refusal;
pub use relation::Relation;
pub use request::Request;
pub use sharding::shard_of;
pub use shards::Shards;
pub use tuple::Tuple;
pub use tuple_ref::{TupleRef, UserRef, UsersetRef};
pub use tupleset::Tupleset;
pub use user::User;
pub use version::Version;
pub use write::{Write, are_changes_distinct, are_conditions_distinct};
