// Numbers and texts at the front of bytes, each with the bytes after it.
ghost use Rattle.std.specs.Int.{w16, w64};
ghost use Rattle.records.specs.Giving.{Gives};
ghost use Rattle.records.specs.Reading.{byte_at, id_at, name_at, number_at, positive_at, text_at};

use crate::unread::Unread;
use byteorder::{BigEndian, ByteOrder};
use std::alloc::Global;
use tuples::{Id, Namespace, Refusal, Relation};

pub(crate) fn byte_of(bytes: &[u8]) -> Result<(u8, &[u8]), Unread>
    ensures { Gives (λ x. (x.0, x.1.now)) result (byte_at bytes.now) }
{
    match bytes {
        [] => Err(Unread::Damaged),
        [byte, rest @ ..] => Ok((*byte, rest)),
    }
}

#[tactic(auto, unfolding(crate::specs::Reading::number_at))]
pub(crate) fn u16_of(bytes: &[u8]) -> Result<(u16, &[u8]), Unread>
    ensures { Gives (λ x. (x.0, x.1.now)) result (number_at w16 bytes.now) }
{
    if bytes.len() < 2 {
        return Err(Unread::Damaged);
    }
    let (front, rest) = bytes.split_at(2);
    Ok((BigEndian::read_u16(front), rest))
}

#[tactic(auto, unfolding(crate::specs::Reading::number_at))]
pub(crate) fn u64_of(bytes: &[u8]) -> Result<(u64, &[u8]), Unread>
    ensures { Gives (λ x. (x.0, x.1.now)) result (number_at w64 bytes.now) }
{
    if bytes.len() < 8 {
        return Err(Unread::Damaged);
    }
    let (front, rest) = bytes.split_at(8);
    Ok((BigEndian::read_u64(front), rest))
}

/// A number from 1 on.
#[tactic(auto, unfolding(crate::specs::Reading::positive_at))]
pub(crate) fn positive_of(bytes: &[u8]) -> Result<(u64, &[u8]), Unread>
    ensures { Gives (λ x. (x.0, x.1.now)) result (positive_at bytes.now) }
{
    let (number, rest) = u64_of(bytes)?;
    if number < 1 {
        return Err(Unread::Damaged);
    }
    Ok((number, rest))
}

#[tactic(auto, unfolding(crate::specs::Reading::text_at))]
fn text_of(bytes: &[u8]) -> Result<(&[u8], &[u8]), Unread>
    ensures { Gives (λ x. (x.0.now, x.1.now)) result (text_at bytes.now) }
{
    let (len, rest) = byte_of(bytes)?;
    let len = usize::from(len);
    if rest.len() < len {
        return Err(Unread::Damaged);
    }
    Ok(rest.split_at(len))
}

#[tactic(auto, unfolding(crate::specs::Reading::name_at))]
pub(crate) fn namespace_of(alloc: Global, bytes: &[u8]) -> Result<(Namespace, &[u8]), Unread>
    ensures { Gives (λ x. (x.0, x.1.now)) result (name_at bytes.now) }
{
    let (text, rest) = text_of(bytes)?;
    match Namespace::parse(alloc, text) {
        Ok(namespace) => Ok((namespace, rest)),
        Err(Refusal::NoMemory) => Err(Unread::NoMemory),
        Err(_) => Err(Unread::Damaged),
    }
}

#[tactic(auto, unfolding(crate::specs::Reading::name_at))]
pub(crate) fn relation_of(alloc: Global, bytes: &[u8]) -> Result<(Relation, &[u8]), Unread>
    ensures { Gives (λ x. (x.0, x.1.now)) result (name_at bytes.now) }
{
    let (text, rest) = text_of(bytes)?;
    match Relation::parse(alloc, text) {
        Ok(relation) => Ok((relation, rest)),
        Err(Refusal::NoMemory) => Err(Unread::NoMemory),
        Err(_) => Err(Unread::Damaged),
    }
}

#[tactic(auto, unfolding(crate::specs::Reading::id_at))]
pub(crate) fn id_of(alloc: Global, bytes: &[u8]) -> Result<(Id, &[u8]), Unread>
    ensures { Gives (λ x. (x.0, x.1.now)) result (id_at bytes.now) }
{
    let (text, rest) = text_of(bytes)?;
    match Id::parse(alloc, text) {
        Ok(id) => Ok((id, rest)),
        Err(Refusal::NoMemory) => Err(Unread::NoMemory),
        Err(_) => Err(Unread::Damaged),
    }
}
