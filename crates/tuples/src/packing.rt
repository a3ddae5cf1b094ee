// What a tuple's two texts have in common: its names and ids, with a mark below each byte of theirs after all but the last.
ghost use Rattle.std.specs.Prelude.{◌≡◌, ◌≤◌, ◌+◌, ◌++◌, length};
ghost use Rattle.std.specs.List.{position};
ghost use Rattle.tuples.specs.Named.{named_user, named_userset};
ghost use Rattle.tuples.specs.Packing.{behind as behind_mark, behind_user as behind_users, front as front_of, is_mark, is_of_set, max_packed, unpacked_user, unpacked_userset, user_packing, userset_packing};
ghost use Rattle.tuples.specs.Texts.{IsUser, IsUserset};

use crate::{UserRef, UsersetRef};
use arrayvec::ArrayVec;

// After a name or an id, but below each byte of theirs. The mark before a user tells its kind.
pub(crate) const END: u8 = 0;

const PLAIN: u8 = 1;

const SET: u8 = 2;

// The bytes of all names and ids of a tuple at most, and of the marks after all but the last.
pub(crate) const MAX_PACKED: usize = 517;

pub(crate) fn append(text: &mut ArrayVec<u8, MAX_PACKED>, bytes: &[u8])
    requires { length text.old.items + length bytes.now ≤ max_packed }
    ensures items { text.new.items ≡ text.old.items ++ bytes.now }
    ensures len { length text.new.items ≡ length text.old.items + length bytes.now }
{
    text.try_extend_from_slice(bytes).unwrap();
}

pub(crate) fn append_userset(text: &mut ArrayVec<u8, MAX_PACKED>, userset: &UsersetRef<'_>)
    requires room { length text.old.items + 258 ≤ max_packed }
    requires spelled { IsUserset (named_userset userset.now) }
    ensures items { text.new.items ≡ text.old.items ++ userset_packing (named_userset userset.now) }
    ensures len { length text.new.items ≤ length text.old.items + 258 }
{
    append(text, userset.namespace);
    text.push(END);
    append(text, userset.id);
    text.push(END);
    append(text, userset.relation);
}

pub(crate) fn append_user(text: &mut ArrayVec<u8, MAX_PACKED>, user: &UserRef<'_>)
    requires room { length text.old.items + 259 ≤ max_packed }
    requires spelled { IsUser (named_user user.now) }
    ensures items { text.new.items ≡ text.old.items ++ user_packing (named_user user.now) }
    ensures len { length text.new.items ≤ length text.old.items + 259 }
{
    match user {
        UserRef::Id(id) => {
            text.push(PLAIN);
            append(text, id);
        }
        UserRef::Set(userset) => {
            text.push(SET);
            append_userset(text, userset);
        }
    }
}

// A text around its first mark.
#[derive(Clone, Copy)]
pub(crate) struct Cut<'a> {
    pub front: &'a [u8],
    pub is_set: bool,
    pub behind: &'a [u8],
}

pub(crate) fn cut_first(text: &[u8]) -> Cut<'_>
    ensures front { result.front.now ≡ front_of text.now }
    ensures is_set { result.is_set ≡ is_of_set text.now }
    ensures behind { result.behind.now ≡ behind_mark text.now }
{
    match mark_place(text) {
        Some(at) => Cut {
            front: &text[..at],
            is_set: text[at] == SET,
            behind: &text[at + 1..],
        },
        None => Cut {
            front: text,
            is_set: false,
            behind: &[],
        },
    }
}

fn mark_place(text: &[u8]) -> Option<usize>
    ensures { result ≡ position is_mark text.now }
{
    text.iter().position(|byte| *byte <= SET)
}

pub(crate) fn userset_at(text: &[u8]) -> UsersetRef<'_>
    ensures { named_userset result ≡ unpacked_userset text.now }
{
    let first = cut_first(text);
    let second = cut_first(first.behind);
    UsersetRef {
        namespace: first.front,
        id: second.front,
        relation: cut_first(second.behind).front,
    }
}

// The user at whose packing the text begins, after its mark.
pub(crate) fn user_at(is_set: bool, text: &[u8]) -> UserRef<'_>
    ensures { named_user result ≡ unpacked_user is_set text.now }
{
    if is_set {
        UserRef::Set(userset_at(text))
    } else {
        UserRef::Id(cut_first(text).front)
    }
}

// What stands after that user.
pub(crate) fn behind_user(is_set: bool, text: &[u8]) -> &[u8]
    ensures { result.now ≡ behind_users is_set text.now }
{
    let first = cut_first(text);
    if !is_set {
        return first.behind;
    }
    cut_first(cut_first(first.behind).behind).behind
}
