// Users, alone or as a set.
ghost use Rattle.std.specs.Prelude.{◌≡◌, ◌≤◌, ◌+◌, ◌++◌, length, vec_len, vec_capacity};
ghost use Rattle.tuples.specs.Parsing.{Parses};
ghost use Rattle.tuples.specs.Texts.{IsUser, user_text};

use crate::spell::append;
use crate::{Id, Refusal, Userset};
use std::alloc::Global;

/// Whom a tuple gives the relation: one user, or all of a userset. A plain user stands before a userset.
#[derive(Clone, Drop, PartialEq, Eq, PartialOrd, Ord)]
pub enum User {
    Id(Id),
    Set(Userset),
}

impl User {
    // Its parts are in their grammar, since their types keep that. It does nothing.
    pub(crate) fn keeps_grammar(&self)
        ensures { IsUser self.now }
    {
        match self {
            User::Id(id) => {
                let _id = id.as_bytes();
            }
            User::Set(userset) => userset.keeps_grammar(),
        }
    }

    // A `:` stands in the text of each userset, and in no id.
    pub(crate) fn parse(alloc: Global, text: &[u8]) -> Result<User, Refusal>
        ensures { Parses IsUser user_text text.now result }
    {
        if text.contains(&b':') {
            Ok(User::Set(Userset::parse(alloc, text)?))
        } else {
            Ok(User::Id(Id::parse(alloc, text)?))
        }
    }

    pub(crate) fn text_len(&self) -> usize
        ensures value { result ≡ length (user_text self.now) }
        ensures small { result ≤ 258 }
    {
        match self {
            User::Id(id) => id.as_bytes().len(),
            User::Set(userset) => userset.text_len(),
        }
    }

    pub(crate) fn append_to(&self, out: &mut Vec<u8>)
        requires room { vec_len out.old + length (user_text self.now) ≤ vec_capacity out.old }
        ensures items { out.new.items ≡ out.old.items ++ user_text self.now }
        ensures len { vec_len out.new ≡ vec_len out.old + length (user_text self.now) }
        ensures capacity { vec_capacity out.old ≤ vec_capacity out.new }
    {
        match self {
            User::Id(id) => append(out, id.as_bytes()),
            User::Set(userset) => userset.append_to(out),
        }
    }
}
