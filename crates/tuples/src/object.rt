// Objects, and sets of users by a relation to one.
ghost use Rattle.std.specs.Prelude.{◌≡◌, ◌≤◌, ◌+◌, ◌++◌, length, vec_len, vec_capacity};
ghost use Rattle.tuples.specs.Parsing.{Parses};
ghost use Rattle.tuples.specs.Texts.{IsObject, IsUserset, object_text, userset_text};

use crate::spell::append;
use crate::split::split_first;
use crate::{Id, Namespace, Refusal, Relation};
use std::alloc::Global;

/// What a relation is about, as `doc:readme`.
#[derive(Clone, Drop, PartialEq, Eq, PartialOrd, Ord)]
pub struct Object {
    pub namespace: Namespace,
    pub id: Id,
}

impl Object {
    // Its parts are in their grammar, since their types keep that. It does nothing.
    pub(crate) fn keeps_grammar(&self)
        ensures { IsObject self.now }
    {
        let _namespace = self.namespace.as_bytes();
        let _id = self.id.as_bytes();
    }

    pub(crate) fn parse(alloc: Global, text: &[u8]) -> Result<Object, Refusal>
        ensures { Parses IsObject object_text text.now result }
    {
        let Some((namespace, id)) = split_first(text, b':') else {
            return Err(Refusal::BadTuple);
        };
        let namespace = Namespace::parse(alloc, namespace)?;
        let id = Id::parse(alloc, id)?;
        Ok(Object { namespace, id })
    }

    pub(crate) fn text_len(&self) -> usize
        ensures value { result ≡ length (object_text self.now) }
        ensures small { result ≤ 193 }
    {
        self.namespace.as_bytes().len() + 1 + self.id.as_bytes().len()
    }

    pub(crate) fn append_to(&self, out: &mut Vec<u8>)
        requires room { vec_len out.old + length (object_text self.now) ≤ vec_capacity out.old }
        ensures items { out.new.items ≡ out.old.items ++ object_text self.now }
        ensures len { vec_len out.new ≡ vec_len out.old + length (object_text self.now) }
        ensures capacity { vec_capacity out.old ≤ vec_capacity out.new }
    {
        append(out, self.namespace.as_bytes());
        out.push_reserved(b':');
        append(out, self.id.as_bytes());
    }
}

/// All users that have the relation to the object, as `group:staff#member`.
#[derive(Clone, Drop, PartialEq, Eq, PartialOrd, Ord)]
pub struct Userset {
    pub object: Object,
    pub relation: Relation,
}

impl Userset {
    // Its parts are in their grammar, since their types keep that. It does nothing.
    pub(crate) fn keeps_grammar(&self)
        ensures { IsUserset self.now }
    {
        self.object.keeps_grammar();
        let _relation = self.relation.as_bytes();
    }

    pub(crate) fn parse(alloc: Global, text: &[u8]) -> Result<Userset, Refusal>
        ensures { Parses IsUserset userset_text text.now result }
    {
        let Some((object, relation)) = split_first(text, b'#') else {
            return Err(Refusal::BadTuple);
        };
        let object = Object::parse(alloc, object)?;
        let relation = Relation::parse(alloc, relation)?;
        Ok(Userset { object, relation })
    }

    pub(crate) fn text_len(&self) -> usize
        ensures value { result ≡ length (userset_text self.now) }
        ensures small { result ≤ 258 }
    {
        self.object.text_len() + 1 + self.relation.as_bytes().len()
    }

    pub(crate) fn append_to(&self, out: &mut Vec<u8>)
        requires room { vec_len out.old + length (userset_text self.now) ≤ vec_capacity out.old }
        ensures items { out.new.items ≡ out.old.items ++ userset_text self.now }
        ensures len { vec_len out.new ≡ vec_len out.old + length (userset_text self.now) }
        ensures capacity { vec_capacity out.old ≤ vec_capacity out.new }
    {
        self.object.append_to(out);
        out.push_reserved(b'#');
        append(out, self.relation.as_bytes());
    }
}
