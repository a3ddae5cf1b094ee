// A tuple that is told by where its names and ids lie.
ghost use Rattle.std.specs.Prelude.{◌≡◌, IfOk};
ghost use Rattle.std.specs.Ordering.{is_eq};
ghost use Rattle.tuples.specs.Named.{named_tuple, named_user, named_userset};
ghost use Rattle.tuples.specs.Order.{name_cmp, object_cmp, user_cmp, userset_cmp};
ghost use Rattle.tuples.specs.Reads.{same_name};
ghost use Rattle.tuples.specs.Texts.{IsTuple, IsUser, IsUserset};
ghost use Rattle.tuples.specs.Walking.{is_set};

use crate::{Id, Namespace, Object, Relation, Tuple, User, Userset};
use std::alloc::{AllocError, Global};

fn are_same(a: &[u8], b: &[u8]) -> bool
    ensures { result ≡ is_eq (name_cmp a.now b.now) }
{
    a == b
}

/// A userset, by where its names and its id lie.
#[derive(Clone, Copy)]
pub struct UsersetRef<'a> {
    pub namespace: &'a [u8],
    pub id: &'a [u8],
    pub relation: &'a [u8],
}

/// A user, by where its names and its id lie.
#[derive(Clone, Copy)]
pub enum UserRef<'a> {
    Id(&'a [u8]),
    Set(UsersetRef<'a>),
}

/// A tuple, by where its names and ids lie: the userset of its object and relation, and its user. Nothing is copied for it.
#[derive(Clone, Copy)]
pub struct TupleRef<'a> {
    pub userset: UsersetRef<'a>,
    pub user: UserRef<'a>,
}

impl UsersetRef<'_> {
    fn copy(&self, alloc: Global) -> Result<Userset, AllocError>
        requires { IsUserset (named_userset self.now) }
        ensures { IfOk result (λ userset. userset ≡ named_userset self.now) }
    {
        let namespace = Namespace::of(alloc, self.namespace)?;
        let id = Id::of(alloc, self.id)?;
        let relation = Relation::of(alloc, self.relation)?;
        let object = Object { namespace, id };
        Ok(Userset { object, relation })
    }

    #[tactic(auto, using(crate::proofs::Same::is_eq_then))]
    fn is_of(&self, object: &Object) -> bool
        ensures { result ≡ is_eq (object_cmp (named_userset self.now).object object.now) }
    {
        are_same(self.namespace, object.namespace.as_bytes())
            && are_same(self.id, object.id.as_bytes())
    }

    #[tactic(auto, using(crate::proofs::Same::is_eq_then))]
    fn is(&self, userset: &Userset) -> bool
        ensures { result ≡ is_eq (userset_cmp (named_userset self.now) userset.now) }
    {
        self.is_of(&userset.object) && are_same(self.relation, userset.relation.as_bytes())
    }
}

impl UserRef<'_> {
    fn copy(&self, alloc: Global) -> Result<User, AllocError>
        requires { IsUser (named_user self.now) }
        ensures { IfOk result (λ user. user ≡ named_user self.now) }
    {
        match self {
            UserRef::Id(id) => Ok(User::Id(Id::of(alloc, id)?)),
            UserRef::Set(userset) => Ok(User::Set(userset.copy(alloc)?)),
        }
    }

    fn is(&self, user: &User) -> bool
        ensures { result ≡ is_eq (user_cmp (named_user self.now) user.now) }
    {
        match (self, user) {
            (UserRef::Id(id), User::Id(other)) => are_same(id, other.as_bytes()),
            (UserRef::Set(userset), User::Set(other)) => userset.is(other),
            _ => false,
        }
    }
}

impl TupleRef<'_> {
    /// The tuple in values of its own.
    pub(crate) fn copy(&self, alloc: Global) -> Result<Tuple, AllocError>
        requires { IsTuple (named_tuple self.now) }
        ensures { IfOk result (λ tuple. tuple ≡ named_tuple self.now) }
    {
        let Userset { object, relation } = self.userset.copy(alloc)?;
        let user = self.user.copy(alloc)?;
        Ok(Tuple {
            object,
            relation,
            user,
        })
    }

    /// Whether it is a tuple of the object.
    pub fn is_of(&self, object: &Object) -> bool
        ensures { result ≡ is_eq (object_cmp (named_tuple self.now).object object.now) }
    {
        self.userset.is_of(object)
    }

    /// Whether its object is in the namespace.
    pub fn is_in(&self, namespace: &Namespace) -> bool
        ensures { result ≡ same_name (named_tuple self.now).object.namespace namespace.now }
    {
        are_same(self.userset.namespace, namespace.as_bytes())
    }

    pub fn has_relation(&self, relation: &Relation) -> bool
        ensures { result ≡ same_name (named_tuple self.now).relation relation.now }
    {
        are_same(self.userset.relation, relation.as_bytes())
    }

    pub fn has_user(&self, user: &User) -> bool
        ensures { result ≡ is_eq (user_cmp (named_tuple self.now).user user.now) }
    {
        self.user.is(user)
    }

    /// Whether its user is a userset.
    pub fn names_set(&self) -> bool
        ensures { result ≡ is_set (named_tuple self.now).user }
    {
        matches!(self.user, UserRef::Set(_))
    }
}

impl Userset {
    fn lent(&self) -> UsersetRef<'_>
        ensures { named_userset result ≡ self.now }
    {
        UsersetRef {
            namespace: self.object.namespace.as_bytes(),
            id: self.object.id.as_bytes(),
            relation: self.relation.as_bytes(),
        }
    }
}

impl User {
    fn lent(&self) -> UserRef<'_>
        ensures { named_user result ≡ self.now }
    {
        match self {
            User::Id(id) => UserRef::Id(id.as_bytes()),
            User::Set(userset) => UserRef::Set(userset.lent()),
        }
    }
}

impl Tuple {
    /// The tuple, by where its names and ids lie.
    pub fn parts(&self) -> TupleRef<'_>
        ensures value { named_tuple result ≡ self.now }
        ensures grammar { IsTuple self.now }
    {
        self.keeps_grammar();
        let userset = UsersetRef {
            namespace: self.object.namespace.as_bytes(),
            id: self.object.id.as_bytes(),
            relation: self.relation.as_bytes(),
        };
        let user = self.user.lent();
        TupleRef { userset, user }
    }
}
