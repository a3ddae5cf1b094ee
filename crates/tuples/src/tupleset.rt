// Which tuples a read asks for (Zanzibar, USENIX ATC 2019, section 2.4.1).
ghost use Rattle.std.specs.Prelude.{◌≡◌, ◌⊎◌, ◌++◌, ◌∷◌, IfOk, IfErr, IsErrOf, option_map};
ghost use Rattle.tuples.specs.declared.tupleset.Tupleset.{Tupleset as AnyTupleset};
ghost use Rattle.tuples.specs.Parsing.{Lacks, Parses};
ghost use Rattle.tuples.specs.Texts.{IsRelation, IsTupleset, relation_text, tupleset_text};

use crate::split::split_first;
use crate::{Namespace, Object, Refusal, Relation, Tuple, User};
use std::alloc::Global;

/// Which tuples a read asks for.
#[derive(Clone, Drop, PartialEq, Eq)]
pub enum Tupleset {
    /// One tuple, as `doc:readme#viewer@ann`.
    Key(Tuple),
    /// Those of an object, with this relation if one is given, as `doc:readme` or `doc:readme#viewer`.
    OfObject(Object, Option<Relation>),
    /// Those in a namespace that name this user, with this relation if one is given, as `doc@ann` or `doc#viewer@ann`.
    OfUser(Namespace, User, Option<Relation>),
}

impl Tupleset {
    /// The tupleset that the text spells; `BadTuple` if it spells none.
    pub fn parse(alloc: Global, text: &[u8]) -> Result<Tupleset, Refusal>
        ensures ok { IfOk result (λ q. IsTupleset q × (text.now ≡ tupleset_text q)) }
        ensures bad { IsErrOf result Refusal.BadTuple → (q : AnyTupleset) → IsTupleset q → text.now ≡ tupleset_text q → ⊥ }
        ensures err { IfErr result (λ e. (e ≡ Refusal.BadTuple) ⊎ (e ≡ Refusal.NoMemory)) }
    {
        let Some((front, user)) = split_first(text, b'@') else {
            return parse_of_object(alloc, text);
        };
        if front.contains(&b':') {
            return Ok(Tupleset::Key(Tuple::parse(alloc, text)?));
        }
        parse_of_user(alloc, front, user)
    }
}

// `namespace:id` or `namespace:id#relation`
fn parse_of_object(alloc: Global, text: &[u8]) -> Result<Tupleset, Refusal>
    requires { Lacks 64 text.now }
    ensures { Parses IsTupleset tupleset_text text.now result }
{
    let (object, relation) = split_relation(text);
    let object = Object::parse(alloc, object)?;
    let relation = parse_relation(alloc, relation)?;
    Ok(Tupleset::OfObject(object, relation))
}

// `namespace` or `namespace#relation`, with the user after the `@`
fn parse_of_user(alloc: Global, front: &[u8], user: &[u8]) -> Result<Tupleset, Refusal>
    requires no_user { Lacks 64 front.now }
    requires no_object { Lacks 58 front.now }
    ensures { Parses IsTupleset tupleset_text (front.now ++ 64 ∷ user.now) result }
{
    let (namespace, relation) = split_relation(front);
    let namespace = Namespace::parse(alloc, namespace)?;
    let relation = parse_relation(alloc, relation)?;
    let user = User::parse(alloc, user)?;
    Ok(Tupleset::OfUser(namespace, user, relation))
}

// What stands before the first `#`, and what after it if there is one.
fn split_relation(text: &[u8]) -> (&[u8], Option<&[u8]>)
    ensures first { Lacks 35 result.0.now }
    ensures whole { text.now ≡ result.0.now ++ relation_text (option_map (λ r. r.now) result.1) }
{
    match split_first(text, b'#') {
        None => (text, None),
        Some((front, relation)) => (front, Some(relation)),
    }
}

fn parse_relation(alloc: Global, relation: Option<&[u8]>) -> Result<Option<Relation>, Refusal>
    ensures { Parses IsRelation relation_text (relation_text (option_map (λ r. r.now) relation.entry)) result }
{
    match relation {
        None => Ok(None),
        Some(relation) => Ok(Some(Relation::parse(alloc, relation)?)),
    }
}
