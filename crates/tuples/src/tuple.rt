// Relation tuples (Zanzibar, USENIX ATC 2019, section 2.1).
ghost use Rattle.std.specs.Prelude.{◌≡◌, ◌⊎◌, ◌<◌, ◌+◌, ◌++◌, IfOk, IfErr, IsErrOf, OnOk, OnErr, length, vec_capacity, vec_len};
ghost use Rattle.tuples.specs.declared.tuple.Tuple.{Tuple as AnyTuple};
ghost use Rattle.tuples.specs.Order.{tuple_eq, tuple_lt};
ghost use Rattle.tuples.specs.Texts.{IsTuple, tuple_text};

use crate::spell::append;
use crate::split::split_first;
use crate::{Object, Refusal, Relation, User, Userset};
use std::alloc::{AllocError, Global};

/// The user has the relation to the object, as `doc:readme#viewer@ann` or `doc:readme#viewer@group:staff#member`.
///
/// Tuples are ordered by namespace, object id, relation and user, each byte by byte.
#[derive(Clone, Drop, PartialEq, Eq, PartialOrd, Ord)]
pub struct Tuple {
    pub object: Object,
    pub relation: Relation,
    pub user: User,
}

impl Tuple {
    /// Whether they are one tuple.
    #[tactic(auto, unfolding(crate::specs::Order::tuple_eq))]
    pub fn is(&self, other: &Tuple) -> bool
        ensures { result ≡ tuple_eq self.now other.now }
    {
        self.cmp(other).is_eq()
    }

    /// Whether this tuple stands before the other.
    #[tactic(auto, unfolding(crate::specs::Order::tuple_lt))]
    pub fn is_before(&self, other: &Tuple) -> bool
        ensures { result ≡ tuple_lt self.now other.now }
    {
        self.cmp(other).is_lt()
    }

    /// Each part of the tuple is in its grammar, since its type keeps that. It does nothing.
    pub fn keeps_grammar(&self)
        ensures { IsTuple self.now }
    {
        self.object.keeps_grammar();
        let _relation = self.relation.as_bytes();
        self.user.keeps_grammar();
    }

    /// The tuple that the text spells; `BadTuple` if it spells none.
    pub fn parse(alloc: Global, text: &[u8]) -> Result<Tuple, Refusal>
        ensures ok { IfOk result (λ t. IsTuple t × (text.now ≡ tuple_text t)) }
        ensures bad { IsErrOf result Refusal.BadTuple → (t : AnyTuple) → IsTuple t → text.now ≡ tuple_text t → ⊥ }
        ensures err { IfErr result (λ e. (e ≡ Refusal.BadTuple) ⊎ (e ≡ Refusal.NoMemory)) }
    {
        // What stands before the `@` is spelled as a userset is.
        let Some((front, user)) = split_first(text, b'@') else {
            return Err(Refusal::BadTuple);
        };
        let Userset { object, relation } = Userset::parse(alloc, front)?;
        let user = User::parse(alloc, user)?;
        Ok(Tuple {
            object,
            relation,
            user,
        })
    }

    /// Appends the text. It is refused only if the vector had no room for all of it, and then nothing is written.
    pub fn write_to(&self, out: &mut Vec<u8>) -> Result<(), AllocError>
        ensures ok { OnOk result (out.new.items ≡ out.old.items ++ tuple_text self.now) }
        ensures err { OnErr result (out.new.items ≡ out.old.items) }
        ensures memory { OnErr result (vec_capacity out.old < vec_len out.old + length (tuple_text self.now)) }
    {
        // With all the room there is before the first byte, a refusal leaves no part of the text.
        out.reserve(self.text_len())?;
        self.object.append_to(out);
        out.push_reserved(b'#');
        append(out, self.relation.as_bytes());
        out.push_reserved(b'@');
        self.user.append_to(out);
        Ok(())
    }

    fn text_len(&self) -> usize
        ensures { result ≡ length (tuple_text self.now) }
    {
        self.object.text_len() + 1 + self.relation.as_bytes().len() + 1 + self.user.text_len()
    }
}
