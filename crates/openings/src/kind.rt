// What the records of a node have to be, and what is made of them.
ghost use Rattle.std.specs.Prelude.{◌≡◌, ◌⊎◌, ◌≤◌, ◌<◌, ℕ, List, Some, IfOk, IfErr, IsErrOf};
ghost use Rattle.records.specs.declared.record.Record.{Record as AnyRecord};
ghost use Rattle.records.specs.Identity.{Identity as AnyIdentity};
ghost use Rattle.records.specs.Replays.{greatest_number};
ghost use Rattle.openings.specs.Openings.{AreReplayed, reopened};

use journal::Unread;
use records::Identity;
use std::alloc::Global;
use tuples::Refusal;

/// A kind of node, as an opening knows it.
pub trait NodeKind {
    /// What is made of the records, and kept.
    type Memory: Drop;

    /// A node of this kind may have this identity.
    ghost names: { AnyIdentity → Type 0 };

    /// The records are those of this node.
    ghost image: { AnyIdentity → List AnyRecord → Type 0 };

    /// The memory was made of these records.
    ghost made_of: { List AnyRecord → Self.Memory → Type 0 };

    /// How often a node with these records was opened.
    ghost epoch_in: { List AnyRecord → ℕ };

    /// Replays the records. `Damaged` if they are not those of this node, or can't be read; `NoMemory`.
    fn replayed(alloc: Global, me: Identity, unread: Unread) -> Result<Self::Memory, Refusal>
        ensures ok { IfOk result (λ m. AreReplayed image made_of me unread.records m) }
        ensures damaged { IsErrOf result Refusal.Damaged → (rs : List AnyRecord) → unread.records ≡ Some rs → image me rs → ⊥ }
        ensures err { IfErr result (λ e. (e ≡ Refusal.Damaged) ⊎ (e ≡ Refusal.NoMemory)) };

    /// How often the node was opened.
    fn epoch(memory: &Self::Memory) -> u64
        ensures value { (rs : List AnyRecord) → made_of rs memory.now → result ≡ epoch_in rs }
        ensures fits { (me : AnyIdentity) (rs : List AnyRecord) → image me rs → made_of rs memory.now → result ≤ greatest_number };

    /// One more opening leaves them those of the node.
    ghost opens: { (me : AnyIdentity) (rs : List AnyRecord) → names me → image me rs → epoch_in rs < greatest_number → image me (reopened epoch_in me rs) };
}
