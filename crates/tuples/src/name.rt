// A short text of bytes, which contracts see as the list of its bytes.
ghost use Rattle.std.specs.Prelude.{◌≡◌, ◌==◌, ◌≤◌, ◌<◌, length, take, IfOk, OnErr};
ghost use Rattle.std.proofs.Common.{rules};
ghost use Rattle.std.specs.Cmp.{partial_order_from_own_ties};
ghost use Rattle.std.specs.Cmp.Rules.{comparing};
ghost use Rattle.std.specs.Cmp.Lexicographic.{pointwise, slice_cmp};
ghost use Rattle.std.specs.Int.{w64, from_be_bytes};
ghost use Rattle.std.specs.Ordering.{nat_cmp, as_partial_cmp};
ghost use Rattle.tuples.specs.Short.{IsSound, max_short, spelled};

use std::alloc::{AllocError, Global};
use std::cmp::Ordering;
use std::marker::Model;

/// The most bytes of a name that lie in its value: with their number and the kind of text they take the room of four words.
const MAX_SHORT: usize = 30;

/// Nearly all names are short, and to read, compare and copy such a one takes no look at memory elsewhere, and no memory.
#[derive(Drop)]
enum Text {
    Short { length: u8, bytes: [u8; MAX_SHORT] },
    Long(Vec<u8>),
}

/// Bytes, compared one by one, a beginning before the longer text.
#[derive(Drop)]
pub(crate) struct Name {
    text: Text,
}

impl Model for Name {
    ghost use Rattle.std.specs.Prelude.{List, ℕ};
    ghost use Rattle.tuples.specs.Short.{IsSound, spelled};

    ghost Value = { List ℕ };

    ghost view = { λ n. spelled n.text };

    ghost invariant = { λ n. IsSound n.text };
}

fn short(text: &[u8]) -> Text
    requires { length text.now ≤ max_short }
    ensures bytes { spelled result ≡ text.now }
    ensures sound { IsSound result }
{
    let mut bytes = [0; MAX_SHORT];
    bytes[..text.len()].copy_from_slice(text);
    Text::Short {
        length: text.len() as u8,
        bytes,
    }
}

impl Name {
    /// A name of these bytes. A short one takes no memory.
    pub fn from_slice(alloc: Global, bytes: &[u8]) -> Result<Self, AllocError>
        ensures name { IfOk result (λ name. name ≡ bytes.now) }
        ensures memory { OnErr result (max_short < length bytes.now) }
    {
        if bytes.len() <= MAX_SHORT {
            return Ok(Name { text: short(bytes) });
        }
        let bytes = Vec::from_slice(alloc, bytes)?;
        Ok(Name {
            text: Text::Long(bytes),
        })
    }

    pub fn as_bytes(&self) -> &[u8]
        ensures { result.now ≡ self.now }
    {
        match &self.text {
            Text::Short { length, bytes } => &bytes[..usize::from(*length)],
            Text::Long(bytes) => bytes,
        }
    }
}

// Long names mostly differ early, and a slice's own order would look for long equal beginnings first.
fn compare(a: &[u8], b: &[u8]) -> Ordering
    ensures { result ≡ slice_cmp nat_cmp a.now b.now }
{
    a.iter().cmp(b.iter())
}

// The first eight bytes as a number, which lies to others as they do.
fn word(bytes: &[u8]) -> u64
    requires { 8 ≤ length bytes.now }
    ensures { result ≡ from_be_bytes w64 bytes.now }
{
    u64::from_be_bytes([
        bytes[0], bytes[1], bytes[2], bytes[3], bytes[4], bytes[5], bytes[6], bytes[7],
    ])
}

fn compare_words(a: &[u8], b: &[u8]) -> Ordering
    requires a_word { 8 ≤ length a.now }
    requires b_word { 8 ≤ length b.now }
    ensures { result ≡ slice_cmp nat_cmp (take 8 a.now) (take 8 b.now) }
{
    word(a).cmp(&word(b))
}

// Four words cover all bytes, of which the last begins before the third ends.
fn compare_padded(a: &[u8; MAX_SHORT], b: &[u8; MAX_SHORT]) -> Ordering
    ensures order { result ≡ slice_cmp nat_cmp a.now b.now }
    ensures lengths { (length a.now ≡ max_short) × (length b.now ≡ max_short) }
{
    let order = compare_words(a, b);
    if order.is_ne() {
        return order;
    }
    let order = compare_words(&a[8..], &b[8..]);
    if order.is_ne() {
        return order;
    }
    let order = compare_words(&a[16..], &b[16..]);
    if order.is_ne() {
        return order;
    }
    compare_words(&a[22..], &b[22..])
}

impl PartialEq for Name {
    ghost eq = { pointwise ◌==◌ };

    ghost laws = { Prim.search (comparing, rules) };

    fn eq(&self, other: &Name) -> bool {
        self.cmp(other).is_eq()
    }
}

impl Eq for Name {
    ghost laws = { Prim.search (comparing, rules) };
}

impl Ord for Name {
    ghost cmp = { slice_cmp nat_cmp };

    ghost total = { Prim.search (comparing, rules) };

    ghost matches_partial_cmp = { Prim.search (comparing, rules) };

    ghost matches_eq = { Prim.search (comparing, rules) };

    fn cmp(&self, other: &Name) -> Ordering {
        match (&self.text, &other.text) {
            (
                Text::Short { length, bytes },
                Text::Short {
                    length: other_length,
                    bytes: other_bytes,
                },
            ) => compare_padded(bytes, other_bytes).then(length.cmp(other_length)),
            _ => compare(self.as_bytes(), other.as_bytes()),
        }
    }
}

impl PartialOrd for Name {
    ghost partial_cmp = { as_partial_cmp (slice_cmp nat_cmp) };

    ghost laws = { partial_order_from_own_ties (Prim.search (comparing, rules)) (Prim.search (comparing, rules)) };

    fn partial_cmp(&self, other: &Name) -> Option<Ordering> {
        Some(self.cmp(other))
    }
}

impl Clone for Name {
    ghost is_clone = { λ old new. new ≡ old };

    fn clone(&self) -> Result<Name, AllocError> {
        let text = match &self.text {
            Text::Short { length, bytes } => Text::Short {
                length: *length,
                bytes: *bytes,
            },
            Text::Long(bytes) => Text::Long(bytes.clone()?),
        };
        Ok(Name { text })
    }
}
