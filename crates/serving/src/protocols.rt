// What other protocols begin with.
ghost use Rattle.std.specs.Prelude.{◌≡◌, All, Any, false, map, true};
ghost use Rattle.serving.specs.Protocols.{Begins, BeginsOther, MayBegin};

/// What a request of HTTP begins with, of its second version too, and a hello of TLS.
const OTHERS: &[&[u8]] = &[
    b"GET ",
    b"POST ",
    b"PUT ",
    b"HEAD ",
    b"DELETE ",
    b"OPTIONS ",
    b"PATCH ",
    b"CONNECT ",
    b"TRACE ",
    b"PRI ",
    b"\x16\x03",
];

// Whether the bytes are these and then some.
#[tactic(auto, using(crate::proofs::Prefixes::begins_none))]
fn has_prefix(bytes: &[u8], prefix: &[u8]) -> bool
    ensures some { result ≡ true → Begins bytes.now prefix.now }
    ensures none { result ≡ false → Begins bytes.now prefix.now → ⊥ }
{
    bytes.starts_with(prefix)
}

// Whether the bytes begin with one of these.
fn begins(bytes: &[u8], marks: &[&[u8]]) -> bool
    ensures some { result ≡ true → Any (λ mark. Begins bytes.now mark.now) marks.now }
    ensures none { result ≡ false → All (λ mark. Begins bytes.now mark → ⊥) (map (λ mark. mark.now) marks.now) }
{
    for mark in marks {
        if has_prefix(bytes, mark) {
            return true;
        }
    }
    false
}

// Whether one of these begins with the bytes.
fn may_begin(bytes: &[u8], marks: &[&[u8]]) -> bool
    ensures none { result ≡ false → All (λ mark. Begins mark bytes.now → ⊥) (map (λ mark. mark.now) marks.now) }
{
    for mark in marks {
        if has_prefix(mark, bytes) {
            return true;
        }
    }
    false
}

/// Whether the bytes begin as another protocol.
pub(crate) fn begins_other(bytes: &[u8]) -> bool
    ensures some { result ≡ true → BeginsOther bytes.now }
    ensures none { result ≡ false → BeginsOther bytes.now → ⊥ }
{
    begins(bytes, OTHERS)
}

/// Whether another protocol may begin with the bytes.
pub(crate) fn may_begin_other(bytes: &[u8]) -> bool
    ensures none { result ≡ false → MayBegin bytes.now → ⊥ }
{
    may_begin(bytes, OTHERS)
}
