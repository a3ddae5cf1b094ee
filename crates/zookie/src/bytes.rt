// The bytes of a token: a version, a reserved byte, the store and the place.
ghost use Rattle.std.specs.Prelude.{◌≡◌, ◌≤◌, ◌+◌, take, drop, MatchOption};
ghost use Rattle.std.specs.Int.{w64, to_be_bytes};
ghost use Rattle.zookie.specs.Bytes.{AreNoZookie};
ghost use Rattle.zookie.specs.Zookies.{ArePair, zookie_bytes};

use crate::Zookie;
use byteorder::{BigEndian, ByteOrder};

/// The number of bytes of a token.
pub(crate) const BYTES: usize = 18;

const VERSION: u8 = 1;

const RESERVED: u8 = 0;

// Where the two numbers begin.
const STORE: usize = 2;

const PLACE: usize = 10;

/// The bytes of the token.
pub(crate) fn bytes_of(zookie: &Zookie) -> [u8; BYTES]
    ensures { result ≡ zookie_bytes zookie.now.store zookie.now.place }
{
    let mut bytes = [0; BYTES];
    bytes[0] = VERSION;
    bytes[1] = RESERVED;
    BigEndian::write_u64(&mut bytes[STORE..], zookie.store);
    BigEndian::write_u64(&mut bytes[PLACE..], zookie.place);
    bytes
}

/// The token that has these bytes.
pub(crate) fn zookie_of(bytes: &[u8; BYTES]) -> Option<Zookie>
    ensures { MatchOption result (AreNoZookie bytes.now) (λ z. ArePair z.store z.place × (bytes.now ≡ zookie_bytes z.store z.place)) }
{
    if bytes[0] != VERSION || bytes[1] != RESERVED {
        return None;
    }
    Some(Zookie {
        store: number_at(bytes, STORE),
        place: number_at(bytes, PLACE),
    })
}

// The number in the eight bytes from there on.
fn number_at(bytes: &[u8; BYTES], at: usize) -> u64
    requires { at + 8 ≤ 18 }
    ensures { to_be_bytes w64 result ≡ take 8 (drop at bytes.now) }
{
    let mut number = [0; 8];
    number.copy_from_slice(&bytes[at..at + 8]);
    u64::from_be_bytes(number)
}
