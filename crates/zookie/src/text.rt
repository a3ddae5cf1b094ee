// The text of a token: its bytes in the standard alphabet of RFC 4648.
ghost use Rattle.std.specs.Prelude.{◌≡◌, MatchOption};
ghost use Rattle.base64.specs.Engines.{standard};
ghost use Rattle.base64.specs.GeneralPurpose.{decode_of, encode_of};
ghost use Rattle.zookie.specs.Bytes.{IsTextOfNone};

use crate::bytes::BYTES;
use base64::engine::general_purpose::STANDARD;

// Four characters for each three bytes, with no padding.
const CHARACTERS: usize = BYTES / 3 * 4;

pub(crate) fn text_of_bytes(bytes: &[u8; BYTES]) -> [u8; CHARACTERS]
    ensures { result ≡ encode_of standard bytes.now }
{
    let mut text = [0; CHARACTERS];
    match STANDARD.encode_slice(bytes, &mut text) {
        Ok(_) => text,
        Err(_) => unreachable!(),
    }
}

/// The bytes that have the text; `None` if it is that of no so many bytes.
pub(crate) fn bytes_of_text(text: &[u8]) -> Option<[u8; BYTES]>
    ensures { MatchOption result (IsTextOfNone text.now) (λ bytes. (decode_of standard text.now ≡ Ok bytes) × (text.now ≡ encode_of standard bytes)) }
{
    if text.len() != CHARACTERS {
        return None;
    }
    let mut bytes = [0; BYTES];
    // Fewer bytes are those of a text with padding.
    match STANDARD.decode_slice_unchecked(text, &mut bytes) {
        Ok(BYTES) => Some(bytes),
        Ok(_) => None,
        Err(_) => None,
    }
}
