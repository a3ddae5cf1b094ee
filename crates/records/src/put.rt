// Bytes, numbers and texts at the end of a vector.
ghost use Rattle.std.specs.Prelude.{◌<◌, [], ◌∷◌, length};
ghost use Rattle.std.specs.Int.{w16, w64, to_be_bytes};
ghost use Rattle.records.specs.Format.{text_bytes};
ghost use Rattle.records.specs.Putting.{Puts};

use byteorder::{BigEndian, ByteOrder};
use std::alloc::AllocError;

pub(crate) fn put_bytes(out: &mut Vec<u8>, bytes: &[u8]) -> Result<(), AllocError>
    ensures { Puts out.old out.new bytes.now result }
{
    out.extend_from_slice(bytes)
}

pub(crate) fn put_byte(out: &mut Vec<u8>, byte: u8) -> Result<(), AllocError>
    ensures { Puts out.old out.new (byte ∷ []) result }
{
    put_bytes(out, &[byte])
}

pub(crate) fn put_u16(out: &mut Vec<u8>, number: u16) -> Result<(), AllocError>
    ensures { Puts out.old out.new (to_be_bytes w16 number) result }
{
    let mut bytes = [0; 2];
    BigEndian::write_u16(&mut bytes, number);
    put_bytes(out, &bytes)
}

pub(crate) fn put_u64(out: &mut Vec<u8>, number: u64) -> Result<(), AllocError>
    ensures { Puts out.old out.new (to_be_bytes w64 number) result }
{
    let mut bytes = [0; 8];
    BigEndian::write_u64(&mut bytes, number);
    put_bytes(out, &bytes)
}

/// One byte of length, and the bytes.
pub(crate) fn put_text(out: &mut Vec<u8>, text: &[u8]) -> Result<(), AllocError>
    requires { length text.now < 256 }
    ensures { Puts out.old out.new (text_bytes text.now) result }
{
    put_byte(out, text.len() as u8)?;
    put_bytes(out, text)
}
