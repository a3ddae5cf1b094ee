// Which bytes are names and ids.
ghost use Rattle.std.specs.Prelude.{◌≡◌, ◌↔◌, IsTrue};
ghost use Rattle.std.specs.List.{list_all};
ghost use Rattle.tuples.specs.Names.{IsId, IsName, is_id_byte, is_name_byte};

const MAX_NAME: usize = 64;

const MAX_ID: usize = 128;

fn is_of_name(byte: u8) -> bool
    ensures { result ≡ is_name_byte byte }
{
    (byte >= b'a' && byte <= b'z') || (byte >= b'0' && byte <= b'9') || byte == b'_'
}

fn is_of_id(byte: u8) -> bool
    ensures { result ≡ is_id_byte byte }
{
    byte >= 0x21 && byte <= 0x7e && !(byte == b'#' || byte == b'+' || byte == b':' || byte == b'@')
}

fn are_of_name(bytes: &[u8]) -> bool
    ensures { result ≡ list_all is_name_byte bytes.now }
{
    bytes.iter().all(|byte| is_of_name(*byte))
}

fn are_of_id(bytes: &[u8]) -> bool
    ensures { result ≡ list_all is_id_byte bytes.now }
{
    bytes.iter().all(|byte| is_of_id(*byte))
}

/// A namespace or a relation: 1 to 64 bytes of `a-z`, `0-9` and `_`.
pub(crate) fn is_name(bytes: &[u8]) -> bool
    ensures { IsTrue result ↔ IsName bytes.now }
{
    if bytes.is_empty() || bytes.len() > MAX_NAME {
        return false;
    }
    are_of_name(bytes)
}

/// An id: 1 to 128 printable ASCII bytes other than `#`, `+`, `:` and `@`.
pub(crate) fn is_id(bytes: &[u8]) -> bool
    ensures { IsTrue result ↔ IsId bytes.now }
{
    if bytes.is_empty() || bytes.len() > MAX_ID {
        return false;
    }
    are_of_id(bytes)
}
