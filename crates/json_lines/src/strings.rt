// Texts in JSON strings.
ghost use Rattle.std.specs.Prelude.{◌≡◌, ◌<◌, true};
ghost use Rattle.std.specs.Char.{digit_char};
ghost use Rattle.json.specs.Print.{escape, escape_byte, escape_letter as letter_of, quoted};
ghost use Rattle.tuples.specs.Texts.{object_text, tuple_text, user_text};
ghost use Rattle.zookie.specs.Zookies.{zookie_text};
ghost use Rattle.json_lines.specs.Grown.{Grown};

use crate::text::Text;
use tuples::{Object, Tuple, User};
use zookie::Zookie;

// Below this a byte is escaped.
const SPACE: u8 = 0x20;

// The letter of the short escape of the byte, or 0 if it has none.
fn escape_letter(byte: u8) -> u8
    ensures { result ≡ letter_of byte }
{
    match byte {
        b'"' | b'\\' => byte,
        0x08 => b'b',
        0x0c => b'f',
        b'\n' => b'n',
        b'\r' => b'r',
        b'\t' => b't',
        _ => 0,
    }
}

fn hex_digit(digit: u8) -> u8
    requires { digit < 16 }
    ensures { result ≡ digit_char digit }
{
    if digit < 10 {
        b'0' + digit
    } else {
        b'a' + (digit - 10)
    }
}

fn push_byte(out: &mut Text<'_>, byte: u8)
    ensures { Grown out.old out.new (escape_byte byte) }
{
    let letter = escape_letter(byte);
    if letter > 0 {
        out.push(&[b'\\', letter]);
    } else if byte < SPACE {
        let code = [
            b'\\',
            b'u',
            b'0',
            b'0',
            hex_digit(byte / 16),
            hex_digit(byte % 16),
        ];
        out.push(&code);
    } else {
        out.push(&[byte]);
    }
}

// Whether no byte of the text is escaped.
fn is_plain(text: &[u8]) -> bool
    ensures { result ≡ true → escape text.now ≡ text.now }
{
    for byte in text {
        if *byte < SPACE || *byte == b'"' || *byte == b'\\' {
            return false;
        }
    }
    true
}

// The text as it stands inside a string. Nearly all texts are plain.
fn push_escaped(out: &mut Text<'_>, text: &[u8])
    ensures { Grown out.old out.new (escape text.now) }
{
    if is_plain(text) {
        out.push(text);
    } else {
        push_escapes(out, text);
    }
}

// The same, byte by byte.
fn push_escapes(out: &mut Text<'_>, text: &[u8])
    ensures { Grown out.old out.new (escape text.now) }
{
    for byte in text {
        push_byte(out, *byte);
    }
}

/// The text as a string.
pub(crate) fn push_quoted(out: &mut Text<'_>, text: &[u8])
    ensures { Grown out.old out.new (quoted text.now) }
{
    out.push(b"\"");
    push_escaped(out, text);
    out.push(b"\"");
}

fn push_object(out: &mut Text<'_>, object: &Object)
    ensures { Grown out.old out.new (escape (object_text object.now)) }
{
    push_escaped(out, object.namespace.as_bytes());
    out.push(b":");
    push_escaped(out, object.id.as_bytes());
}

fn push_user(out: &mut Text<'_>, user: &User)
    ensures { Grown out.old out.new (escape (user_text user.now)) }
{
    match user {
        User::Id(id) => push_escaped(out, id.as_bytes()),
        User::Set(userset) => {
            push_object(out, &userset.object);
            out.push(b"#");
            push_escaped(out, userset.relation.as_bytes());
        }
    }
}

/// The text of the tuple, as a string.
pub(crate) fn push_tuple(out: &mut Text<'_>, tuple: &Tuple)
    ensures { Grown out.old out.new (quoted (tuple_text tuple.now)) }
{
    out.push(b"\"");
    push_object(out, &tuple.object);
    out.push(b"#");
    push_escaped(out, tuple.relation.as_bytes());
    out.push(b"@");
    push_user(out, &tuple.user);
    out.push(b"\"");
}

/// The token of the place, as a string.
pub(crate) fn push_zookie(out: &mut Text<'_>, store: u64, place: u64)
    ensures { Grown out.old out.new (quoted (zookie_text store place)) }
{
    let zookie = Zookie { store, place };
    push_quoted(out, &zookie.encode());
}
