//! Tokens that name a place of one store's log.
//!
//! Keeps: a store and a place have exactly one text, of 24 characters, and a text is that of one store and place at most.
//! Never: takes memory.
//! Callers rely on: the text is standard base64 (RFC 4648) of 18 bytes, and any other text is refused.
//!
//! Start at `specs/Zookies.antt`, the bytes of a token.
#![tactic(auto)]

mod bytes;
mod laws;
mod text;
mod zookie;

pub use laws::a_text_is_of_one_zookie;
pub use zookie::Zookie;
