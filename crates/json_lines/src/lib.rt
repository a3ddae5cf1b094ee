//! The lines of a session, of compact JSON: request lines, as the requests that they spell, and the texts of answers.
//!
//! Keeps: a request is answered only for a line that spells it at this store, and a line that spells none is refused for the first cause. The keys of an answer's text
//! are in byte order, and it has no line feed; it is appended whole or not at all.
//! Never: looks at a store or its places, or at more than the line; takes memory for a text except for the text itself.
//! Callers rely on: the changes of a `Write`, the tuplesets and the namespaces are in their grammar and within their limits. A text is refused only if the vector had
//! no room for all of it.
//!
//! Start at `specs/Lines.antt`, which line spells which request, `specs/Causes.antt`, why a line is refused, and `specs/Texts.antt`, the texts of answers.
#![tactic(auto)]

mod answer;
mod answer_lists;
mod laws;
mod lists;
mod member;
mod parse;
mod places;
mod reading;
mod shape;
mod strings;
mod text;
mod texts;

pub use answer::{Answer, Events, Membership, Rows, Written, write_refusal};
pub use laws::{a_line_has_one_cause, no_line_is_spelled_and_refused};
pub use parse::parse_request;
pub use text::Text;
