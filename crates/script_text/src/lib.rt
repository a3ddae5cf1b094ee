//! The lines of a script, as commands, and the texts that a script prints.
//!
//! Keeps: a command is returned only for a line that spells it, and a line that spells none is refused for the first thing wrong with it. A text is whole lines,
//! each with its line feed; it is appended whole or not at all.
//! Never: carries a command out, knows more of a flow than its name, looks at a store, or takes memory for a text except for the text itself.
//! Callers rely on: a request is in its grammar and within its limits, and a shard's number is below the number of shards. A text is refused only if the vector had
//! no room for all of it.
//!
//! Start at `specs/Lines.antt`, which line spells which command, `specs/Causes.antt`, why a line is refused, and `specs/PrintedTexts.antt`, what is printed.
#![tactic(auto)]

mod care;
mod command;
mod conditions;
mod fail;
mod flow;
mod name;
mod node;
mod numbers;
mod places;
mod printed;
mod printed_lists;
mod printed_parts;
mod request;
mod resharding;
mod shape;
mod shapes;
mod texts;
mod words;

pub use command::Command;
pub use fail::Failure;
pub use flow::Handling;
pub use name::Name;
pub use printed::Printed;
