// Which request something is said of.
use std::fmt;

/// The request of the command line, or a line of standard input.
#[derive(Clone, Copy)]
pub(crate) enum Place {
    Words,
    Line(u64),
}

/// Nothing, or `line 3: `.
impl fmt::Display for Place {
    fn fmt<W: fmt::Write>(&self, f: &mut fmt::Formatter<W>) -> fmt::Result {
        match self {
            Place::Words => Ok(()),
            Place::Line(number) => write!(f, "line {number}: "),
        }
    }
}
