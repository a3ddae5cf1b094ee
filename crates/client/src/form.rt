// The parts of a short form.

/// What a write does to a tuple.
#[derive(Clone, Copy)]
pub(crate) enum Change<'a> {
    Touch(&'a str),
    Delete(&'a str),
}

/// What a write asks of a tuple; a token follows its tuple.
#[derive(Clone, Copy)]
pub(crate) enum Condition<'a> {
    Since(&'a str, &'a str),
    Exists(&'a str),
    Absent(&'a str),
}

/// Which places may answer, with the text of a token.
#[derive(Clone, Copy)]
pub(crate) enum Freshness<'a> {
    Unsaid,
    Latest,
    AtLeast(&'a str),
    Exact(&'a str),
}
