// Requests whose texts are not looked into yet.

/// Which places may answer, with the text of a token.
#[derive(Clone, Copy)]
pub(crate) enum FreshShape<'a> {
    Latest,
    AtLeast(&'a [u8]),
    Exact(&'a [u8]),
}

/// A request, with its texts.
#[derive(Clone, Copy)]
pub(crate) enum Shape<'a> {
    Write {
        changes: &'a [&'a [u8]],
        conditions: &'a [&'a [u8]],
    },
    Read {
        freshness: FreshShape<'a>,
        sets: &'a [&'a [u8]],
    },
    Check {
        freshness: FreshShape<'a>,
        tuple: &'a [u8],
    },
    Watch {
        from: &'a [u8],
        limit: u16,
        namespaces: &'a [&'a [u8]],
    },
}
