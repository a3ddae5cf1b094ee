// Requests whose texts are not looked into yet.

/// A change, with the text of its tuple.
#[derive(Clone, Copy)]
pub(crate) enum ChangeShape<'a> {
    Touch(&'a str),
    Delete(&'a str),
}

/// What a condition asks of its tuple, with the text of its zookie.
#[derive(Clone, Copy)]
pub(crate) enum WantShape<'a> {
    Since(&'a str),
    Exists,
    Absent,
}

/// A condition, with the text of its tuple.
#[derive(Clone, Copy)]
pub(crate) struct ConditionShape<'a> {
    pub tuple: &'a str,
    pub want: WantShape<'a>,
}

/// Which places may answer, with the text of a zookie.
#[derive(Clone, Copy)]
pub(crate) enum FreshnessShape<'a> {
    Latest,
    AtLeast(&'a str),
    Exact(&'a str),
}

/// A request, with its texts.
#[derive(Drop)]
pub(crate) enum Shape<'a> {
    Write {
        changes: Vec<ChangeShape<'a>>,
        conditions: Option<Vec<ConditionShape<'a>>>,
    },
    Read {
        freshness: FreshnessShape<'a>,
        sets: Vec<&'a str>,
    },
    Check {
        freshness: FreshnessShape<'a>,
        tuple: &'a str,
    },
    Watch {
        from: &'a str,
        limit: u16,
        namespaces: Vec<&'a str>,
    },
}
