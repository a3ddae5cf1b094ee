// Which threads a run has, and how much each of them asks.
ghost use Rattle.std.specs.Prelude.{◌≤◌, ◌<◌};

/// What a thread does.
#[derive(Clone, Copy)]
pub(crate) enum Kind {
    /// Writes, and now and then reads.
    Writer,
    Reader,
    Watcher,
    /// Opens nodes again.
    Trouble,
    /// The last part, after all threads.
    End,
}

impl Kind {
    /// Its word, as a line has it.
    pub(crate) fn name(self) -> &'static str {
        match self {
            Kind::Writer => "writer",
            Kind::Reader => "reader",
            Kind::Watcher => "watcher",
            Kind::Trouble => "trouble",
            Kind::End => "end",
        }
    }

    // How many calls it makes in a second, and in a run of any length.
    fn limits(self) -> (u64, u64) {
        match self {
            Kind::Writer => (150, 1_500),
            Kind::Reader => (300, 3_000),
            Kind::Watcher => (100, 1_500),
            Kind::Trouble => (12, 480),
            Kind::End => (0, 0),
        }
    }

    /// How many calls it makes in a run of this many seconds.
    pub(crate) fn calls_in(self, seconds: u64) -> u64 {
        let (a_second, most) = self.limits();
        a_second.saturating_mul(seconds).min(most)
    }

    /// How many calls it makes one after another before it rests.
    pub(crate) fn burst(self) -> u64
        ensures { 1 ≤ result }
    {
        match self {
            Kind::Trouble => 1,
            _ => 25,
        }
    }
}

/// How many threads there are of each kind.
pub(crate) const KINDS: [(Kind, u64); 4] = [
    (Kind::Writer, 8),
    (Kind::Reader, 4),
    (Kind::Watcher, 2),
    (Kind::Trouble, 1),
];

/// The namespaces that are written.
pub(crate) const NAMESPACES: [&str; 2] = ["doc", "group"];

/// The tuples that writers share.
pub(crate) const SHARED: [&str; 20] = [
    "doc:a0#viewer@u1",
    "doc:a0#viewer@u2",
    "doc:a0#viewer@group:g0#member",
    "doc:a1#viewer@u1",
    "doc:a1#viewer@u2",
    "doc:a1#viewer@group:g1#member",
    "doc:a2#viewer@u2",
    "doc:a2#viewer@group:g0#member",
    "doc:a2#viewer@doc:a1#viewer",
    "doc:a3#viewer@u1",
    "doc:a3#viewer@doc:a2#viewer",
    "group:g0#member@u1",
    "group:g0#member@u3",
    "group:g0#member@group:g1#member",
    "group:g1#member@u2",
    "group:g1#member@u3",
    "group:g1#member@group:g2#member",
    "group:g2#member@u1",
    "group:g2#member@u4",
    "group:g2#member@group:g0#member",
];

/// What reads ask for.
pub(crate) const SETS: [&str; 12] = [
    "doc:a0",
    "doc:a1#viewer",
    "doc:a2",
    "doc:a3#viewer",
    "group:g0#member",
    "group:g1",
    "group:g2#member",
    "doc#viewer@u1",
    "doc@u2",
    "group@u3",
    "doc#viewer@group:g0#member",
    "doc:a0#viewer@u1",
];

/// What checks ask for.
pub(crate) const CHECKED: [&str; 10] = [
    "doc:a0#viewer@u1",
    "doc:a0#viewer@u3",
    "doc:a1#viewer@u2",
    "doc:a1#viewer@u4",
    "doc:a1#viewer@group:g2#member",
    "doc:a2#viewer@u1",
    "doc:a3#viewer@u3",
    "doc:a3#viewer@group:g1#member",
    "group:g0#member@u4",
    "group:g2#member@u2",
];
