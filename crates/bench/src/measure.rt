// What can be measured.
use crate::reopening::{self, Node};
use crate::{checkpoints, flush, writes};
use measures::latest::Way;
use measures::lines::Kind;
use measures::{codec, crowd, doubts, latest, lines, pairs, rows, texts};
use std::alloc::Global;
use std::rt::Clock;
use std::sync::Wait;
use std::thread::Threads;
use tuples::Refusal;

/// What was asked for; how much of it stands beside it.
#[derive(Clone, Copy)]
pub(crate) enum Measure {
    /// So many tuples, to the next thousand below, read from their texts and written.
    Texts,
    /// So many rounds of a batch of 1,000 records, written and read.
    Codec,
    /// Batches of so many records, staged and flushed.
    Flush,
    /// So many versions of tuples, applied and then read.
    Versions,
    /// So many writes in doubt, and one more that is held and released.
    Holds,
    /// So many writes in doubt at a shard, beside which others are prepared and learned.
    Prepares,
    /// So many writes through a coordinator and its shard, each from its text until it is learned.
    WritePath,
    /// So many plain users of a userset, beside ten usersets, of which a check asks.
    Crowd,
    /// So many groups of writes, begun and decided by a coordinator.
    Decisions,
    /// The records of a node of so many writes, made.
    Records(Node),
    /// The same, and the node opened over them.
    Opening(Node),
    /// A shard with so many rows, which makes checkpoints.
    Checkpoint,
    /// So many lines of a session, of one kind, answered over memory.
    Lines(Kind),
    /// So many connections, put and taken.
    Pairs(pairs::By),
    /// Looks at the safe place, which takes no count.
    Latest(latest::By, Way),
}

// The words of those that take a count, and of those that take none.
const COUNTED: &[(&str, Measure)] = &[
    ("texts", Measure::Texts),
    ("codec", Measure::Codec),
    ("flush", Measure::Flush),
    ("versions", Measure::Versions),
    ("holds", Measure::Holds),
    ("prepares", Measure::Prepares),
    ("write-path", Measure::WritePath),
    ("crowd", Measure::Crowd),
    ("decisions", Measure::Decisions),
    ("log", Measure::Records(Node::Coordinator)),
    ("opening", Measure::Opening(Node::Coordinator)),
    ("records", Measure::Records(Node::Shard)),
    ("shard-opening", Measure::Opening(Node::Shard)),
    ("checkpoint", Measure::Checkpoint),
    ("lines-write", Measure::Lines(Kind::Write)),
    ("lines-read", Measure::Lines(Kind::Read)),
    ("lines-check", Measure::Lines(Kind::Check)),
    ("lines-watch", Measure::Lines(Kind::Watch)),
    ("pairs-by-one", Measure::Pairs(pairs::By::One)),
    ("pairs-by-two", Measure::Pairs(pairs::By::Two)),
];

const UNCOUNTED: &[(&str, Measure)] = &[
    (
        "latest-by-one",
        Measure::Latest(latest::By::One, Way::Inlined),
    ),
    (
        "latest-by-four",
        Measure::Latest(latest::By::Four, Way::Inlined),
    ),
    (
        "called-by-one",
        Measure::Latest(latest::By::One, Way::Called),
    ),
    (
        "called-by-four",
        Measure::Latest(latest::By::Four, Way::Called),
    ),
];

fn find(measures: &[(&str, Measure)], word: &str) -> Option<Measure> {
    for (name, measure) in measures {
        if *name == word {
            return Some(*measure);
        }
    }
    None
}

impl Measure {
    /// What the words after the program's name ask for: a name, and a count if the measure takes one, from 1 on but for writes in doubt.
    pub(crate) fn read(words: &[String]) -> Option<(Measure, u32)> {
        match words {
            [_, name] => Some((find(UNCOUNTED, name.as_str())?, 0)),
            [_, name, count] => {
                let count = count.as_str().parse::<u32>().ok()?;
                let measure = find(COUNTED, name.as_str())?;
                measure.takes(count).then_some((measure, count))
            }
            _ => None,
        }
    }

    // A batch has at most 65,535 records, and of writes in doubt there may be none.
    fn takes(self, count: u32) -> bool {
        match self {
            Measure::Prepares => true,
            Measure::Flush => count != 0 && count <= u32::from(u16::MAX),
            _ => count != 0,
        }
    }

    /// Measures so much, and prints what it found.
    pub(crate) fn run<R: Clock + Eprint + Threads + Wait + Sync>(
        self,
        rt: &R,
        alloc: Global,
        count: u32,
    ) -> Result<(), Refusal> {
        match self {
            Measure::Texts => texts::measure(rt, alloc, count),
            Measure::Codec => codec::measure(rt, alloc, count),
            Measure::Flush => flush::measure(rt, alloc, count),
            Measure::Versions => rows::measure(rt, alloc, count),
            Measure::Holds => doubts::measure(rt, alloc, count),
            Measure::Prepares => writes::prepares(rt, alloc, count),
            Measure::WritePath => writes::path(rt, alloc, count),
            Measure::Crowd => crowd::measure(rt, alloc, count),
            Measure::Decisions => writes::decisions(rt, alloc, count),
            Measure::Records(node) => reopening::records(rt, alloc, node, count),
            Measure::Opening(node) => reopening::opening(rt, alloc, node, count),
            Measure::Checkpoint => checkpoints::measure(rt, alloc, count),
            Measure::Lines(kind) => lines::measure(rt, alloc, kind, count),
            Measure::Pairs(by) => pairs::measure(rt, alloc, by, count),
            Measure::Latest(by, way) => latest::measure(rt, alloc, by, way),
        }
    }
}
