// The words of the command line.
// The most seconds of a run.
const LONGEST: u64 = 3_600;

/// For how many seconds the threads ask, and what chooses what they ask.
#[derive(Clone, Copy)]
pub struct Stress {
    pub(crate) seconds: u64,
    pub(crate) seed: u64,
}

/// What is to be run.
#[derive(Clone, Copy)]
pub enum Asked {
    /// Threads of all kinds, for some seconds.
    Stress(Stress),
    /// Two callers, one of whom is told what the other was told.
    TwoCallers,
    /// Two writers that are inside at once.
    TwoWriters,
}

impl Asked {
    /// What the words ask for: `two-callers`, `two-writers`, or `threads` with the seconds of a run and its seed. None if they are other words.
    pub fn read(words: &[&str]) -> Option<Asked> {
        match *words {
            ["two-callers"] => Some(Asked::TwoCallers),
            ["two-writers"] => Some(Asked::TwoWriters),
            ["threads", seconds, seed] => read_stress(seconds, seed),
            _ => None,
        }
    }
}

impl Asked {
    /// The seed by which disks fail, if they do.
    pub(crate) fn failing(self) -> Option<u64> {
        match self {
            Asked::Stress(stress) => Some(stress.seed),
            Asked::TwoCallers | Asked::TwoWriters => None,
        }
    }

    /// How many writers have to be inside at once.
    pub(crate) fn guests(self) -> u64 {
        match self {
            Asked::TwoWriters => 2,
            Asked::Stress(_) | Asked::TwoCallers => 0,
        }
    }
}

fn read_stress(seconds: &str, seed: &str) -> Option<Asked> {
    let seconds = seconds.parse::<u64>().ok()?;
    let seed = seed.parse::<u32>().ok()?;
    if seconds < 1 || seconds > LONGEST {
        return None;
    }
    Some(Asked::Stress(Stress {
        seconds,
        seed: u64::from(seed),
    }))
}
