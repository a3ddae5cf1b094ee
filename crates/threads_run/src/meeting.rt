// Writers that have to be inside at once.
use locked::Gate;
use names::{CallName, NodeName};
use std::sync::atomic::{AtomicBool, AtomicU64, Ordering};
use std::thread;

// At most how often one yields for the others.
const TURNS: u64 = 1_000_000;

/// Where this many writers meet, each after the beginning of its write and before its part at a shard is staged. None meet if it is for none.
#[derive(Drop)]
pub(crate) struct Meeting {
    guests: u64,
    come: AtomicU64,
    is_late: AtomicBool,
}

impl Meeting {
    pub(crate) fn of(guests: u64) -> Meeting {
        Meeting {
            guests,
            come: AtomicU64::new(0),
            is_late: AtomicBool::new(false),
        }
    }

    // Comes, and stays until all have come, or for this many turns.
    fn attend(&self) {
        self.come.fetch_add(1, Ordering::SeqCst);
        for _ in 0..TURNS {
            if self.come.load(Ordering::SeqCst) >= self.guests {
                return;
            }
            thread::yield_now();
        }
        self.is_late.store(true, Ordering::SeqCst);
    }

    /// Whether all came while each of them was there.
    pub(crate) fn all_met(&self) -> bool {
        self.come.load(Ordering::SeqCst) >= self.guests && !self.is_late.load(Ordering::SeqCst)
    }
}

/// The gate of a store whose writers meet.
#[derive(Drop)]
pub(crate) struct Door<'a> {
    pub(crate) meeting: &'a Meeting,
}

impl Gate for Door<'_> {
    fn before(&self, node: NodeName, call: CallName) {
        if self.meeting.guests == 0 || call != CallName::StagePrepare {
            return;
        }
        match node {
            NodeName::Coordinator => {}
            NodeName::Shard(_) => self.meeting.attend(),
        }
    }

    fn after(&self, _node: NodeName, _call: CallName) {}
}
