// How much memory the answers of one worker may take.
ghost use Rattle.std.specs.Prelude.{◌≡◌, ◌*◌, ◌/◌};

use crate::stamp::Stamp;
use settings::ServeSettings;
use std::io::Eprint;
use std::sync::atomic::{AtomicBool, Ordering};
use std::time::Clock;

pub(crate) const MIB: u64 = 1_048_576;

/// An equal share for each worker of what answers may take that are being made, and whether a request was refused that would have taken more.
#[derive(Drop)]
pub struct Share {
    bytes: u64,
    is_passed: AtomicBool,
}

impl Share {
    /// That of each worker of such a server.
    pub fn of(settings: &ServeSettings) -> Share
        ensures { result.bytes ≡ settings.now.answer_mib * 1048576 / settings.now.workers }
    {
        Share {
            bytes: settings.answer_mib * MIB / u64::from(settings.workers),
            is_passed: AtomicBool::new(false),
        }
    }

    /// How many bytes.
    pub(crate) fn bytes(&self) -> u64
        ensures { result ≡ self.now.bytes }
    {
        self.bytes
    }

    /// A request was refused that would have taken more.
    pub(crate) fn note(&self) {
        self.is_passed.store(true, Ordering::SeqCst);
    }

    /// Whether one was.
    pub(crate) fn is_passed(&self) -> bool {
        self.is_passed.load(Ordering::SeqCst)
    }
}

/// A line that says that a request was refused. Nothing depends on it, so that it can't be printed keeps nobody from being served.
pub(crate) fn tell_passed(rt: &(impl Eprint + Clock), share: &Share) {
    let (stamp, kib) = (Stamp::now(rt), share.bytes / 1024);
    let _ = eprintln!(rt;
        "zanstore: {stamp}a request was refused with 14 NoMemory, since its answer would take more than the {kib} KiB of a worker (--answer-mib); others are not told"
    );
}
