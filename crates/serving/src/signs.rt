// What sessions are told of their server.
use std::sync::atomic::{AtomicBool, AtomicU64, Ordering};

/// What sessions are told of their server: how many connections wait for a worker, how many workers are free, and whether the server closes or ends.
/// Other threads change it at any time, so contracts see nothing of it.
#[derive(Drop)]
pub struct Signs {
    waiting: AtomicU64,
    free: AtomicU64,
    closing: AtomicBool,
    ending: AtomicBool,
}

impl Signs {
    /// None waits, no worker is free yet, and the server neither closes nor ends.
    pub fn new() -> Signs {
        Signs {
            waiting: AtomicU64::new(0),
            free: AtomicU64::new(0),
            closing: AtomicBool::new(false),
            ending: AtomicBool::new(false),
        }
    }

    /// One more waits.
    pub fn add_waiting(&self) {
        self.waiting.fetch_add(1, Ordering::SeqCst);
    }

    /// One fewer waits. It was added before.
    pub fn remove_waiting(&self) {
        self.waiting.fetch_sub(1, Ordering::SeqCst);
    }

    /// One more worker is free.
    pub fn add_free(&self) {
        self.free.fetch_add(1, Ordering::SeqCst);
    }

    /// A worker looks for a connection. It was free before.
    pub fn remove_free(&self) {
        self.free.fetch_sub(1, Ordering::SeqCst);
    }

    /// How many wait for which there is no free worker.
    pub fn waiting(&self) -> u64 {
        let waiting = self.waiting.load(Ordering::SeqCst);
        waiting.saturating_sub(self.free.load(Ordering::SeqCst))
    }

    /// Whether one waits for which there is no free worker.
    pub fn has_waiting(&self) -> bool {
        self.waiting() > 0
    }

    /// Whether slow clients have to end: one waits, or the server closes.
    pub fn is_pressed(&self) -> bool {
        self.has_waiting() || self.is_closing()
    }

    /// From now on the server closes.
    pub fn close(&self) {
        self.closing.store(true, Ordering::SeqCst);
    }

    pub fn is_closing(&self) -> bool {
        self.closing.load(Ordering::SeqCst)
    }

    /// From now on the server closes, and no session takes another request.
    pub fn end(&self) {
        self.close();
        self.ending.store(true, Ordering::SeqCst);
    }

    /// Whether sessions end that are neither idle nor slow.
    pub fn is_ending(&self) -> bool {
        self.ending.load(Ordering::SeqCst)
    }
}
