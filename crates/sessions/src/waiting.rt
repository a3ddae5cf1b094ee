// Answers that wait to be written.
ghost use Rattle.std.specs.Prelude.{◌≡◌, ◌≤◌, ◌<◌, ◌↔◌, ◌++◌, ◌⊎◌, [], length, take, drop, vec_len, IsTrue, OnOk, OnErr};
ghost use Rattle.sessions.specs.Sessions.{reply_line};
ghost use Rattle.sessions.specs.Bounds.{IsBounded};

use crate::reply::write_reply;
use json_lines::Answer;
use line_io::BLOCK;
use refusal::Refusal;
use std::alloc::{AllocError, Global};

/// The text of answers, of which the beginning may be written already.
#[derive(Drop)]
pub(crate) struct Waiting {
    pub(crate) bytes: Vec<u8>,
    pub(crate) sent: usize,
    ghost within: { sent ≤ vec_len bytes },
}

impl Waiting {
    ghost use Rattle.sessions.specs.Unsent.{unsent};

    pub(crate) fn new(alloc: Global) -> Waiting
        ensures bytes { result.bytes.items ≡ [] }
        ensures sent { result.sent ≡ 0 }
    {
        Waiting {
            bytes: Vec::new(alloc),
            sent: 0,
        }
    }

    /// Makes room for two blocks, so that memory for the text of a short answer is not refused once its request is carried out.
    pub(crate) fn make_room(&mut self) -> Result<(), AllocError>
        ensures items { self.new.bytes.items ≡ self.old.bytes.items }
        ensures sent { self.new.sent ≡ self.old.sent }
    {
        self.bytes.reserve(2 * BLOCK)
    }

    /// What is not written.
    pub(crate) fn unsent(&self) -> &[u8]
        ensures { result.now ≡ unsent self.now }
    {
        &self.bytes[self.sent..]
    }

    /// Whether a block or more waits.
    pub(crate) fn is_full(&self) -> bool
        ensures { IsTrue result ↔ (16_384 ≤ length (unsent self.now)) }
    {
        BLOCK <= self.unsent().len()
    }

    /// So many bytes of what waits were written.
    pub(crate) fn note_sent(&mut self, count: usize)
        requires { count ≤ length (unsent self.old) }
        ensures unsent { unsent self.new ≡ drop count (unsent self.old) }
        ensures bytes { self.new.bytes ≡ self.old.bytes }
    {
        self.sent += count;
    }

    // Moves what is not written to the front, so that what was written takes no room.
    fn close_up(&mut self)
        ensures bytes { self.new.bytes.items ≡ unsent self.old }
        ensures sent { self.new.sent ≡ 0 }
    {
        let sent = self.sent;
        if sent == 0 {
            return;
        }
        self.sent = 0;
        let len = self.bytes.len();
        self.bytes.copy_within(sent..len, 0);
        self.bytes.truncate(len - sent);
    }

    /// Appends the text of the reply, or nothing. Less than a block may wait before, so that what waits is bounded.
    pub(crate) fn push(
        &mut self,
        reply: &Result<Answer, Refusal>,
        store: u64,
    ) -> Result<(), AllocError>
        requires { length (unsent self.old) < 16_384 }
        ensures ok { OnOk result (unsent self.new ≡ unsent self.old ++ reply_line store reply.now) }
        ensures err { OnErr result (unsent self.new ≡ unsent self.old) }
        ensures bounded { IsBounded store self.new.bytes.items }
    {
        self.close_up();
        write_reply(reply, store, &mut self.bytes)
    }

    /// Gives back its memory if nothing waits.
    pub(crate) fn park(&mut self, alloc: Global)
        ensures unsent { unsent self.new ≡ unsent self.old }
        ensures bytes { (self.new.bytes.items ≡ []) ⊎ (self.new.bytes.items ≡ self.old.bytes.items) }
    {
        if self.unsent().is_empty() {
            *self = Waiting::new(alloc);
        }
    }
}
