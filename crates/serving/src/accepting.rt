// The acceptor puts each connection where the workers find it.
ghost use Rattle.std.specs.Prelude.{◌≡◌, ◌≤◌, ◌+◌, ◌^◌, ℕ, All, OnOk, IfNone, IfOk, IfSome, vec_len};
ghost use Rattle.serving.specs.Ending.{HasAccepted, HaveTakenAll};

use crate::crowd::Crowd;
use crate::ended::Ended;
use crate::gathering::{Thread, finish, gather_all};
use crate::hall::Hall;
use crate::report::Report;
use connections::AcceptorPass;
use crossbeam_utils::sync::Unparker;
use libc::{EBADF, EINVAL, ENOTSOCK};
use std::io::{self, ErrorKind};
use std::net::{TcpListener, TcpStream};
use std::os::fd::OwnedFd;
use std::sync::Wait;
use std::thread::{self, Threads};
use std::time::{Clock, Duration};

// A read or an accept that waits longer is a tick, and a write that does is made again.
const TICK_SECONDS: u64 = 1;

// How long it waits after an accept that failed, as when too many files are open.
const PAUSE_MILLISECONDS: u64 = 100;

// No server accepts so many.
const CONNECTIONS: u64 = 1 << 62;

#[derive(Drop)]
pub(crate) struct Acceptor<'a> {
    pub(crate) hall: &'a Hall,
    pub(crate) listener: &'a TcpListener,
    pub(crate) pass: AcceptorPass<TcpStream>,
    pub(crate) bells: Vec<Unparker>,
    pub(crate) crowd: Crowd,
    ghost queue: { pass.queue ≡ hall.now.queue },
}

impl Acceptor<'_> {
    /// Accepts until so many connections were put, or for ever, and closes. Once each worker has ended, all passes are gathered.
    pub(crate) fn accept_and_gather<R: Threads + Wait + Clock, N: Report>(
        self,
        rt: &R,
        connections: Option<u64>,
        report: &mut N,
        threads: Vec<Thread>,
    ) -> io::Result<Ended>
        requires none { self.pass.put ≡ 0 }
        requires passes { self.pass.passes ≡ vec_len threads + 1 }
        requires threads { All (λ thread. thread.promise.0.value ≡ self.hall.now.queue) threads.items }
        ensures { IfOk result (λ ended. (put : ℕ) × HaveTakenAll (vec_len threads) put ended.pass × HasAccepted connections put ended.accepted) }
    {
        let mut acceptor = self;
        let accepted = acceptor.accept_all(rt, connections, report);
        match &accepted {
            Ok(()) => acceptor.close(),
            Err(_) => acceptor.end(),
        }
        let Acceptor { hall, pass, .. } = acceptor;
        let pass = gather_all(rt, hall, pass.close(), threads);
        let pass = finish(rt, hall, pass)?;
        Ok(Ended { pass, accepted })
    }

    // Accepts until so many connections were put, or for ever. It ends with an error if the listener is broken or the report gives one.
    fn accept_all<R: Wait + Clock, N: Report>(
        &mut self,
        rt: &R,
        connections: Option<u64>,
        report: &mut N,
    ) -> io::Result<()>
        requires { self.old.pass.put ≡ 0 }
        ensures pass { self.new.pass.passes ≡ self.old.pass.passes }
        ensures hall { self.new.hall ≡ self.old.hall }
        ensures so_many { OnOk result (IfSome connections (λ n. self.new.pass.put ≡ n)) }
        ensures for_ever { OnOk result (IfNone connections (2 ^ 62 ≤ self.new.pass.put)) }
    {
        let most = limit(connections);
        for _ in rt.forever() {
            if self.pass.count() >= most {
                return Ok(());
            }
            self.look_around(rt, report)?;
            if let Some(stream) = accept_next(rt, self.listener, report)? {
                self.admit(rt, stream);
            }
        }
        unreachable!()
    }

    // Tells where connections wait, and that time passes.
    fn look_around<C: Clock, N: Report>(&mut self, clock: &C, report: &mut N) -> io::Result<()>
        ensures pass { self.new.pass ≡ self.old.pass }
        ensures hall { self.new.hall ≡ self.old.hall }
    {
        let waiting = self.hall.signs.waiting();
        if self.crowd.has_lasted(clock, self.pass.count(), waiting) {
            report.crowded(self.bells.len(), waiting);
        }
        report.tick()
    }

    // One whose socket cannot be set up is closed.
    fn admit<R: Wait>(&mut self, rt: &R, stream: TcpStream)
        ensures put { self.new.pass.put ≤ self.old.pass.put + 1 }
        ensures passes { self.new.pass.passes ≡ self.old.pass.passes }
        ensures hall { self.new.hall ≡ self.old.hall }
    {
        if self.pass.count() < CONNECTIONS && set_up(&stream).is_ok() {
            self.hall.put(rt, &mut self.pass, stream);
            self.ring();
        }
    }

    // Each worker looks for a connection, or whether the server closes. A ring before its sleep is kept.
    fn ring(&self) {
        for bell in &self.bells {
            bell.unpark();
        }
    }

    /// The workers end once none waits.
    pub(crate) fn close(&self) {
        self.hall.signs.close();
        self.ring();
    }

    // The workers end after the requests that they answer.
    fn end(&self) {
        self.hall.signs.end();
        self.ring();
    }
}

/// From now on an accept fails with `WouldBlock` if nobody has connected for a second.
pub(crate) fn let_tick(listener: &TcpListener) -> io::Result<()> {
    // The option is one of any socket, and a listener has no call for it.
    let socket = TcpStream::from(OwnedFd::from(listener.try_clone()?));
    socket.set_read_timeout(Some(Duration::from_secs(TICK_SECONDS)))
}

// The next connection. None if there is none in time, or none can be taken for now: short of descriptors or memory the server goes on.
fn accept_next<C: Clock, N: Report>(
    clock: &C,
    listener: &TcpListener,
    report: &mut N,
) -> io::Result<Option<TcpStream>> {
    match listener.accept() {
        Ok((stream, _)) => Ok(Some(stream)),
        Err(error) => {
            if is_of_listener(&error) {
                return Err(error);
            }
            if error.kind() != ErrorKind::WouldBlock {
                report.refused(&error);
                thread::sleep(clock, Duration::from_millis(PAUSE_MILLISECONDS));
            }
            Ok(None)
        }
    }
}

// Whether the listener is broken, so that it never accepts again.
fn is_of_listener(error: &io::Error) -> bool {
    match error.raw_os_error() {
        Some(code) => code == EBADF || code == EINVAL || code == ENOTSOCK,
        None => false,
    }
}

// How many connections are accepted.
fn limit(connections: Option<u64>) -> u64
    ensures so_many { IfSome connections (λ n. result ≡ n) }
    ensures for_ever { IfNone connections (2 ^ 62 ≤ result) }
{
    connections.unwrap_or(CONNECTIONS)
}

fn set_up(stream: &TcpStream) -> io::Result<()> {
    stream.set_nodelay(true)?;
    stream.set_read_timeout(Some(Duration::from_secs(TICK_SECONDS)))?;
    stream.set_write_timeout(Some(Duration::from_secs(TICK_SECONDS)))
}
