// A worker serves one connection after another.
ghost use Rattle.std.specs.Prelude.{◌≡◌, ◌+◌, IfNone, IfSome, List, None, OnErr, OnOk, Option, ℕ, length};
ghost use Rattle.sessions.specs.Sessions.{Broke, Served};
ghost use Rattle.serving.specs.Working.{AreServed, HasServed};

use crate::fork::Fork;
use crate::guarded::Guarded;
use crate::hall::Hall;
use crate::patience::Patience;
use crate::patient::Patient;
use crate::pressing::Pressing;
use crate::serving::Serving;
use crate::session::serve_one;
use crate::signs::Signs;
use connections::WorkerPass;
use crossbeam_utils::sync::Parker;
use http_server::Log;
use sessions::Answers;
use std::alloc::Global;
use std::io::{self, Read, Write};
use std::net::TcpStream;
use std::snapshot::Snapshot;
use std::sync::Wait;
use std::time::Clock;

#[derive(Drop)]
pub(crate) struct Worker<'a, F> {
    pub(crate) hall: &'a Hall,
    pub(crate) parker: Parker,
    pub(crate) pass: WorkerPass<TcpStream>,
    pub(crate) fork: F,
    ghost own: { (pass.queue ≡ hall.now.queue) × (pass.passes ≡ 1) × (pass.end ≡ None) },
}

// The sessions that a worker has served, each as it began and as it ended.
type Sessions<A> = Log<Snapshot<A>, A>;

impl<F: Fork + Drop> Worker<'_, F> {
    /// Serves as `work` does, and gives its pass back.
    pub(crate) fn serve_all<R: Wait + Clock>(
        self,
        rt: &R,
        alloc: Global,
        serving: &Serving,
    ) -> WorkerPass<TcpStream>
        ensures { (result.queue ≡ self.entry.hall.now.queue) × (result.passes ≡ 1) × (result.end ≡ None) }
    {
        let mut worker = self;
        worker.work(rt, alloc, serving);
        let Worker { pass, .. } = worker;
        pass
    }

    // Takes connections and serves each by a session of its own, until the server closes and none waits.
    fn work<R: Wait + Clock>(
        &mut self,
        rt: &R,
        alloc: Global,
        serving: &Serving,
    ) -> Sessions<F::Session>
        ensures hall { self.new.hall ≡ self.old.hall }
        ensures served { AreServed F.begins F.Session.store F.Session.gives result.items }
        ensures each { length self.old.pass.taken + length result.items ≡ length self.new.pass.taken }
    {
        let mut served = Log::new();
        for _ in rt.forever() {
            // Before the take, so that no connection waits for it.
            let mut answers = self.fork.another();
            let Some(stream) = self.next(rt) else {
                return served;
            };
            let begun = Snapshot::of(&answers);
            let mut handle = &stream;
            let signs = &self.hall.signs;
            // What ends its session ends no other one.
            let _ = serve(rt, alloc, serving, signs, &mut handle, &mut answers);
            served = served.and(&begun, &answers);
        }
        unreachable!()
    }

    // Waits for a connection. None once the server closes and none waits.
    fn next<R: Wait>(&mut self, rt: &R) -> Option<TcpStream>
        ensures hall { self.new.hall ≡ self.old.hall }
        ensures some { IfSome result (λ stream. length self.new.pass.taken ≡ length self.old.pass.taken + 1) }
        ensures none { IfNone result (self.new.pass ≡ self.old.pass) }
    {
        for _ in rt.forever() {
            // Before the take, so that what was put before the close is taken.
            let is_closing = self.hall.signs.is_closing();
            let next = self.hall.take(rt, &mut self.pass);
            if next.is_some() || is_closing {
                return next;
            }
            self.hall.signs.add_free();
            self.parker.park(rt);
            self.hall.signs.remove_free();
        }
        unreachable!()
    }
}

// Serves one connection by a handle of its stream: what was to be read there is asked, and answered there. Nothing is known of the bytes of a socket, so this
// is said of any stream.
fn serve<S: Read + Write + Copy, C: Clock, A: Answers>(
    clock: &C,
    alloc: Global,
    serving: &Serving,
    signs: &Signs,
    stream: &mut S,
    answers: &mut A,
) -> io::Result<()>
    ensures ok { OnOk result ((left : Option (List ℕ)) × Served A.store A.gives (S.remaining stream.old) left (S.contents stream.old) (S.contents stream.new) answers.old answers.new) }
    ensures err { OnErr result ((left : Option (List ℕ)) × Broke A.store A.gives (S.remaining stream.old) left (S.contents stream.old) (S.contents stream.new) answers.old answers.new) }
    ensures asked { HasServed A.store A.gives answers.old answers.new }
{
    let patient = Patient {
        input: *stream,
        clock,
        patience: Patience {
            signs,
            idle: serving.idle,
            ticks: 0,
        },
        line_since: None,
    };
    let mut input = Guarded::new(alloc, patient);
    let mut output = Pressing {
        output: *stream,
        clock,
        signs,
        since: None,
        taken: 0,
    };
    let served = serve_one(alloc, &mut input, &mut output, answers);
    // What was written by this handle, the stream has.
    *stream = output.output;
    served
}
