// A session's pass from which many learn at once.
ghost use Rattle.std.specs.Prelude.{◌≡◌, max};
ghost use mathlib.Core.List.{IsPrefix};

use crate::pass::SessionPass;
use crate::resting::RestingPass;
use crate::words::Published;
use std::marker::Model;
use std::sync::Wait;

// How many copies there are: twice as many as small machines have processors, so that two callers that run at once mostly learn from two.
const LANES: usize = 8;

/// A session's pass, as for what lies under a lock that many may hold at once to read. Each of them learns what it has seen, from one of its copies.
#[derive(Drop)]
pub struct SharedPass<W> {
    own: RestingPass<W>,
    lanes: [RestingPass<W>; LANES],
}

impl<W> Model for SharedPass<W> {
    ghost use Rattle.std.specs.Prelude.{◌≡◌, All};
    ghost use Rattle.published.specs.Known.{Known};

    ghost Value = { Known W };

    ghost view = { λ p. p.own };

    ghost invariant = { λ p. All (λ lane. lane ≡ p.own) p.lanes };
}

// A copy of the pass.
fn lane<W>(words: &Published<W>, pass: &mut SessionPass<W>) -> RestingPass<W>
    requires { pass.old.table ≡ words.now }
    ensures same { pass.new ≡ pass.old }
    ensures copy { result ≡ pass.old }
{
    RestingPass::new(words.note(pass))
}

impl<W> SharedPass<W> {
    /// From a session's pass.
    pub fn new(words: &Published<W>, pass: SessionPass<W>) -> SharedPass<W>
        requires { pass.table ≡ words.now }
        ensures { result ≡ pass }
    {
        let mut pass = pass;
        let lanes = [
            lane(words, &mut pass),
            lane(words, &mut pass),
            lane(words, &mut pass),
            lane(words, &mut pass),
            lane(words, &mut pass),
            lane(words, &mut pass),
            lane(words, &mut pass),
            lane(words, &mut pass),
        ];
        SharedPass {
            own: RestingPass::new(pass),
            lanes,
        }
    }

    /// Each pass learns what the other has seen.
    pub fn share<R: Wait>(&mut self, rt: &R, words: &Published<W>, pass: &mut SessionPass<W>)
        requires { (self.old.table ≡ words.now) × (pass.old.table ≡ words.now) }
        ensures same { (self.new.table ≡ self.old.table) × (pass.new.table ≡ pass.old.table) }
        ensures one { IsPrefix self.old.seen self.new.seen × IsPrefix pass.old.seen self.new.seen }
        ensures other { IsPrefix self.old.seen pass.new.seen × IsPrefix pass.old.seen pass.new.seen }
        ensures horizon { (self.new.horizon ≡ max self.old.horizon pass.old.horizon) × (pass.new.horizon ≡ max self.old.horizon pass.old.horizon) }
    {
        let mut own = self.own.take(rt);
        words.share(&mut own, pass);
        *self = SharedPass::new(words, own);
    }

    /// The session's pass learns what this one has seen, which others may tell meanwhile.
    pub fn tell<R: Wait>(&self, rt: &R, words: &Published<W>, pass: &mut SessionPass<W>)
        requires { (self.now.table ≡ words.now) × (pass.old.table ≡ words.now) }
        ensures same { pass.new.table ≡ pass.old.table }
        ensures seen { IsPrefix pass.old.seen pass.new.seen }
        ensures told { IsPrefix self.now.seen pass.new.seen }
        ensures horizon { pass.new.horizon ≡ max pass.old.horizon self.now.horizon }
    {
        self.lanes[pass.lane % LANES].tell(rt, words, pass);
    }
}
