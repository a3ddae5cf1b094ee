// Two threads that are told by one pass at once.
ghost use Rattle.std.specs.Prelude.{◌≡◌, ◌+◌, ◌∷◌, [], length};

use crate::{Adds, LogPass, Published, SessionPass, SharedPass};
use std::marker::Brand;
use std::sync::Wait;
use std::test::*;
use std::thread::{Threads, join};

const ROUNDS: u64 = 500;

fn advance_by_one<A: Adds<u64>>(words: &Published<u64>, log: &mut LogPass<u64>, place: u64)
    requires own { log.old.table ≡ words.now }
    requires added { A.added ≡ place ∷ [] }
    requires place { place ≡ length log.old.seen + 1 }
    ensures same { log.new.table ≡ log.old.table }
{
    words.advance::<A>(log, place);
}

// Adds a write to the list.
fn add_one(words: &Published<u64>, log: &mut LogPass<u64>)
    requires own { log.old.table ≡ words.now }
    ensures same { log.new.table ≡ log.old.table }
{
    if let Some(place) = words.length(log).checked_add(1) {
        advance_by_one::<Brand>(words, log, place);
    }
}

// Is told again and again.
fn told_often<R: Wait>(
    rt: &R,
    words: &Published<u64>,
    shared: &SharedPass<u64>,
    pass: SessionPass<u64>,
) -> SessionPass<u64>
    requires { (shared.now.table ≡ words.now) × (pass.table ≡ words.now) }
    ensures { result.table ≡ words.now }
{
    let mut pass = pass;
    for _ in 0..ROUNDS {
        shared.tell(rt, words, &mut pass);
    }
    pass
}

// Two threads are told, and then each looks.
fn two_told<R: Threads + Wait + Sync>(
    rt: &R,
    words: &Published<u64>,
    shared: &SharedPass<u64>,
    passes: (SessionPass<u64>, SessionPass<u64>),
) -> (u64, u64)
    requires { (shared.now.table ≡ words.now) × (passes.0.table ≡ words.now) × (passes.1.table ≡ words.now) }
{
    let (one, other) = passes;
    let (mut one, mut other) = join(
        rt,
        move || -> SessionPass<u64>
            requires { (shared.now.table ≡ words.now) × (one.table ≡ words.now) }
            ensures { result.table ≡ words.entry.now }
        { told_often(rt, words, shared, one) },
        move || -> SessionPass<u64>
            requires { (shared.now.table ≡ words.now) × (other.table ≡ words.now) }
            ensures { result.table ≡ words.entry.now }
        { told_often(rt, words, shared, other) },
    );
    (words.latest(&mut one), words.latest(&mut other))
}

#[test]
fn two_threads_are_told_by_one_pass(rt: HostRuntime) -> Result<(), Fail> {
    let (words, mut log) = Published::new(rt.alloc())?;
    let passes = (words.session(&mut log), words.session(&mut log));
    add_one(&words, &mut log);
    let shared = SharedPass::new(&words, words.session(&mut log));
    let (one, other) = two_told(&rt, &words, &shared, passes);
    assert_eq!(rt; one, 1);
    assert_eq!(rt; other, 1);
    Ok(())
}
