ghost use Rattle.std.specs.Prelude.{◌≡◌, ◌≤◌, ◌<◌, ◌+◌, ◌*◌, ◌++◌, ◌^◌, [], ◌∷◌, length, Some, slice_get};

use crate::{Adds, LogPass, Published, SessionPass};
use std::marker::{Brand, Model};
use std::test::*;
use std::thread::{Threads, join};

/// A write for the tests, of which contracts see the id and the rows.
#[derive(Drop)]
pub struct Note {
    id: u64,
    rows: Vec<u64>,
}

impl Model for Note {
    ghost use Rattle.std.specs.Prelude.{ℕ, List};

    ghost Value = { ℕ × List ℕ };

    ghost view = { λ n. (n.id, n.rows.items) };
}

fn advance_by_note<A: Adds<Note>>(
    words: &Published<Note>,
    log: &mut LogPass<Note>,
    place: u64,
    note: &Note,
)
    requires own { log.old.table ≡ words.now }
    requires added { A.added ≡ note.now ∷ [] }
    requires place { place ≡ length log.old.seen + 1 }
    ensures same { log.new.table ≡ log.old.table }
    ensures added { log.new.seen ≡ log.old.seen ++ note.now ∷ [] }
{
    words.advance::<A>(log, place);
}

// Adds a write to the list.
fn add(words: &Published<Note>, log: &mut LogPass<Note>, place: u64, note: &Note)
    requires own { log.old.table ≡ words.now }
    requires place { place ≡ length log.old.seen + 1 }
    ensures same { log.new.table ≡ log.old.table }
    ensures added { log.new.seen ≡ log.old.seen ++ note.now ∷ [] }
{
    advance_by_note::<Brand>(words, log, place, note);
}

// One thread adds a write, and another looks twice. Then both are told of it.
fn two_threads<R: Threads + Sync>(
    rt: &R,
    words: &Published<Note>,
    log: LogPass<Note>,
    writer: SessionPass<Note>,
    reader: SessionPass<Note>,
    note: &Note,
) -> (u64, u64, SessionPass<Note>)
    requires own { (log.table ≡ words.now) × (writer.table ≡ words.now) × (reader.table ≡ words.now) }
    requires empty { log.seen ≡ [] }
    ensures same { result.2.table ≡ words.now }
    ensures rises { result.0 ≤ result.1 }
    ensures told { slice_get result.2.seen 0 ≡ Some note.now }
{
    let (mut writer, (first, second, mut reader)) = join(
        rt,
        move || -> SessionPass<Note>
            requires own { (log.table ≡ words.now) × (writer.table ≡ words.now) }
            requires empty { log.seen ≡ [] }
            ensures same { result.table ≡ words.entry.now }
            ensures seen { result.seen ≡ note.entry.now ∷ [] }
        {
            let mut log = log;
            let mut writer = writer;
            add(words, &mut log, 1, note);
            words.meet(&mut log, &mut writer);
            writer
        },
        move || -> (u64, u64, SessionPass<Note>)
            requires { reader.table ≡ words.now }
            ensures same { result.2.table ≡ words.entry.now }
            ensures rises { result.0 ≤ result.1 }
        {
            let mut reader = reader;
            let first = words.latest(&mut reader);
            let second = words.latest(&mut reader);
            (first, second, reader)
        },
    );
    words.share(&mut writer, &mut reader);
    (first, second, reader)
}

#[test]
fn a_write_of_one_thread_is_told_to_another(rt: HostRuntime) -> Result<(), Fail> {
    let note = Note {
        id: 7,
        rows: Vec::new(rt.alloc()),
    };
    let (words, mut log) = Published::new(rt.alloc())?;
    let writer = words.session(&mut log);
    let reader = words.session(&mut log);
    let (_, second, mut reader) = two_threads(&rt, &words, log, writer, reader, &note);
    assert!(rt; second <= 1);
    assert_eq!(rt; words.latest(&mut reader), 1);
    assert_eq!(rt; words.horizon(&mut reader), 0);
    Ok(())
}

const ROUNDS: u64 = 500;

fn advance_by_two<A: Adds<u64>>(words: &Published<u64>, log: &mut LogPass<u64>, place: u64)
    requires own { log.old.table ≡ words.now }
    requires added { length A.added ≡ 2 }
    requires place { place ≡ length log.old.seen + 2 }
    ensures same { log.new.table ≡ log.old.table }
    ensures length { length log.new.seen ≡ place }
{
    words.advance::<A>(log, place);
}

// Adds two writes at once, and raises the horizon to where the list was before.
fn add_two(words: &Published<u64>, log: &mut LogPass<u64>, before: u64)
    requires own { log.old.table ≡ words.now }
    requires before { before ≡ length log.old.seen }
    requires room { before + 2 < 2 ^ 64 }
    ensures same { log.new.table ≡ log.old.table }
    ensures length { length log.new.seen ≡ before + 2 }
{
    advance_by_two::<Brand>(words, log, before + 2);
    words.raise(log, before);
}

// Adds many writes, and then the session learns of all.
fn add_all(
    words: &Published<u64>,
    log: LogPass<u64>,
    writer: SessionPass<u64>,
) -> (u64, SessionPass<u64>)
    requires own { (log.table ≡ words.now) × (writer.table ≡ words.now) }
    requires empty { log.seen ≡ [] }
    ensures same { result.1.table ≡ words.now }
    ensures all { length result.1.seen ≡ result.0 }
{
    let mut log = log;
    let mut writer = writer;
    for round in 0..ROUNDS {
        add_two(words, &mut log, 2 * round);
    }
    let length = words.length(&mut log);
    words.meet(&mut log, &mut writer);
    (length, writer)
}

// Looks at both words many times, and says whether each was ever lower than before, or the horizon above the safe place.
fn look(words: &Published<u64>, pass: SessionPass<u64>) -> (bool, SessionPass<u64>)
    requires { pass.table ≡ words.now }
    ensures { result.1.table ≡ words.now }
{
    let mut pass = pass;
    let mut rises = true;
    let mut last = (0, 0);
    for _ in 0..ROUNDS {
        let horizon = words.horizon(&mut pass);
        let place = words.latest(&mut pass);
        rises = rises && last.0 <= horizon && last.1 <= place && horizon <= place;
        last = (horizon, place);
    }
    (rises, pass)
}

// Two threads look. Then each is told what the other has seen.
fn two_look<R: Threads + Sync>(
    rt: &R,
    words: &Published<u64>,
    one: SessionPass<u64>,
    other: SessionPass<u64>,
) -> (bool, SessionPass<u64>)
    requires { (one.table ≡ words.now) × (other.table ≡ words.now) }
    ensures { result.1.table ≡ words.now }
{
    let ((one_rises, mut one), (other_rises, mut other)) = join(
        rt,
        move || -> (bool, SessionPass<u64>)
            requires { one.table ≡ words.now }
            ensures { result.1.table ≡ words.entry.now }
        { look(words, one) },
        move || -> (bool, SessionPass<u64>)
            requires { other.table ≡ words.now }
            ensures { result.1.table ≡ words.entry.now }
        { look(words, other) },
    );
    words.share(&mut one, &mut other);
    (one_rises && other_rises, one)
}

// Three threads look.
fn three_look<R: Threads + Sync>(
    rt: &R,
    words: &Published<u64>,
    readers: (SessionPass<u64>, SessionPass<u64>, SessionPass<u64>),
) -> (bool, SessionPass<u64>)
    requires { (readers.0.table ≡ words.now) × (readers.1.table ≡ words.now) × (readers.2.table ≡ words.now) }
    ensures { result.1.table ≡ words.now }
{
    let (one, two, three) = readers;
    let ((two_rise, mut one), (third_rises, mut three)) = join(
        rt,
        move || -> (bool, SessionPass<u64>)
            requires { (one.table ≡ words.now) × (two.table ≡ words.now) }
            ensures { result.1.table ≡ words.entry.now }
        { two_look(rt, words, one, two) },
        move || -> (bool, SessionPass<u64>)
            requires { three.table ≡ words.now }
            ensures { result.1.table ≡ words.entry.now }
        { look(words, three) },
    );
    words.share(&mut one, &mut three);
    (two_rise && third_rises, one)
}

// One thread adds, and three look. Whoever the writer tells has then seen every write.
fn four_threads<R: Threads + Sync>(
    rt: &R,
    words: &Published<u64>,
    log: LogPass<u64>,
    writer: SessionPass<u64>,
    readers: (SessionPass<u64>, SessionPass<u64>, SessionPass<u64>),
) -> (bool, u64, SessionPass<u64>)
    requires own { (log.table ≡ words.now) × (writer.table ≡ words.now) }
    requires empty { log.seen ≡ [] }
    requires readers { (readers.0.table ≡ words.now) × (readers.1.table ≡ words.now) × (readers.2.table ≡ words.now) }
    ensures same { result.2.table ≡ words.now }
    ensures told { result.1 ≤ length result.2.seen }
{
    let ((length, mut writer), (rises, mut reader)) = join(
        rt,
        move || -> (u64, SessionPass<u64>)
            requires own { (log.table ≡ words.now) × (writer.table ≡ words.now) }
            requires empty { log.seen ≡ [] }
            ensures same { result.1.table ≡ words.entry.now }
            ensures all { length result.1.seen ≡ result.0 }
        { add_all(words, log, writer) },
        move || -> (bool, SessionPass<u64>)
            requires { (readers.0.table ≡ words.now) × (readers.1.table ≡ words.now) × (readers.2.table ≡ words.now) }
            ensures { result.1.table ≡ words.entry.now }
        { three_look(rt, words, readers) },
    );
    words.share(&mut reader, &mut writer);
    (rises, length, reader)
}

#[test]
fn three_threads_look_while_a_fourth_adds(rt: HostRuntime) -> Result<(), Fail> {
    let (words, mut log) = Published::new(rt.alloc())?;
    let writer = words.session(&mut log);
    let readers = (
        words.session(&mut log),
        words.session(&mut log),
        words.session(&mut log),
    );
    let (rises, length, mut reader) = four_threads(&rt, &words, log, writer, readers);
    assert!(rt; rises);
    assert_eq!(rt; length, 1000);
    assert_eq!(rt; words.latest(&mut reader), 1000);
    assert_eq!(rt; words.horizon(&mut reader), 998);
    Ok(())
}
