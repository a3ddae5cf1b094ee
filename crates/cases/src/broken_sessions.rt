// Sessions that break off; the lines and their answers are those of the rules of the lines.
use json_lines::{Events, Membership, Rows, Written};
use sessions::{Answers, serve_stream};
use std::alloc::Global;
use std::io::{self, ErrorKind, Read};
use std::test::Fail;
use tuples::{Freshness, Namespace, Refusal, Tuple, Tupleset, Write};

// A store that counts its writes, of which every user is a member of everything.
#[derive(Drop)]
struct Fake {
    place: u64,
}

impl Answers for Fake {
    ghost store = { 1 };

    ghost gives = { λ a request reply b. Unit {0} };

    fn store_id(&self) -> u64 {
        1
    }

    fn write(&mut self, _write: Write) -> Result<Written, Refusal> {
        self.place = self.place.saturating_add(1);
        Ok(Written { place: self.place })
    }

    fn read(&mut self, _freshness: Freshness, _sets: Vec<Tupleset>) -> Result<Rows, Refusal> {
        Err(Refusal::Down)
    }

    fn check(&mut self, _freshness: Freshness, _tuple: Tuple) -> Result<Membership, Refusal> {
        Ok(Membership {
            is_member: true,
            place: self.place,
        })
    }

    fn watch(
        &mut self,
        _from: u64,
        _limit: u16,
        _namespaces: Vec<Namespace>,
    ) -> Result<Events, Refusal> {
        Err(Refusal::Down)
    }
}

// Gives one byte at a time, and fails after some.
#[derive(Drop)]
struct Slow<'a> {
    rest: &'a [u8],
    fails: bool,
}

impl Read for Slow<'_> {
    fn read(&mut self, buf: &mut [u8]) -> io::Result<usize> {
        match (self.rest, buf) {
            ([first, rest @ ..], [place, ..]) => {
                *place = *first;
                self.rest = rest;
                Ok(1)
            }
            _ => {
                if self.fails {
                    Err(ErrorKind::BrokenPipe.into())
                } else {
                    Ok(0)
                }
            }
        }
    }
}

// Takes this many bytes, a few at a time, and then fails.
#[derive(Drop)]
struct Narrow {
    taken: Vec<u8>,
    room: usize,
}

impl io::Write for Narrow {
    fn write(&mut self, bytes: &[u8]) -> io::Result<usize> {
        let count = bytes.len().min(self.room).min(7);
        if count == 0 {
            return Err(ErrorKind::BrokenPipe.into());
        }
        match self.taken.extend_from_slice(&bytes[..count]) {
            Ok(()) => {}
            Err(_) => return Err(ErrorKind::OutOfMemory.into()),
        }
        self.room -= count;
        Ok(count)
    }

    fn flush(&mut self) -> io::Result<()> {
        Ok(())
    }
}

const TOUCH: &str = r#"{"op":"write","changes":[{"op":"touch","tuple":"doc:a#viewer@u1"}]}"#;

const WRITTEN: &str = r#"{"zookie":"AQAAAAAAAAAAAQAAAAAAAAAB"}"#;

const CHECK: &str = r#"{"op":"check","tuple":"doc:a#viewer@u1"}"#;

const MEMBER: &str = r#"{"member":true,"zookie":"AQAAAAAAAAAAAQAAAAAAAAAB"}"#;

const BAD: &str = r#"{"error":1,"name":"BadRequest"}"#;

// How a session ends over these lines, with this much room for its answers and a reader that fails after them or not: whether it ended
// well, and whether it wrote the beginning of the whole, as long as its room, or this long if there is room for more.
fn serve(
    alloc: Global,
    input: &[u8],
    whole: &[u8],
    all: usize,
    (room, fails): (usize, bool),
) -> (bool, bool) {
    let mut reader = Slow { rest: input, fails };
    let mut writer = Narrow {
        taken: Vec::new(alloc),
        room,
    };
    let served = serve_stream(alloc, &mut reader, &mut writer, &mut Fake { place: 0 });
    let taken = writer.taken.as_slice();
    let is_beginning = whole.starts_with(taken) && taken.len() == room.min(all);
    (served.is_ok(), is_beginning)
}

#[test]
fn a_failure_leaves_a_beginning_of_the_session(rt: HostRuntime) -> Result<(), Fail> {
    let alloc = rt.alloc();
    let input = format!(in alloc; "{TOUCH}\n{CHECK}\n{CHECK}")?;
    let whole = format!(in alloc; "{WRITTEN}\n{MEMBER}\n{BAD}\n")?;
    for room in [0, 1, 7, 36, 37, 38, 90, 1_000] {
        for fails in [false, true] {
            // The last line is not ended, so a failing reader leaves its answer out.
            let all = if fails {
                whole.len().saturating_sub(BAD.len() + 1)
            } else {
                whole.len()
            };
            let is_whole = room >= all && !fails;
            let (is_served, is_beginning) = serve(
                alloc,
                input.as_bytes(),
                whole.as_bytes(),
                all,
                (room, fails),
            );
            assert!(rt; is_served == is_whole, "{room} {fails}");
            assert!(rt; is_beginning, "{room} {fails}");
        }
    }
    Ok(())
}
