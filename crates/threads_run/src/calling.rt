// The calls of one worker, and the line of each.
ghost use Rattle.std.specs.Prelude.{◌≤◌};
ghost use Rattle.tuples.specs.Limits.{max_watched};

use crate::course::Course;
use crate::spelling::{
    push_asked, push_events, push_names, push_node, push_refusal, push_tuples, push_write,
};
use crate::worker::Worker;
use answer_flow::{CheckEnd, ReadEnd, WatchEnd};
use calls::Told;
use commit_flow::WriteEnd;
use device::Device;
use locked::{Gate, Store};
use names::NodeName;
use sides::Room;
use std::alloc::Global;
use std::sync::Wait;
use tuples::{Freshness, Namespace, Refusal, Tuple, Tupleset, Userset, Write};

fn add_namespace(
    alloc: Global,
    namespaces: &mut Vec<Namespace>,
    name: &str,
) -> Result<(), Refusal> {
    namespaces.reserve(1)?;
    let namespace = Namespace::parse(alloc, name.as_bytes())?;
    namespaces.push_reserved(namespace);
    Ok(())
}

/// The namespaces of these names.
pub(crate) fn namespaces(alloc: Global, names: &[&'static str]) -> Result<Vec<Namespace>, Refusal> {
    let mut namespaces = Vec::new(alloc);
    for name in names {
        add_namespace(alloc, &mut namespaces, name)?;
    }
    Ok(namespaces)
}

/// The tupleset of this text, alone.
pub(crate) fn sets(alloc: Global, text: &str) -> Result<Vec<Tupleset>, Refusal> {
    let mut sets = Vec::with_capacity(alloc, 1)?;
    match Tupleset::parse(alloc, text.as_bytes()) {
        Ok(set) => {
            sets.push_reserved(set);
            Ok(sets)
        }
        Err(refusal) => Err(refusal),
    }
}

impl<B: Room> Worker<B> {
    // It was refused, and the word after that is what it asked for.
    fn push_refused(&mut self, refusal: Refusal, word: &[u8]) {
        self.is_refused = true;
        self.page.push(b" refused");
        push_refusal(&mut self.page, refusal);
        self.page.push(word);
    }

    fn push_told(&mut self, word: &[u8], place: u64) {
        self.learn(place);
        self.page.push(word);
        self.page.push_number(place);
    }

    /// Makes the write.
    pub(crate) fn write<D: Device, G: Gate, R: Wait>(
        &mut self,
        rt: &R,
        store: &Store<D, B, G>,
        course: &Course,
        write: Write,
    ) {
        self.draft.clear();
        push_write(&mut self.draft, &write);
        let begin = course.tick();
        let end = store.write(rt, self.alloc, &mut self.caller, &mut Told::new(), write);
        self.begin_line(begin, course.tick());
        match end {
            WriteEnd::Wrote(place) => self.push_told(b" wrote ", place),
            WriteEnd::Refused(refusal) => self.push_refused(refusal, b" write"),
            WriteEnd::Cancelled => unreachable!(),
        }
        self.page.push(self.draft.bytes());
        self.page.push(b"\n");
    }

    /// Reads the tuples of the tupleset with this text.
    pub(crate) fn read<D: Device, G: Gate, R: Wait>(
        &mut self,
        rt: &R,
        store: &Store<D, B, G>,
        course: &Course,
        freshness: Freshness,
        text: &str,
    ) -> Result<(), Refusal> {
        let sets = sets(self.alloc, text)?;
        let begin = course.tick();
        let end = store.read(
            rt,
            self.alloc,
            &mut self.caller,
            &mut Told::new(),
            freshness,
            sets,
        );
        self.begin_line(begin, course.tick());
        self.push_read(end, freshness, text.as_bytes());
        Ok(())
    }

    fn push_read(&mut self, end: ReadEnd, freshness: Freshness, text: &[u8]) {
        match end {
            ReadEnd::Answered(place, rows) => {
                self.push_told(b" rows ", place);
                push_asked(&mut self.page, freshness, text);
                self.page.push(b" :");
                for tuples in rows.iter() {
                    push_tuples(&mut self.page, tuples);
                }
            }
            ReadEnd::Refused(refusal) => {
                self.push_refused(refusal, b" read");
                push_asked(&mut self.page, freshness, text);
            }
        }
        self.page.push(b"\n");
    }

    /// Checks whether the user of the tuple with this text is in the userset before it.
    pub(crate) fn check<D: Device, G: Gate, R: Wait>(
        &mut self,
        rt: &R,
        store: &Store<D, B, G>,
        course: &Course,
        freshness: Freshness,
        text: &str,
    ) -> Result<(), Refusal> {
        let Tuple {
            object,
            relation,
            user,
        } = Tuple::parse(self.alloc, text.as_bytes())?;
        let userset = Userset { object, relation };
        let begin = course.tick();
        let end = store.check(
            rt,
            self.alloc,
            &mut self.caller,
            &mut Told::new(),
            freshness,
            &userset,
            user,
        );
        self.begin_line(begin, course.tick());
        self.push_check(end, freshness, text.as_bytes());
        Ok(())
    }

    fn push_check(&mut self, end: CheckEnd, freshness: Freshness, text: &[u8]) {
        match end {
            CheckEnd::Answered(place, true) => self.push_told(b" yes ", place),
            CheckEnd::Answered(place, false) => self.push_told(b" no ", place),
            CheckEnd::Refused(refusal) => self.push_refused(refusal, b" check"),
        }
        push_asked(&mut self.page, freshness, text);
        self.page.push(b"\n");
    }

    /// Watches these namespaces, this many places on from where it has watched to.
    pub(crate) fn watch<D: Device, G: Gate, R: Wait>(
        &mut self,
        rt: &R,
        store: &Store<D, B, G>,
        course: &Course,
        limit: u64,
        names: &[&'static str],
    ) -> Result<(), Refusal>
        requires { limit ≤ max_watched }
    {
        let namespaces = namespaces(self.alloc, names)?;
        let begin = course.tick();
        let end = store.watch(
            rt,
            self.alloc,
            &mut self.caller,
            &mut Told::new(),
            self.cursor,
            limit,
            namespaces,
        );
        self.begin_line(begin, course.tick());
        self.push_watch(end, limit, names);
        Ok(())
    }

    fn push_watch(&mut self, end: WatchEnd, limit: u64, names: &[&'static str]) {
        match end {
            WatchEnd::Answered(place, events) => {
                self.page.push(b" events ");
                self.page.push_column(self.cursor);
                self.page.push_number(limit);
                self.push_told(b" ", place);
                push_names(&mut self.page, names);
                self.page.push(b" :");
                push_events(&mut self.page, &events);
                self.cursor = place;
            }
            WatchEnd::Refused(refusal) => {
                self.push_refused(refusal, b" watch ");
                self.page.push_column(self.cursor);
                self.page.push_number(limit);
                push_names(&mut self.page, names);
            }
        }
        self.page.push(b"\n");
    }

    /// Opens the node again. Returns whether it is up.
    pub(crate) fn restart<D: Device, G: Gate, R: Wait>(
        &mut self,
        rt: &R,
        store: &Store<D, B, G>,
        course: &Course,
        node: NodeName,
    ) -> bool {
        let begin = course.tick();
        let refusal = restart_node(rt, self.alloc, store, node);
        self.begin_line(begin, course.tick());
        self.page.push(b" restarted");
        push_node(&mut self.page, node);
        let is_up = refusal.is_none();
        if let Some(refusal) = refusal {
            push_refusal(&mut self.page, refusal);
        }
        self.page.push(b"\n");
        is_up
    }

    /// Tells that a disk of the node was set to fail.
    pub(crate) fn tell_failing(&mut self, course: &Course, node: NodeName) {
        let begin = course.tick();
        self.begin_line(begin, course.tick());
        self.page.push(b" failing");
        push_node(&mut self.page, node);
        self.page.push(b"\n");
    }
}

// The refusal of its opening, if that was refused. A node that is not there is up.
fn restart_node<D: Device, B: Room, G: Gate, R: Wait>(
    rt: &R,
    alloc: Global,
    store: &Store<D, B, G>,
    node: NodeName,
) -> Option<Refusal> {
    match node {
        NodeName::Coordinator => store.restart_coordinator(rt, alloc),
        NodeName::Shard(shard) if store.shards().has(shard) => store.restart_shard(
            rt, alloc, shard,
        ),
        NodeName::Shard(_) => None,
    }
}
