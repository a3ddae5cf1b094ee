// How a line has what was asked and told.
use crate::page::Page;
use names::NodeName;
use tuples::{Change, Condition, Freshness, Refusal, Tuple, Version, Want, Write};

fn push_change(page: &mut Page, change: &Change) {
    match change {
        Change::Touch(tuple) => {
            page.push(b"+");
            page.push_tuple(tuple);
        }
        Change::Delete(tuple) => {
            page.push(b"-");
            page.push_tuple(tuple);
        }
    }
}

fn push_condition(page: &mut Page, condition: &Condition) {
    match condition.want {
        Want::Exists => {
            page.push(b"?");
            page.push_tuple(&condition.tuple);
        }
        Want::Absent => {
            page.push(b"!");
            page.push_tuple(&condition.tuple);
        }
        Want::NotAfter(place) => {
            page.push_tuple(&condition.tuple);
            page.push(b"=");
            page.push_number(place);
        }
    }
}

/// Its changes, and its conditions if there are any: ` +doc:a#viewer@u1 if ?doc:b#viewer@u1`.
pub(crate) fn push_write(page: &mut Page, write: &Write) {
    for change in write.changes() {
        page.push(b" ");
        push_change(page, change);
    }
    let mut word: &[u8] = b" if ";
    for condition in write.conditions() {
        page.push(word);
        push_condition(page, condition);
        word = b" ";
    }
}

/// At which place an answer was asked for, and what it was asked about: ` =7 doc:a`.
pub(crate) fn push_asked(page: &mut Page, freshness: Freshness, text: &[u8]) {
    match freshness {
        Freshness::Latest => page.push(b" latest"),
        Freshness::AtLeast(place) => {
            page.push(b" >=");
            page.push_number(place);
        }
        Freshness::Exact(place) => {
            page.push(b" =");
            page.push_number(place);
        }
    }
    page.push(b" ");
    page.push(text);
}

/// What a watch was asked for, without the place that it told: ` 7 256` and ` doc group` are around that.
pub(crate) fn push_names(page: &mut Page, names: &[&'static str]) {
    for name in names {
        page.push(b" ");
        page.push(name.as_bytes());
    }
}

pub(crate) fn push_tuples(page: &mut Page, tuples: &[Tuple]) {
    for tuple in tuples {
        page.push(b" ");
        page.push_tuple(tuple);
    }
}

pub(crate) fn push_events(page: &mut Page, events: &[Version]) {
    for event in events {
        page.push(b" ");
        page.push_number(event.place);
        push_change(page, &event.change);
    }
}

/// The number and the name: ` 13 Down`.
pub(crate) fn push_refusal(page: &mut Page, refusal: Refusal) {
    page.push(b" ");
    page.push_number(u64::from(refusal.number()));
    page.push(b" ");
    page.push(refusal.name().as_bytes());
}

pub(crate) fn push_node(page: &mut Page, node: NodeName) {
    match node {
        NodeName::Coordinator => page.push(b" c"),
        NodeName::Shard(shard) => {
            page.push(b" ");
            page.push_number(u64::from(shard));
        }
    }
}
