// The texts of answers and refusals, as the rules of the lines spell them; another program's base64 gave the tokens.
use json_lines::{Answer, Events, Membership, Rows, Written, write_refusal};
use refusal::Refusal;
use std::alloc::{AllocError, Global};
use std::test::Fail;
use tuples::{Change, Tuple, Version};

fn tuple(alloc: Global, text: &str) -> Result<Tuple, Refusal> {
    Tuple::parse(alloc, text.as_bytes())
}

// What an answer is made of; its texts are tuples.
#[derive(Clone, Copy)]
enum Given {
    Written,
    Rows(&'static [&'static [&'static str]]),
    Membership(bool),
    // Whether a change is a touch, its place, and its tuple.
    Events(&'static [(bool, u64, &'static str)]),
}

// Answers at place 1, or with a heartbeat at place 3.
const ANSWERS: &[(Given, &str)] = &[
    (Given::Written, r#"{"zookie":"AQAAAAAAAAAAAQAAAAAAAAAB"}"#),
    (
        Given::Rows(&[&["doc:a#viewer@u1"], &[]]),
        r#"{"sets":[["doc:a#viewer@u1"],[]],"zookie":"AQAAAAAAAAAAAQAAAAAAAAAB"}"#,
    ),
    (
        Given::Rows(&[&["doc:a#v@g:h#m", r#"doc:"\#v@u"#]]),
        r#"{"sets":[["doc:a#v@g:h#m","doc:\"\\#v@u"]],"zookie":"AQAAAAAAAAAAAQAAAAAAAAAB"}"#,
    ),
    (
        Given::Rows(&[]),
        r#"{"sets":[],"zookie":"AQAAAAAAAAAAAQAAAAAAAAAB"}"#,
    ),
    (
        Given::Membership(true),
        r#"{"member":true,"zookie":"AQAAAAAAAAAAAQAAAAAAAAAB"}"#,
    ),
    (
        Given::Membership(false),
        r#"{"member":false,"zookie":"AQAAAAAAAAAAAQAAAAAAAAAB"}"#,
    ),
    (
        Given::Events(&[
            (true, 1, "doc:a#viewer@u1"),
            (false, 18_446_744_073_709_551_615, "doc:b#v@u"),
        ]),
        r#"{"events":[{"change":"touch","place":1,"tuple":"doc:a#viewer@u1"},{"change":"delete","place":18446744073709551615,"tuple":"doc:b#v@u"}],"heartbeat":"AQAAAAAAAAAAAQAAAAAAAAAD"}"#,
    ),
    (
        Given::Events(&[]),
        r#"{"events":[],"heartbeat":"AQAAAAAAAAAAAQAAAAAAAAAD"}"#,
    ),
];

fn tuples(alloc: Global, texts: &[&str]) -> Result<Vec<Tuple>, Refusal> {
    let mut tuples = Vec::new(alloc);
    for text in texts {
        tuples.reserve(1)?;
        tuples.push_reserved(tuple(alloc, text)?);
    }
    Ok(tuples)
}

fn rows(alloc: Global, texts: &[&[&str]]) -> Result<Answer, Refusal> {
    let mut sets = Vec::new(alloc);
    for set in texts {
        sets.reserve(1)?;
        sets.push_reserved(tuples(alloc, set)?);
    }
    Ok(Answer::Rows(Rows { sets, place: 1 }))
}

fn version(alloc: Global, (is_touch, place, text): (bool, u64, &str)) -> Result<Version, Refusal> {
    let tuple = tuple(alloc, text)?;
    let change = if is_touch {
        Change::Touch(tuple)
    } else {
        Change::Delete(tuple)
    };
    Ok(Version { place, change })
}

fn watched(alloc: Global, changes: &[(bool, u64, &'static str)]) -> Result<Answer, Refusal> {
    let mut events = Vec::new(alloc);
    for change in changes {
        events.reserve(1)?;
        events.push_reserved(version(alloc, *change)?);
    }
    Ok(Answer::Events(Events {
        events,
        heartbeat: 3,
    }))
}

fn answer(alloc: Global, given: Given) -> Result<Answer, Refusal> {
    match given {
        Given::Written => Ok(Answer::Written(Written { place: 1 })),
        Given::Rows(texts) => rows(alloc, texts),
        Given::Membership(is_member) => Ok(Answer::Membership(Membership {
            is_member,
            place: 1,
        })),
        Given::Events(changes) => watched(alloc, changes),
    }
}

fn writes(alloc: Global, answer: &Answer, want: &str) -> Result<bool, AllocError> {
    let mut out = Vec::new(alloc);
    answer.write_to(1, &mut out)?;
    Ok(out.as_slice() == want.as_bytes())
}

// Whether an answer has this text. It is borrowed by what can fail: at the end of a scope it would be dropped once per exit.
fn has_text(alloc: Global, given: Given, want: &str) -> Result<bool, Refusal> {
    let answer = answer(alloc, given)?;
    let is_written = writes(alloc, &answer, want);
    drop(answer);
    Ok(is_written?)
}

#[test]
fn an_answer_has_its_text(rt: HostRuntime) -> Result<(), Fail> {
    for (given, want) in ANSWERS {
        assert!(rt; has_text(rt.alloc(), *given, want)?, "{want}");
    }
    Ok(())
}

#[test]
fn a_refusal_has_its_text(rt: HostRuntime) -> Result<(), Fail> {
    let table = [
        (Refusal::BadRequest, r#"{"error":1,"name":"BadRequest"}"#),
        (Refusal::TooLarge, r#"{"error":3,"name":"TooLarge"}"#),
        (Refusal::NoMemory, r#"{"error":14,"name":"NoMemory"}"#),
        (Refusal::Damaged, r#"{"error":16,"name":"Damaged"}"#),
    ];
    for (refusal, want) in table {
        let mut out = vec![in rt.alloc();]?;
        write_refusal(refusal, &mut out)?;
        assert!(rt; out.as_slice() == want.as_bytes(), "{want}");
    }
    Ok(())
}
