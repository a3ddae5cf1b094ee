use crate::{Mistake, read_back, request_line};
use std::alloc::Global;
use std::test::Fail;

// Short forms, and the lines that docs/API.md has for them.
const LINES: &[(&str, &str)] = &[
    (
        "write +doc:readme#viewer@ann",
        r#"{"changes":[{"op":"touch","tuple":"doc:readme#viewer@ann"}],"op":"write"}"#,
    ),
    (
        "write -doc:a#viewer@ann if doc:a#lock@a=b=AQAAAAAAAAAAAQAAAAAAAAAA !doc:b#viewer@ann",
        r#"{"changes":[{"op":"delete","tuple":"doc:a#viewer@ann"}],"conditions":[{"since":"AQAAAAAAAAAAAQAAAAAAAAAA","tuple":"doc:a#lock@a=b"},{"tuple":"doc:b#viewer@ann","want":"absent"}],"op":"write"}"#,
    ),
    (
        "check doc:readme#viewer@ann",
        r#"{"op":"check","tuple":"doc:readme#viewer@ann"}"#,
    ),
    (
        "read at-least AQAAAAAAAAAAAQAAAAAAAAAA doc:readme doc@ann",
        r#"{"at_least":"AQAAAAAAAAAAAQAAAAAAAAAA","op":"read","sets":["doc:readme","doc@ann"]}"#,
    ),
    (
        "watch AQAAAAAAAAAAAQAAAAAAAAAA 256 doc group",
        r#"{"from":"AQAAAAAAAAAAAQAAAAAAAAAA","limit":256,"namespaces":["doc","group"],"op":"watch"}"#,
    ),
];

fn has_line(alloc: Global, text: &str, wanted: &str) -> bool {
    match request_line(alloc, text) {
        Ok(line) => line.as_str() == wanted,
        Err(_) => false,
    }
}

fn is_read_back(alloc: Global, text: &str) -> bool {
    match read_back(alloc, text, 1) {
        Ok(request) => {
            drop(request);
            true
        }
        Err(_) => false,
    }
}

#[test]
fn each_short_form_has_its_line_and_is_read_back(rt: HostRuntime) -> Result<(), Fail> {
    for (text, wanted) in LINES {
        assert!(rt; has_line(rt.alloc(), text, wanted), "at {text}");
        assert!(rt; is_read_back(rt.alloc(), text), "at {text}");
    }
    Ok(())
}

#[test]
fn what_is_none_is_told(rt: HostRuntime) -> Result<(), Fail> {
    let rows = [
        ("writes +a", Mistake::Verb),
        ("write +a if", Mistake::Write),
        ("read latest", Mistake::Read),
        ("check a b", Mistake::Check),
        ("watch a 257 doc", Mistake::Watch),
        ("check a\ncheck b", Mistake::LineFeed),
    ];
    for (text, wanted) in rows {
        assert_eq!(rt;
            request_line(rt.alloc(), text).err(),
            Some(wanted),
            "at {text}"
        );
    }
    Ok(())
}
