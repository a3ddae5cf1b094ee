use crate::{CallSettings, DumpSettings, ReshardSettings, ServeSettings};
use std::alloc::AllocError;
use std::test::Fail;

// Who reads a line.
#[derive(Clone, Copy)]
enum Reader {
    Serve,
    Dump,
    Reshard,
    Call,
}

// Lines, and after each the settings that it asks for, or the status to end with: 2 for one without an option that has to be there, with a number out of its range, or with
// what there is not; 0 for help. They are texts, since a list of as many rows takes long to be proved wherever it is read.
const SERVE: &str =
    r#"zanstore serve --dir data --store=7 --shards 2 --listen 127.0.0.1:7700 --workers=4 => Ok(ServeSettings { dir: "data", store: 7, shards: Shards { count: 2 }, listen: "127.0.0.1:7700", workers: 4, window: 1000000, window_mib: 4096, answer_mib: 1024, connections: 0, idle: 10, existing: false, end_when_down: false })
zanstore serve --idle 4294967295 --connections=4294967295 --window 0 --window-mib=1 --answer-mib 1048576 --workers 64 --listen a --shards 64 --store 4294967295 --dir b => Ok(ServeSettings { dir: "b", store: 4294967295, shards: Shards { count: 64 }, listen: "a", workers: 64, window: 0, window_mib: 1, answer_mib: 1048576, connections: 4294967295, idle: 4294967295, existing: false, end_when_down: false })
zanstore serve --existing --dir d --store 1 --shards 2 --listen a --workers 4 --end-when-down => Ok(ServeSettings { dir: "d", store: 1, shards: Shards { count: 2 }, listen: "a", workers: 4, window: 1000000, window_mib: 4096, answer_mib: 1024, connections: 0, idle: 10, existing: true, end_when_down: true })
zanstore => Err(2)
zanstore serve --store 1 --shards 2 --listen a --workers 4 => Err(2)
zanstore serve --dir d --shards 2 --listen a --workers 4 => Err(2)
zanstore serve --dir d --store 1 --listen a --workers 4 => Err(2)
zanstore serve --dir d --store 1 --shards 2 --workers 4 => Err(2)
zanstore serve --dir d --store 1 --shards 2 --listen a => Err(2)
zanstore serve --dir d --store 4294967296 --shards 2 --listen a --workers 4 => Err(2)
zanstore serve --dir d --store 1 --shards 0 --listen a --workers 4 => Err(2)
zanstore serve --dir d --store 1 --shards 65 --listen a --workers 4 => Err(2)
zanstore serve --dir d --store 1 --shards 2 --listen a --workers 0 => Err(2)
zanstore serve --dir d --store 1 --shards 2 --listen a --workers 65 => Err(2)
zanstore serve --dir d --store 1 --shards 2 --listen a --workers 4 --window 4294967296 => Err(2)
zanstore serve --dir d --store 1 --shards 2 --listen a --workers 4 --window-mib 0 => Err(2)
zanstore serve --dir d --store 1 --shards 2 --listen a --workers 4 --answer-mib 1048577 => Err(2)
zanstore serve --dir d --store 1 --shards 2 --listen a --workers 4 --connections 4294967296 => Err(2)
zanstore serve --dir d --store 1 --shards 2 --listen a --workers 4 --idle 4294967296 => Err(2)
zanstore serve --dir d --store 1 --shards two --listen a --workers 4 => Err(2)
zanstore serve --dir d --store 1 --shards 2 --listen a --workers 4 --port 1 => Err(2)
zanstore serve --dir d --store 1 --shards 2 --listen a --workers 4 --existing=1 => Err(2)
zanstore serve --help => Err(0)
zanstore serve -h => Err(0)
zanstore help serve => Err(0)"#;

const DUMP: &str =
    r#"zanstore dump --dir data --store=7 --shards 2 => Ok(DumpSettings { dir: "data", store: 7, shards: Shards { count: 2 }, at: None })
zanstore dump --at 4294967295 --shards 64 --store 4294967295 --dir b => Ok(DumpSettings { dir: "b", store: 4294967295, shards: Shards { count: 64 }, at: Some(4294967295) })
zanstore => Err(2)
zanstore dump --store 1 --shards 2 => Err(2)
zanstore dump --dir d --shards 2 => Err(2)
zanstore dump --dir d --store 1 => Err(2)
zanstore dump --dir d --store 4294967296 --shards 2 => Err(2)
zanstore dump --dir d --store 1 --shards 0 => Err(2)
zanstore dump --dir d --store 1 --shards 65 => Err(2)
zanstore dump --dir d --store 1 --shards two => Err(2)
zanstore dump --dir d --store 1 --shards 2 --at 4294967296 => Err(2)
zanstore dump --dir d --store 1 --shards 2 --at -1 => Err(2)
zanstore dump --dir d --store 1 --shards 2 --at => Err(2)
zanstore dump --dir d --store 1 --shards 2 --listen a => Err(2)
zanstore dump --dir d --store 1 --shards 2 d => Err(2)
zanstore dump --help => Err(0)
zanstore dump -h => Err(0)
zanstore help dump => Err(0)"#;

const RESHARD: &str =
    r#"zanstore reshard --new-shards 64 --dir data --to=wider --store 7 --shards 2 => Ok(ReshardSettings { dir: "data", to: "wider", store: 7, shards: Shards { count: 2 }, new_shards: Shards { count: 64 } })
zanstore reshard --to e --store 1 --shards 2 --new-shards 3 => Err(2)
zanstore reshard --dir d --store 1 --shards 2 --new-shards 3 => Err(2)
zanstore reshard --dir d --to e --shards 2 --new-shards 3 => Err(2)
zanstore reshard --dir d --to e --store 1 --new-shards 3 => Err(2)
zanstore reshard --dir d --to e --store 1 --shards 2 => Err(2)
zanstore reshard --dir d --to e --store 4294967296 --shards 2 --new-shards 3 => Err(2)
zanstore reshard --dir d --to e --store 1 --shards 0 --new-shards 3 => Err(2)
zanstore reshard --dir d --to e --store 1 --shards 2 --new-shards 0 => Err(2)
zanstore reshard --dir d --to e --store 1 --shards 2 --new-shards 65 => Err(2)
zanstore reshard --dir d --to e --store 1 --shards 2 --new-shards 3 --at 1 => Err(2)
zanstore reshard --dir d --to e --store 1 --shards 2 --new-shards 3 f => Err(2)"#;

const CALL: &str =
    r#"zanstore call 127.0.0.1:7700 => Ok(CallSettings { address: "127.0.0.1:7700", retry: 0, timeout: None, follow: false, reconnect: false, status: false, request: None })
zanstore call h:1 --retry 1000 --timeout=4294967295 --follow write -doc:a#viewer@ann -retry if => Ok(CallSettings { address: "h:1", retry: 1000, timeout: Some(4294967295), follow: true, reconnect: false, status: false, request: Some("write -doc:a#viewer@ann -retry if") })
zanstore call h:1 {"op": --x} --retry 1 => Ok(CallSettings { address: "h:1", retry: 0, timeout: None, follow: false, reconnect: false, status: false, request: Some("{\"op\": --x} --retry 1") })
zanstore call h:1 --follow --reconnect watch Z 1 doc => Ok(CallSettings { address: "h:1", retry: 0, timeout: None, follow: true, reconnect: true, status: false, request: Some("watch Z 1 doc") })
zanstore call h:1 --status check doc:a#viewer@ann => Ok(CallSettings { address: "h:1", retry: 0, timeout: None, follow: false, reconnect: false, status: true, request: Some("check doc:a#viewer@ann") })
zanstore call h:1 check doc:a#viewer@ann --retry 1 => Err(2)
zanstore call h:1 --verbose check doc:a#viewer@ann => Err(2)
zanstore call h:1 -v => Err(2)
zanstore call a --timeout 0 => Err(2)
zanstore call a --timeout 4294967296 => Err(2)
zanstore => Err(2)
zanstore call => Err(2)
zanstore call --retry 3 => Err(2)
zanstore call a --retry => Err(2)
zanstore call a --retry 1001 => Err(2)
zanstore call a --retry x => Err(2)
zanstore call a --follow=1 => Err(2)
zanstore call --help => Err(0)
zanstore call -h => Err(0)
zanstore help call => Err(0)"#;

// Lines, and whether they are for the command.
const NAMED: &[(Reader, &str, bool)] = &[
    (
        Reader::Serve,
        "zanstore serve --dir data --store=7 --shards 2 --listen 127.0.0.1:7700 --workers=4",
        true,
    ),
    (Reader::Serve, "zanstore help serve", true),
    (Reader::Serve, "zanstore", false),
    (Reader::Serve, "zanstore help", false),
    (Reader::Serve, "zanstore help dump", false),
    (Reader::Serve, "zanstore sim", false),
    (Reader::Serve, "serve", false),
    (Reader::Serve, "zanstore sim serve", false),
    (Reader::Serve, "zanstore serves", false),
    (
        Reader::Dump,
        "zanstore dump --dir data --store=7 --shards 2",
        true,
    ),
    (Reader::Dump, "zanstore", false),
    (Reader::Dump, "zanstore sim", false),
    (Reader::Dump, "dump", false),
    (Reader::Dump, "zanstore serve dump", false),
    (Reader::Dump, "zanstore dumps", false),
    (
        Reader::Reshard,
        "zanstore reshard --new-shards 64 --dir data --to=wider --store 7 --shards 2",
        true,
    ),
    (Reader::Call, "zanstore call 127.0.0.1:7700", true),
    (Reader::Call, "zanstore", false),
    (Reader::Call, "zanstore serve", false),
    (Reader::Call, "call", false),
    (Reader::Call, "zanstore serve call", false),
    (Reader::Call, "zanstore calls", false),
];

fn words_of(rt: &HostRuntime, line: &str) -> Result<Vec<String>, AllocError> {
    line.split(' ')
        .map(|word| String::from_str(rt.alloc(), word))
        .try_collect(rt.alloc())
}

// What the words ask for, or the status, as a text.
fn told(rt: &HostRuntime, reader: Reader, words: &[String]) -> Result<String, AllocError> {
    match reader {
        Reader::Serve => format!(in rt.alloc(); "{:?}", ServeSettings::read(rt, words)),
        Reader::Dump => format!(in rt.alloc(); "{:?}", DumpSettings::read(rt, words)),
        Reader::Reshard => format!(in rt.alloc(); "{:?}", ReshardSettings::read(rt, words)),
        Reader::Call => format!(in rt.alloc(); "{:?}", CallSettings::read(rt, words)),
    }
}

fn is_for(reader: Reader, words: &[String]) -> bool {
    match reader {
        Reader::Serve => ServeSettings::are_for(words),
        Reader::Dump => DumpSettings::are_for(words),
        Reader::Reshard => ReshardSettings::are_for(words),
        Reader::Call => CallSettings::are_for(words),
    }
}

// Whether the line of a row is told what follows it.
fn is_right(rt: &HostRuntime, reader: Reader, row: &str) -> Result<bool, AllocError> {
    let Some((line, wanted)) = row.split_once(" => ") else {
        return Ok(false);
    };
    let words = words_of(rt, line)?;
    let told = told(rt, reader, &words);
    drop(words);
    Ok(told?.as_str() == wanted)
}

// The first row of these lines that is told something else.
fn wrong_row<'a>(
    rt: &HostRuntime,
    reader: Reader,
    rows: &'a str,
) -> Result<Option<&'a str>, AllocError> {
    for row in rows.split('\n') {
        if !is_right(rt, reader, row)? {
            return Ok(Some(row));
        }
    }
    Ok(None)
}

#[test]
fn each_line_gets_its_settings_or_its_status(rt: HostRuntime) -> Result<(), Fail> {
    for (reader, rows) in [
        (Reader::Serve, SERVE),
        (Reader::Dump, DUMP),
        (Reader::Reshard, RESHARD),
        (Reader::Call, CALL),
    ] {
        assert_eq!(rt; wrong_row(&rt, reader, rows)?, None);
    }
    Ok(())
}

#[test]
fn each_line_is_for_its_command(rt: HostRuntime) -> Result<(), Fail> {
    for (reader, line, wanted) in NAMED {
        let words = words_of(&rt, line)?;
        assert_eq!(rt; is_for(*reader, &words), *wanted, "at {line}");
    }
    Ok(())
}
