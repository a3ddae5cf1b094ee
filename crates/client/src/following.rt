// A watch that goes on from each heartbeat.
use crate::answer::{Answered, watch_on};
use crate::ask::pause;
use crate::end::End;
use crate::fault::Fault;
use crate::kind::RequestLine;
use crate::place::Place;
use crate::session::{Session, ask, reach, session_over};
use crate::showing::show;
use settings::CallSettings;
use std::net::{Net, TcpStream};
use std::thread;
use std::time::Duration;

// How long a watch waits if nothing was new.
const QUIET_MILLISECONDS: u64 = 250;

/// A watch that goes on from each heartbeat.
#[derive(Drop)]
pub(crate) struct Watch {
    pub(crate) request: RequestLine,
    /// The last heartbeat; none before the first answer.
    pub(crate) heartbeat: Option<String>,
    /// How often a connection was tried anew since the last answer; none before the first connection.
    pub(crate) tries: Option<u64>,
}

impl Watch {
    pub(crate) fn new(request: RequestLine) -> Watch {
        Watch {
            request,
            heartbeat: None,
            tries: None,
        }
    }
}

/// Goes on from each heartbeat, until the watch is refused or the connection ends, or with `--reconnect` until it is refused.
pub(crate) fn follow_anew<R: Net<Stream = TcpStream>>(
    net: &R,
    rt: &HostRuntime,
    settings: &CallSettings,
    watch: &mut Watch,
) -> Result<bool, End> {
    for _ in 0..u64::MAX {
        let ended = follow_over_one(net, rt, settings, watch);
        let Err(end) = &ended else {
            return ended;
        };
        let Some(tries) = watch.tries else {
            return ended;
        };
        if !settings.reconnect || !end.fault.is_of_a_connection() {
            return ended;
        }
        if tries == 0 {
            // A text that can't be printed changes nothing.
            let _ = eprintln!(rt; "zanstore: call: {end}; connecting again");
        }
        pause(rt, tries);
        watch.tries = Some(tries.saturating_add(1));
    }
    Ok(true)
}

fn follow_over_one<R: Net<Stream = TcpStream>>(
    net: &R,
    rt: &HostRuntime,
    settings: &CallSettings,
    watch: &mut Watch,
) -> Result<bool, End> {
    let stream = reach(net, rt, settings)?;
    if watch.tries.is_none() {
        watch.tries = Some(0);
    }
    let mut session = session_over(rt, &stream, settings)?;
    follow(rt, &mut session, Place::Words, watch)
}

/// Goes on from each heartbeat, until the watch is refused.
pub(crate) fn follow(
    rt: &HostRuntime,
    session: &mut Session<'_>,
    place: Place,
    watch: &mut Watch,
) -> Result<bool, End> {
    for _ in 0..u64::MAX {
        if !follow_once(rt, session, place, watch)? {
            return Ok(false);
        }
    }
    Ok(true)
}

// Whether it goes on. An answer is printed if its heartbeat has moved.
fn follow_once(
    rt: &HostRuntime,
    session: &mut Session<'_>,
    place: Place,
    watch: &mut Watch,
) -> Result<bool, End> {
    go_on(rt, place, watch)?;
    let Answered {
        line,
        refusal,
        heartbeat,
        ..
    } = ask(rt, session, place, &watch.request)?;
    if has_moved(&heartbeat, &watch.heartbeat) {
        show(rt, place, &watch.request, line.as_str(), refusal)?;
    } else {
        thread::sleep(rt, Duration::from_millis(QUIET_MILLISECONDS));
    }
    let is_more = heartbeat.is_some();
    watch.heartbeat = heartbeat;
    watch.tries = Some(0);
    Ok(is_more)
}

// Has the watch ask from its last heartbeat.
fn go_on(rt: &HostRuntime, place: Place, watch: &mut Watch) -> Result<(), End> {
    let Some(heartbeat) = &watch.heartbeat else {
        return Ok(());
    };
    match watch_on(rt.alloc(), watch.request.line.as_str(), heartbeat.as_str()) {
        Ok(line) => match RequestLine::new(rt.alloc(), line) {
            Ok(next) => {
                watch.request = next;
                Ok(())
            }
            Err(_) => Err(End::at(place, Fault::NoMemory)),
        },
        Err(error) => Err(End::at(place, error.into())),
    }
}

// Whether an answer with this heartbeat has something new after the last one.
fn has_moved(later: &Option<String>, last: &Option<String>) -> bool {
    match (later, last) {
        (Some(later), Some(last)) => later.as_str() != last.as_str(),
        _ => true,
    }
}
