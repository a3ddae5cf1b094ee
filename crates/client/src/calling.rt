// Requests, one after another.
use crate::answer::Answered;
use crate::end::End;
use crate::fault::Fault;
use crate::following::{Watch, follow, follow_anew};
use crate::kind::{Kind, RequestLine};
use crate::line::request_line;
use crate::mistake::Mistake;
use crate::place::Place;
use crate::question::{Question, question_of};
use crate::session::{Session, ask, reach, session_over};
use crate::showing::{show, tell_refusal};
use crate::status::{UNTOLD, check_status};
use crate::token::show_place;
use crate::words::split_words;
use settings::CallSettings;
use std::net::{Net, TcpStream};

const FAILED: u8 = 1;

// The status of a command line that can't be carried out.
const USAGE: u8 = 2;

/// Sends the request of the settings, or each line of standard input, to the server. The status: 0 if each was answered and none refused, 2 if an option
/// stands before a request that it is not for, and else 1, once standard error is told of each refusal and what to do about it, of each line that is no request,
/// or why the call ended. With `--status` it is 0 if a check was told a member, 1 if it was told none, and else 2.
pub fn call<R: Net<Stream = TcpStream>>(net: &R, rt: &HostRuntime, settings: &CallSettings) -> u8 {
    match call_server(net, rt, settings) {
        Ok(status) => status,
        Err(end) => tell_end(rt, settings, &end),
    }
}

// The status that goes with the end.
fn tell_end(rt: &HostRuntime, settings: &CallSettings, end: &End) -> u8 {
    // A text that can't be printed changes nothing of the status.
    let _ = if end.fault.is_of_connecting() {
        let address = settings.address.as_str();
        eprintln!(rt; "zanstore: call: {address}: {end}")
    } else {
        eprintln!(rt; "zanstore: call: {end}")
    };
    if end.fault.is_of_usage() {
        USAGE
    } else if settings.status {
        UNTOLD
    } else {
        FAILED
    }
}

fn call_server<R: Net<Stream = TcpStream>>(
    net: &R,
    rt: &HostRuntime,
    settings: &CallSettings,
) -> Result<u8, End> {
    if settings.reconnect && !(settings.follow && settings.request.is_some()) {
        return Err(End::at(Place::Words, Fault::Reconnect));
    }
    if settings.status {
        return call_for_status(net, rt, settings);
    }
    let is_well = match &settings.request {
        Some(text) => call_once(net, rt, settings, text.as_str())?,
        None => call_lines(net, rt, settings)?,
    };
    Ok(if is_well { 0 } else { FAILED })
}

// Asks one check, whose answer is the status.
fn call_for_status<R: Net<Stream = TcpStream>>(
    net: &R,
    rt: &HostRuntime,
    settings: &CallSettings,
) -> Result<u8, End> {
    let Some(text) = &settings.request else {
        return Err(End::at(Place::Words, Fault::Status));
    };
    let Some(request) = request_at(rt, Place::Words, text.as_str())? else {
        return Ok(UNTOLD);
    };
    if settings.follow || !matches!(request.kind, Kind::Check) {
        return Err(End::at(Place::Words, Fault::Status));
    }
    let stream = reach(net, rt, settings)?;
    let mut session = session_over(rt, &stream, settings)?;
    let answered = ask(rt, &mut session, Place::Words, &request)?;
    if let Some(refusal) = answered.refusal {
        tell_refusal(rt, Place::Words, &request, refusal);
    }
    Ok(check_status(&answered))
}

// Asks the one request of the command line, which is read before a connection is made.
fn call_once<R: Net<Stream = TcpStream>>(
    net: &R,
    rt: &HostRuntime,
    settings: &CallSettings,
    text: &str,
) -> Result<bool, End> {
    let words = words_at(rt, Place::Words, text)?;
    match question_of(&words) {
        Ok(None) => call_request(net, rt, settings, text),
        Ok(Some(_)) if settings.follow => Err(End::at(Place::Words, Fault::Follow)),
        Ok(Some(question)) => answer(rt, Place::Words, question),
        Err(mistake) => {
            tell_mistake(rt, Place::Words, text, mistake);
            Ok(false)
        }
    }
}

fn call_request<R: Net<Stream = TcpStream>>(
    net: &R,
    rt: &HostRuntime,
    settings: &CallSettings,
    text: &str,
) -> Result<bool, End> {
    let Some(request) = request_at(rt, Place::Words, text)? else {
        return Ok(false);
    };
    if settings.follow {
        return call_watch(net, rt, settings, request);
    }
    let stream = reach(net, rt, settings)?;
    let mut session = session_over(rt, &stream, settings)?;
    take_request(rt, &mut session, Place::Words, &request)
}

fn call_watch<R: Net<Stream = TcpStream>>(
    net: &R,
    rt: &HostRuntime,
    settings: &CallSettings,
    request: RequestLine,
) -> Result<bool, End> {
    if !matches!(request.kind, Kind::Watch) {
        return Err(End::at(Place::Words, Fault::Follow));
    }
    let mut watch = Watch::new(request);
    follow_anew(net, rt, settings, &mut watch)
}

// Each line of standard input but for empty ones and notes.
fn call_lines<R: Net<Stream = TcpStream>>(
    net: &R,
    rt: &HostRuntime,
    settings: &CallSettings,
) -> Result<bool, End> {
    let stream = reach(net, rt, settings)?;
    let mut session = session_over(rt, &stream, settings)?;
    let mut is_well = true;
    let mut number = 0u64;
    for line in rt.lines(rt.alloc()) {
        number = number.saturating_add(1);
        let place = Place::Line(number);
        let line = match line {
            Ok(line) => line,
            Err(error) => return Err(End::at(place, Fault::Input(error))),
        };
        if !line.is_empty() && !line.starts_with(';') {
            let is_answered = take(rt, &mut session, settings, place, line.as_str())?;
            is_well = is_well && is_answered;
        }
    }
    Ok(is_well)
}

// One line. Whether it was answered, and not refused.
fn take(
    rt: &HostRuntime,
    session: &mut Session<'_>,
    settings: &CallSettings,
    place: Place,
    text: &str,
) -> Result<bool, End> {
    let words = words_at(rt, place, text)?;
    match question_of(&words) {
        Ok(None) => take_text(rt, session, settings, place, text),
        Ok(Some(question)) => answer(rt, place, question),
        Err(mistake) => {
            tell_mistake(rt, place, text, mistake);
            Ok(false)
        }
    }
}

// Answers what no server is asked.
fn answer(rt: &HostRuntime, place: Place, question: Question<'_>) -> Result<bool, End> {
    match question {
        Question::Place(token) => show_place(rt, place, token),
    }
}

fn take_text(
    rt: &HostRuntime,
    session: &mut Session<'_>,
    settings: &CallSettings,
    place: Place,
    text: &str,
) -> Result<bool, End> {
    let Some(request) = request_at(rt, place, text)? else {
        return Ok(false);
    };
    if settings.follow && matches!(request.kind, Kind::Watch) {
        let mut watch = Watch::new(request);
        return follow(rt, session, place, &mut watch);
    }
    take_request(rt, session, place, &request)
}

fn words_at<'a>(rt: &HostRuntime, place: Place, text: &'a str) -> Result<Vec<&'a str>, End> {
    match split_words(rt.alloc(), text) {
        Ok(words) => Ok(words),
        Err(_) => Err(End::at(place, Fault::NoMemory)),
    }
}

// The request of the text. None once it is told that the text is none.
fn request_at(rt: &HostRuntime, place: Place, text: &str) -> Result<Option<RequestLine>, End> {
    let line = match request_line(rt.alloc(), text) {
        Ok(line) => line,
        Err(Mistake::NoMemory) => return Err(End::at(place, Fault::NoMemory)),
        Err(mistake) => {
            tell_mistake(rt, place, text, mistake);
            return Ok(None);
        }
    };
    match RequestLine::new(rt.alloc(), line) {
        Ok(request) => Ok(Some(request)),
        Err(_) => Err(End::at(place, Fault::NoMemory)),
    }
}

fn tell_mistake(rt: &HostRuntime, place: Place, text: &str, mistake: Mistake) {
    let first = text.split(' ').next().unwrap_or("");
    let _ = match mistake {
        Mistake::Verb => eprintln!(rt;
            "zanstore: call: {place}unknown request {first:?}: {mistake}"
        ),
        _ => eprintln!(rt; "zanstore: call: {place}{mistake}"),
    };
}

fn take_request(
    rt: &HostRuntime,
    session: &mut Session<'_>,
    place: Place,
    request: &RequestLine,
) -> Result<bool, End> {
    let Answered { line, refusal, .. } = ask(rt, session, place, request)?;
    show(rt, place, request, line.as_str(), refusal)
}
