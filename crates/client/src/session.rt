// A connection to the server, and what is asked over it.
use crate::answer::Answered;
use crate::ask::ask_again;
use crate::connecting::connect;
use crate::end::End;
use crate::fault::Fault;
use crate::kind::RequestLine;
use crate::place::Place;
use crate::waiting::Waiting;
use settings::CallSettings;
use std::io::BufReader;
use std::net::{Net, TcpStream};

/// A connection, over which one request is asked after another.
#[derive(Drop)]
pub(crate) struct Session<'a> {
    input: BufReader<Waiting<'a, &'a TcpStream, HostRuntime>>,
    output: &'a TcpStream,
    retry: u64,
}

/// A connection to the server of the settings.
pub(crate) fn reach<R: Net<Stream = TcpStream>>(
    net: &R,
    rt: &HostRuntime,
    settings: &CallSettings,
) -> Result<TcpStream, End> {
    match connect(net, rt, settings.address.as_str(), settings.timeout) {
        Ok(stream) => Ok(stream),
        Err(error) => {
            let fault = Fault::of_connecting(error, settings.timeout);
            Err(End::at(Place::Words, fault))
        }
    }
}

pub(crate) fn session_over<'a>(
    rt: &'a HostRuntime,
    stream: &'a TcpStream,
    settings: &'a CallSettings,
) -> Result<Session<'a>, End> {
    let waiting = Waiting {
        input: stream,
        rt,
        address: settings.address.as_str(),
        timeout: settings.timeout,
        since: None,
        is_told: false,
    };
    match BufReader::new(rt.alloc(), waiting) {
        Ok(input) => Ok(Session {
            input,
            output: stream,
            retry: settings.retry,
        }),
        Err(_) => Err(End::at(Place::Words, Fault::NoMemory)),
    }
}

/// The answer to the request, which is sent again as the settings have it.
pub(crate) fn ask(
    rt: &HostRuntime,
    session: &mut Session<'_>,
    place: Place,
    request: &RequestLine,
) -> Result<Answered, End> {
    let asked = ask_again(
        rt,
        rt.alloc(),
        &mut session.input,
        &mut session.output,
        request,
        session.retry,
    );
    match asked {
        Ok(answered) => Ok(answered),
        Err(fault) => Err(End::while_asking(place, request.kind, fault)),
    }
}
