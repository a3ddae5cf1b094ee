// A connection to the server.
use crate::waiting::{TICK_MILLISECONDS, TOLD_SECONDS};
use std::io::{self, Eprint, ErrorKind};
use std::net::{Net, SocketAddr, TcpStream, ToSocketAddrs};
use std::time::Duration;

/// A connection to the address, which is waited for so many seconds at most. A read of it gives up after a tick, and a write after those seconds.
pub(crate) fn connect<R: Net<Stream = TcpStream>, E: Eprint>(
    net: &R,
    rt: &E,
    address: &str,
    timeout: Option<u64>,
) -> io::Result<TcpStream> {
    let stream = reach(net, rt, address, timeout)?;
    stream.set_read_timeout(Some(Duration::from_millis(TICK_MILLISECONDS)))?;
    if let Some(seconds) = timeout {
        stream.set_write_timeout(Some(Duration::from_secs(seconds)))?;
    }
    Ok(stream)
}

// Tries each address of the name in turn; the error is the last one's.
fn reach<R: Net<Stream = TcpStream>, E: Eprint>(
    net: &R,
    rt: &E,
    address: &str,
    timeout: Option<u64>,
) -> io::Result<TcpStream> {
    let mut last = io::Error::other("the name has no address");
    for one in address.to_socket_addrs(net)? {
        match reach_one(net, rt, address, one, timeout) {
            Ok(stream) => return Ok(stream),
            Err(error) => last = error,
        }
    }
    Err(last)
}

// Tries twice: whoever waits is told between.
fn reach_one<R: Net<Stream = TcpStream>, E: Eprint>(
    net: &R,
    rt: &E,
    address: &str,
    one: SocketAddr,
    timeout: Option<u64>,
) -> io::Result<TcpStream> {
    let first = timeout.unwrap_or(TOLD_SECONDS).min(TOLD_SECONDS);
    let reached = TcpStream::connect_timeout(net, &one, Duration::from_secs(first));
    if !is_late(&reached) || timeout == Some(first) {
        return reached;
    }
    // A text that can't be printed changes nothing.
    let _ = eprintln!(rt;
        "zanstore: call: {address}: no connection after {first} s, still waiting"
    );
    match timeout {
        Some(seconds) => {
            let rest = Duration::from_secs(seconds.saturating_sub(first));
            TcpStream::connect_timeout(net, &one, rest)
        }
        None => TcpStream::connect(net, one),
    }
}

fn is_late(reached: &io::Result<TcpStream>) -> bool {
    match reached {
        Ok(_) => false,
        Err(error) => error.kind() == ErrorKind::TimedOut,
    }
}
