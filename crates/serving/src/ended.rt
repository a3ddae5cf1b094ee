// How a server ended.
use connections::WorkerPass;
use std::io;
use std::net::TcpStream;

/// How a server ended that had begun to accept.
#[derive(Drop)]
pub struct Ended {
    /// The passes of all its workers and of its acceptor, gathered in one.
    pub pass: WorkerPass<TcpStream>,
    /// What kept it from accepting more: an error of the listener, or one that the report gave. Ok if so many connections came as were to.
    pub accepted: io::Result<()>,
}
