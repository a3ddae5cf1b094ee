// What a server tells of itself while it serves.
use std::io;

/// Is told what keeps a server from serving, by the thread that accepts connections.
pub trait Report {
    /// All of so many workers are taken, and so many connections wait, one of them for a second at least. It is told each second while it lasts.
    fn crowded(&mut self, workers: usize, waiting: u64);

    /// No connection could be taken, for this reason. It is tried again, and told each time.
    fn refused(&mut self, error: &io::Error);

    /// A second has passed since the last time, or less. An error ends the server: each session ends after the request that it answers.
    fn tick(&mut self) -> io::Result<()>;
}
