// What is told of the threads of a server.

/// Is told of each thread of a server that it runs.
pub trait Begun {
    /// One more runs, the one that tells so.
    fn note(&self);
}
