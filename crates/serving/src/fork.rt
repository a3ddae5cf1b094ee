// What gives each connection a session.
use sessions::Answers;

/// Gives each connection a session of its own.
pub trait Fork {
    /// What answers one connection, and no other.
    type Session: Answers + Drop;

    /// A session may begin as this.
    ghost begins: { Self.Session → Type 0 };

    /// One more session, whatever the ones before were asked.
    fn another(&mut self) -> Self::Session
        ensures { begins result };
}
