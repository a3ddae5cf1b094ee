// What a failed device is found with.

/// What `revive` leaves after a failure that a script set.
#[derive(Clone, Copy, Debug, PartialEq, Eq)]
pub enum Tear {
    /// The content of the last sync.
    Old,
    /// With all writes since, the failing call's too.
    New,
    /// As `New`, with this byte throughout the ranges written since.
    Fill(u8),
}
