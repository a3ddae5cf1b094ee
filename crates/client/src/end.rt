// Where a call ended, and why.
use crate::fault::Fault;
use crate::kind::Kind;
use crate::place::Place;
use std::fmt;

/// Where a call ended, and why.
#[derive(Drop)]
pub(crate) struct End {
    pub(crate) place: Place,
    pub(crate) fault: Fault,
    /// Whether a write was being asked for.
    is_of_write: bool,
}

impl End {
    /// The call ended while no request was being asked for.
    pub(crate) fn at(place: Place, fault: Fault) -> End {
        End {
            place,
            fault,
            is_of_write: false,
        }
    }

    /// The call ended while such a request was being asked for.
    pub(crate) fn while_asking(place: Place, kind: Kind, fault: Fault) -> End {
        End {
            place,
            fault,
            is_of_write: matches!(kind, Kind::Write),
        }
    }
}

impl fmt::Display for End {
    fn fmt<W: fmt::Write>(&self, f: &mut fmt::Formatter<W>) -> fmt::Result {
        let place = self.place;
        let fault = &self.fault;
        if self.is_of_write {
            write!(
                f,
                "{place}{fault}; it is unknown whether the write was made: read before you send it again"
            )
        } else {
            write!(f, "{place}{fault}")
        }
    }
}
