// Why words are no request.
ghost use Rattle.std.specs.Prelude.{◌≡◌};
ghost use Rattle.client.specs.declared.mistake.Mistake.TheVariants.{NoMemory};

use std::alloc::AllocError;
use thiserror::Error;

/// Why a line is no request, and what it may be.
#[derive(Clone, Copy, Debug, PartialEq, Eq, Error)]
pub enum Mistake {
    #[error("expected write, read, check, watch or a JSON object")]
    Verb,
    #[error("write +TUPLE | -TUPLE .. [if ?TUPLE | !TUPLE | TUPLE=TOKEN ..]")]
    Write,
    #[error("read [latest | at-least TOKEN | exact TOKEN] TUPLESET..")]
    Read,
    #[error("check [latest | at-least TOKEN | exact TOKEN] TUPLE")]
    Check,
    #[error("watch TOKEN LIMIT NAMESPACE.., with a limit from 1 to 256")]
    Watch,
    #[error("place TOKEN")]
    Place,
    #[error("a request is one line")]
    LineFeed,
    #[error("no memory")]
    NoMemory,
}

impl From<AllocError> for Mistake {
    ghost from_gives = { λ _ m. m ≡ NoMemory };

    fn from(_error: AllocError) -> Mistake {
        Mistake::NoMemory
    }
}
