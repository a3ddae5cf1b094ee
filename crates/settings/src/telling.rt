// What a user is told whose words give no settings.
ghost use Rattle.std.specs.Prelude.{◌≡◌};
ghost use Rattle.clap.specs.Words.{kind_of};
ghost use Rattle.settings.specs.Status.{status_of};

use crate::limits::USAGE;
use clap::Error;
use std::io::{Eprint, Print};

/// The status that goes with the text.
pub(crate) fn tell<R: Print + Eprint>(rt: &R, error: &Error) -> u8
    ensures { result ≡ status_of (kind_of error.now) }
{
    // A text that can't be printed changes nothing of the status.
    let _ = error.print(rt);
    if error.use_stderr() { USAGE } else { 0 }
}
