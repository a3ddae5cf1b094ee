// The numbers of standard input, output and error, if the caller left one of these closed.
use std::os::fd::{AsRawFd, IntoRawFd};
use std::{fs, io};

// The greatest of these numbers.
const LAST: i32 = 2;

/// Takes the numbers of those standard streams that are closed, to the end of the process: else the system gave one of them to a socket or to a file, and what
/// is written to that stream landed there. What they stand for is the root folder, which can be neither read nor written: so a use of a
/// closed stream fails, as it would without this.
pub(crate) fn hold(rt: &HostRuntime) -> io::Result<()> {
    for _ in 0..=LAST {
        let root = fs::open(rt, "/")?;
        if root.as_raw_fd() > LAST {
            break;
        }
        // The number alone is let go, and the descriptor stays open.
        let _number = root.into_raw_fd();
    }
    Ok(())
}
