// How long the system lets a file of this process get.
use libc::getrlimit;
use libc::types::rlimit;

// What is asked for, by its number on Linux.
const RLIMIT_FSIZE: i32 = 1;

/// Up to how many bytes a file may be written: a write past them would end the process by a signal (`SIGXFSZ`). If there is no limit, or none is
/// known, it is the greatest number, which no file of a device reaches.
pub(crate) fn size_limit() -> u64 {
    let mut limit = rlimit {
        rlim_cur: 0,
        rlim_max: 0,
    };
    if getrlimit(RLIMIT_FSIZE, &mut limit) != 0 {
        return u64::MAX;
    }
    limit.rlim_cur
}
