// Work that may take long.
use server::Progress;
use std::rt::Runtime;
use std::sync::Wait;
use std::thread::{self, Threads};

/// Does the work, while another thread tells on standard error now and then that the folder is being worked on, and for how long. The status of the work.
pub(crate) fn timed<R, F: FnOnce() -> u8>(rt: &R, dir: &str, what: &str, work: F) -> u8
where
    R: Runtime + Threads + Wait + Sync,
    requires { F.IsAlwaysCallable work }
{
    let progress = Progress::new();
    let progress = &progress;
    thread::scope(
        thread::scope_env(),
        rt,
        move |scope| -> u8
            requires { F.IsAlwaysCallable work }
        {
            // If there is no thread for it, nobody is told.
            let _ = scope.spawn(move || progress.tell(rt, dir, what));
            let status = work();
            progress.end();
            status
        },
    )
}
