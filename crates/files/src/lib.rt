//! Devices over files. A life of a device reads only what it found when it was opened.
//!
//! Keeps: what a device reads is its content, whatever its file answers, since that is in memory; what it has written is known from its calls, since nothing is read after the first of them. So the clauses of `Device` hold of every one. A call that succeeds
//! has made its one call of the file, at that offset and with those bytes.
//! Never: reads after its first write, or is revived after it. The next life reads what was written: the file is closed, and opened again.
//! Callers rely on: one life at a time has a file, since it is locked while it is open.
//!
//! No clause says what a file keeps between two lives. A life that only looks at its file leaves it as it was, whatever the device was told to write. What has to be trusted: what the next life finds begins with one of the contents that a stop may leave.
//! More may follow, since a `HostFile` is stretched ahead of what is written: readers of a device have to ignore that.
//!
//! Start at `file_device.rt`, and then `host_file.rt`, the calls of the operating system. `cause.rt` has why a file is unavailable.
#![tactic(auto)]

mod cause;
mod file_device;
mod history;
mod host_file;
mod plain_file;
mod pulse;
mod raw_file;
mod size_limit;

pub use cause::{Cause, Unopened};
pub use file_device::FileDevice;
pub use host_file::{Access, HostFile, open, open_beside, sync_folder};
pub use pulse::Pulse;
pub use raw_file::{Broken, RawFile};
