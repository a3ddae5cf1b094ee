// Files of the operating system. Each method makes the calls that it stands for; a write that lengthens a file makes one more, of zeros after it.
ghost use Rattle.std.specs.Prelude.{◌≡◌, ◌≤◌, ◌+◌, ◌⊎◌, IfErr, IfOk};
ghost use Rattle.device.specs.Disk.{IsFresh};
ghost use Rattle.files.specs.Life.{image, life_state};

use crate::plain_file::{is_at, open_plain};
use crate::size_limit::size_limit;
use crate::{Broken, Cause, FileDevice, Pulse, RawFile, Unopened};
use refusal::Refusal;
use std::alloc::{AllocError, Global};
use std::fs::{self, TryLockError};
use std::io::{self, ErrorKind};
use std::os::fd::AsRawFd;
use std::os::unix::fs::FileExt;
use std::sync::Arc;

/// The most bytes of a device.
const MAX_LEN: u64 = 1 << 40;

// A file is lengthened up to a multiple of this many bytes.
const STRETCH: usize = 65_536;

const ZEROS: &[u8] = &[0; STRETCH];

// If the room that was taken is not enough, this many bytes of it are given back at once.
const SOON: usize = 1 << 20;

// How often a write that finds no room is tried while another file asks for some.
const TRIES: u32 = 3;

/// What is done with the file of a device.
#[derive(Clone, Copy, Debug, PartialEq, Eq)]
pub enum Access {
    /// It is read and written, and created if it is missing.
    Make,
    /// It is read and written.
    Write,
    /// It is read, as others may do at the same time. What is written to its device is discarded.
    Look,
}

/// A file that is open under one descriptor, and locked for as long.
///
/// It may be longer than what was written to it: a write past its end stretches it, by at most 64 KiB of zeros. Until these are overwritten, a sync has bytes
/// to make durable and no length, which takes a file system about a quarter less.
///
/// A write past the limit that the process had on the size of its files (`RLIMIT_FSIZE`) when the file was opened is refused as on a full disk, and not made.
#[derive(Drop)]
pub struct HostFile {
    file: fs::File,
    access: Access,
    // at least how many bytes it has
    len: usize,
    // how many it may have
    limit: u64,
    // shows its writes and syncs
    pulse: Arc<Pulse, Global>,
    // shared by all files of the store: one of them is asking for room
    asking: Arc<Pulse, Global>,
}

impl HostFile {
    /// The file at the path, locked: no other process, and no other `HostFile` of this one, has it open at the same time; files that are only looked at
    /// share the lock. An existing file is not changed. Making the name of a new one durable is left to the caller (`sync_folder`). While any file with
    /// the same `asking` asks for room, a write that finds none waits, and is retried.
    pub fn open(
        rt: &HostRuntime,
        path: &str,
        access: Access,
        asking: Arc<Pulse, Global>,
    ) -> Result<HostFile, Cause> {
        let file = open_plain(rt, path, access)?;
        let locked = match access {
            Access::Look => file.try_lock_shared(),
            _ => file.try_lock(),
        };
        match locked {
            Ok(()) => {}
            Err(TryLockError::WouldBlock) => return Err(Cause::InUse),
            Err(TryLockError::Error(error)) => return Err(Cause::System(error)),
        }
        // The name may have been given to another file since it was looked at.
        if !is_at(rt, path, &file)? {
            return Err(Cause::IsReplaced);
        }
        let len = len_of(&file)?;
        match Arc::new(rt.alloc(), Pulse::new()) {
            Ok(pulse) => Ok(HostFile {
                file,
                access,
                len,
                limit: size_limit(),
                pulse,
                asking,
            }),
            Err(_) => Err(Cause::NoMemory),
        }
    }

    /// What other threads see of its writes and syncs.
    pub(crate) fn pulse(&self) -> Result<Arc<Pulse, Global>, AllocError> {
        Arc::try_clone(&self.pulse)
    }

    // Stretches the file if what was written up to there lengthened it, but not past its limit. It only helps: if there is no room for it, as on a full disk,
    // the next write lengthens the file by itself. Nothing is added behind the first gate of a device until more is written: before that a stop may leave any
    // byte there, and an open gate with zeros behind it would be damage.
    fn stretch(&mut self, end: usize) {
        if end <= self.len || end <= 1 || end as u64 >= MAX_LEN {
            return;
        }
        self.len = end;
        let room = room_behind(end, self.limit);
        if self.file.write_all_at(&ZEROS[..room], end as u64).is_ok() {
            self.len = end + room;
        }
    }

    // Lengthens the file to this many bytes, with zeros after what is there. If the disk has no room for them all, it gets back those that it gave; until then
    // it is full, and no other file can grow.
    fn take_room(&self, there: usize, len: usize) -> io::Result<()> {
        // Nothing is added behind a first gate that a stop may still leave open.
        if there <= 1 {
            self.file.sync_data()?;
        }
        self.pulse.begin();
        self.asking.begin();
        let taken = self.write_zeros(there, len);
        if taken.is_err() {
            self.give_back(there);
        }
        self.asking.end();
        self.pulse.end();
        taken
    }

    // Shortens the file to this many bytes, its old length: a little at once, since the more is given back the longer it takes. Zeros that can't be cut off
    // count for nothing.
    fn give_back(&self, there: usize) {
        if let Ok(len) = len_of(&self.file) {
            let soon = len.saturating_sub(SOON).max(there);
            let _ = self.file.set_len(soon as u64);
        }
        let _ = self.file.set_len(there as u64);
    }

    // Whether all of the bytes were written. A disk that is asked for more room than it has is full until it has that back: a write that finds none then is
    // retried.
    fn write_all(&self, at: usize, bytes: &[u8]) -> bool {
        for _ in 0..TRIES {
            let ended = self.asking.ended();
            let Err(error) = self.file.write_all_at(bytes, at as u64) else {
                return true;
            };
            if !is_of_room(error.kind()) || !self.asking.was_under_way(ended) {
                return false;
            }
        }
        false
    }

    fn write_zeros(&self, there: usize, len: usize) -> io::Result<()> {
        let mut at = there;
        while at < len {
            let more = STRETCH.min(len - at);
            self.file.write_all_at(&ZEROS[..more], at as u64)?;
            at += more;
        }
        Ok(())
    }
}

impl From<io::Error> for Broken {
    fn from(_error: io::Error) -> Broken {
        Broken
    }
}

impl From<Cause> for Broken {
    fn from(_cause: Cause) -> Broken {
        Broken
    }
}

impl RawFile for HostFile {
    // No clause says what the system's files keep.
    ghost refreshed = { λ old new. Unit {0} };

    ghost told = { λ old n new. Unit {0} };

    ghost has_read = { λ old at bytes new. Unit {0} };

    ghost wrote = { λ old at bytes new. Unit {0} };

    ghost synced = { λ old new. Unit {0} };

    ghost failed = { λ old new. Unit {0} };

    fn refresh(&mut self) -> Result<(), Broken> {
        match self.file.sync_all() {
            // A file system that can't be written to may not support sync.
            Err(error) if self.access == Access::Look && is_of_reader(error.kind()) => {}
            synced => synced?,
        }
        // Only advice, which returns an error's number.
        if libc::posix_fadvise(self.file.as_raw_fd(), 0, 0, libc::POSIX_FADV_DONTNEED) != 0 {
            return Err(Broken);
        }
        Ok(())
    }

    fn len(&mut self) -> Result<usize, Broken> {
        Ok(len_of(&self.file)?)
    }

    fn read_at(&mut self, at: usize, buf: &mut [u8]) -> Result<(), Broken> {
        Ok(self.file.read_exact_at(buf, at as u64)?)
    }

    fn write_at(&mut self, at: usize, bytes: &[u8]) -> Result<(), Broken> {
        if self.access == Access::Look {
            return Ok(());
        }
        let end = at.saturating_add(bytes.len());
        // The system would end the process.
        if end as u64 > self.limit {
            return Err(Broken);
        }
        self.pulse.begin();
        let is_written = self.write_all(at, bytes);
        if is_written {
            self.stretch(end);
        }
        self.pulse.end();
        if is_written { Ok(()) } else { Err(Broken) }
    }

    fn sync(&mut self) -> Result<(), Broken> {
        if self.access == Access::Look {
            return Ok(());
        }
        self.pulse.begin();
        let synced = self.file.sync_data();
        self.pulse.end();
        Ok(synced?)
    }

    fn has_room(&self, len: usize) -> bool {
        // A file that is only looked at takes no room.
        if self.access == Access::Look {
            return true;
        }
        // The system would end the process.
        if len as u64 > self.limit {
            return false;
        }
        match len_of(&self.file) {
            Ok(there) => there >= len || self.take_room(there, len).is_ok(),
            Err(_) => false,
        }
    }
}

/// A life of the device over the file of this name in the folder: opened and locked as `HostFile::open` says, refreshed, and read whole.
/// What it reads is durable.
///
/// `Down` if another process or device has the file, if it can't be opened, made or read, is a link or not a file, or is too long;
/// `NoMemory` for the path and the bytes of the file. An existing file is not changed.
pub fn open(
    rt: &HostRuntime,
    alloc: Global,
    folder: &str,
    name: &str,
    access: Access,
) -> Result<FileDevice<HostFile>, Unopened>
    ensures fresh { IfOk result (λ d. IsFresh (image d.history.events).seen (life_state d.history.events d.is_stopped d.failures)) }
    ensures err { IfErr result (λ e. (e.refusal ≡ Refusal.Down) ⊎ (e.refusal ≡ Refusal.NoMemory)) }
{
    match Arc::new(alloc, Pulse::new()) {
        Ok(asking) => open_beside(rt, alloc, folder, name, access, &asking),
        Err(_) => Err(Unopened {
            refusal: Refusal::NoMemory,
            path: String::new(alloc),
            cause: Cause::NoMemory,
        }),
    }
}

/// The same, beside other files of the store with the same `asking`: while one of them asks for room, a write of another that finds none waits.
pub fn open_beside(
    rt: &HostRuntime,
    alloc: Global,
    folder: &str,
    name: &str,
    access: Access,
    asking: &Arc<Pulse, Global>,
) -> Result<FileDevice<HostFile>, Unopened>
    ensures fresh { IfOk result (λ d. IsFresh (image d.history.events).seen (life_state d.history.events d.is_stopped d.failures)) }
    ensures err { IfErr result (λ e. (e.refusal ≡ Refusal.Down) ⊎ (e.refusal ≡ Refusal.NoMemory)) }
{
    let Ok(path) = format!(in alloc; "{folder}/{name}") else {
        return Err(Unopened {
            refusal: Refusal::NoMemory,
            path: String::new(alloc),
            cause: Cause::NoMemory,
        });
    };
    match open_device(rt, alloc, path.as_str(), access, asking) {
        Ok(device) => Ok(device),
        Err((refusal, cause)) => Err(Unopened {
            refusal,
            path,
            cause,
        }),
    }
}

fn open_device(
    rt: &HostRuntime,
    alloc: Global,
    path: &str,
    access: Access,
    asking: &Arc<Pulse, Global>,
) -> Result<FileDevice<HostFile>, (Refusal, Cause)>
    ensures fresh { IfOk result (λ d. IsFresh (image d.history.events).seen (life_state d.history.events d.is_stopped d.failures)) }
    ensures err { IfErr result (λ e. (e.0 ≡ Refusal.Down) ⊎ (e.0 ≡ Refusal.NoMemory)) }
{
    let Ok(asking) = Arc::try_clone(asking) else {
        return Err((Refusal::NoMemory, Cause::NoMemory));
    };
    match HostFile::open(rt, path, access, asking) {
        Ok(file) => match FileDevice::open(alloc, file) {
            Ok(device) => Ok(device),
            Err(refusal) => Err((refusal, Cause::IsUnread)),
        },
        Err(Cause::NoMemory) => Err((Refusal::NoMemory, Cause::NoMemory)),
        Err(cause) => Err((Refusal::Down, cause)),
    }
}

// How many zeros stretch a file that was written up to there: to the next multiple, or as far as its limit allows.
fn room_behind(end: usize, limit: u64) -> usize
    ensures stretch { result ≤ STRETCH }
    ensures limit { end ≤ limit → end + result ≤ limit }
{
    let room = STRETCH - end % STRETCH;
    limit.saturating_sub(end as u64).min(room as u64) as usize
}

// Whether a write fails like this if there is no room for it.
fn is_of_room(kind: ErrorKind) -> bool {
    matches!(kind, ErrorKind::StorageFull | ErrorKind::QuotaExceeded)
}

// Whether a sync may fail like this if nothing can be written.
fn is_of_reader(kind: ErrorKind) -> bool {
    matches!(
        kind,
        ErrorKind::InvalidInput | ErrorKind::ReadOnlyFilesystem
    )
}

/// Makes the names of what was created in the folder durable.
pub fn sync_folder(rt: &HostRuntime, folder: &str) -> io::Result<()> {
    fs::open(rt, folder)?.sync_all()
}

fn len_of(file: &fs::File) -> Result<usize, Cause> {
    let len = file.metadata()?.len();
    if len > MAX_LEN {
        return Err(Cause::IsTooLong);
    }
    Ok(len as usize)
}

impl FileDevice<HostFile> {
    /// What other threads see of the writes and syncs of its file.
    pub fn pulse(&self) -> Result<Arc<Pulse, Global>, AllocError> {
        self.file().pulse()
    }
}
