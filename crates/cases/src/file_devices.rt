// Devices over files in memory and of the operating system, a life at a time.
use crate::disks::disk_of;
use crate::log_bytes::opened;
use device::{Device, Stopped};
use files::{Access, Broken, FileDevice, RawFile, Unopened, open};
use refusal::Refusal;
use std::alloc::Global;
use std::os::unix::fs::symlink;
use std::{fs, io};

const NAME: &str = "0.a";

// A file in memory with this length, of which the call with this number fails, and no other; all that it reads are sevens.
#[derive(Drop)]
struct Struck {
    len: usize,
    calls: u64,
    struck: u64,
}

impl Struck {
    fn call(&mut self) -> Result<(), Broken> {
        self.calls = self.calls.saturating_add(1);
        if self.calls == self.struck {
            Err(Broken)
        } else {
            Ok(())
        }
    }
}

impl RawFile for Struck {
    ghost refreshed = { λ old new. Unit {0} };

    ghost told = { λ old n new. Unit {0} };

    ghost has_read = { λ old at bytes new. Unit {0} };

    ghost wrote = { λ old at bytes new. Unit {0} };

    ghost synced = { λ old new. Unit {0} };

    ghost failed = { λ old new. Unit {0} };

    fn refresh(&mut self) -> Result<(), Broken> {
        self.call()
    }

    fn len(&mut self) -> Result<usize, Broken> {
        self.call()?;
        Ok(self.len)
    }

    fn read_at(&mut self, _at: usize, buf: &mut [u8]) -> Result<(), Broken> {
        buf.fill(7);
        self.call()
    }

    fn write_at(&mut self, _at: usize, _bytes: &[u8]) -> Result<(), Broken> {
        self.call()
    }

    fn sync(&mut self) -> Result<(), Broken> {
        self.call()
    }

    fn has_room(&self, _len: usize) -> bool {
        true
    }
}

// The eight bytes there; none if the file ends before them.
fn word_at<D: Device>(device: &mut D, at: usize) -> Result<Option<u64>, Stopped> {
    let len = device.len()?;
    if len < 8 || at > len - 8 {
        return Ok(None);
    }
    let mut buf = [0; 8];
    device.read_at(at, &mut buf)?;
    Ok(Some(u64::from_be_bytes(buf)))
}

// Whether these are its first bytes.
fn begins_with<D: Device>(device: &mut D, bytes: &[u8; 8]) -> bool {
    word_at(device, 0) == Ok(Some(u64::from_be_bytes(*bytes)))
}

// How many of these succeed: a read, a sync, a write and a sync after it.
fn done_by<D: Device>(device: &mut D) -> u64 {
    if !begins_with(device, &[7; 8]) {
        return 0;
    }
    if device.sync().is_err() {
        return 1;
    }
    if device.write_at(0, b"abcdefgh").is_err() {
        return 2;
    }
    if device.sync().is_err() { 3 } else { 4 }
}

// How much of a life over such a file succeeds, and whether it can be revived after that, and reads as before.
fn life_of(alloc: Global, struck: u64, len: usize) -> Result<(u64, bool), Refusal> {
    let file = Struck {
        len,
        calls: 0,
        struck,
    };
    let mut device = FileDevice::open(alloc, file)?;
    let done = done_by(&mut device);
    let is_revived = device.revive().is_ok() && begins_with(&mut device, &[7; 8]);
    Ok((done, is_revived))
}

// Which call fails, the length of the file, and what becomes of the life.
const LIVES: &[(u64, usize, Result<(u64, bool), Refusal>)] = &[
    (1, 8, Err(Refusal::Down)),
    (2, 8, Err(Refusal::Down)),
    (3, 8, Err(Refusal::Down)),
    (0, 1 << 62, Err(Refusal::NoMemory)),
    (4, 8, Ok((1, true))),
    (5, 8, Ok((2, false))),
    (6, 8, Ok((3, false))),
    (0, 8, Ok((4, false))),
];

#[test]
fn a_file_that_fails_behind_a_write_ends_the_life(rt: HostRuntime) {
    for &(struck, len, wanted) in LIVES {
        let life = life_of(rt.alloc(), struck, len);
        assert!(rt; life == wanted, "{struck} {len}");
    }
}

// Makes a folder afresh.
fn make_folder(rt: &HostRuntime, folder: &str) -> bool {
    let _ = fs::remove_dir_all(rt, folder);
    fs::create_dir(rt, folder).is_ok()
}

fn remove_folder(rt: &HostRuntime, folder: &str) -> bool {
    fs::remove_dir_all(rt, folder).is_ok()
}

// The next of a fixed sequence of numbers.
fn next(seed: u64) -> u64 {
    let seed = seed ^ (seed << 13);
    let seed = seed ^ (seed >> 7);
    seed ^ (seed << 17)
}

// All bytes of a device.
fn bytes_of<D: Device>(alloc: Global, device: &mut D) -> Result<Vec<u8>, Refusal> {
    let len = device.len().map_err(|_| Refusal::Down)?;
    let mut bytes = vec![in alloc; 0; len]?;
    device.read_at(0, &mut bytes).map_err(|_| Refusal::Down)?;
    Ok(bytes)
}

// Whether these are those bytes, and after them zeros up to a multiple of 64 KiB.
fn are_stretched(found: &[u8], written: &[u8]) -> bool {
    found.starts_with(written)
        && found.len() == written.len().next_multiple_of(65_536)
        && found.iter().skip(written.len()).all(|byte| *byte == 0)
}

// Whether a file has what the disk has, and zeros alone after it.
fn has_written<A: Device, B: Device>(alloc: Global, file: &mut A, disk: &mut B) -> bool {
    match (bytes_of(alloc, file), bytes_of(alloc, disk)) {
        (Ok(found), Ok(written)) => are_stretched(&found, &written),
        _ => false,
    }
}

// Writes there, durably.
fn write_synced<D: Device>(device: &mut D, at: usize, bytes: &[u8]) -> Result<(), Stopped> {
    let len = device.len()?;
    device.write_at(at.min(len), bytes)?;
    device.sync()
}

// Whether the file finds what the disk has. Then both have the same bytes written, inside of the disk or at its end.
fn has_life<A: Device, B: Device>(alloc: Global, file: &mut A, disk: &mut B, seed: u64) -> bool {
    if !has_written(alloc, file, disk) {
        return false;
    }
    let Ok(len) = disk.len() else {
        return false;
    };
    let at = ((seed >> 8) as usize % 256).min(len);
    let bytes = seed.to_be_bytes();
    write_synced(file, at, &bytes).is_ok() && write_synced(disk, at, &bytes).is_ok()
}

// A life of the file: whether it finds what the disk has.
fn lives_as<D: Device>(rt: &HostRuntime, folder: &str, disk: &mut D, seed: u64) -> bool {
    match open(rt, rt.alloc(), folder, NAME, Access::Make) {
        Ok(mut device) => has_life(rt.alloc(), &mut device, disk, seed),
        Err(_) => false,
    }
}

// Whether each of this many lives finds what the disk has.
fn live_as<D: Device>(rt: &HostRuntime, folder: &str, disk: &mut D, lives: u64) -> bool {
    let mut seed = 88_172_645_463_325_252;
    for _ in 0..lives {
        seed = next(seed);
        if !lives_as(rt, folder, disk, seed) {
            return false;
        }
    }
    true
}

// The same for a new disk.
fn live_as_disk(rt: &HostRuntime, folder: &str, lives: u64) -> bool {
    match disk_of(rt.alloc(), &[]) {
        Ok(mut disk) => live_as(rt, folder, &mut disk, lives),
        Err(_) => false,
    }
}

#[test]
fn each_life_finds_what_the_one_before_it_wrote(rt: HostRuntime) {
    const FOLDER: &str = "files_lives";
    assert!(rt; make_folder(&rt, FOLDER));
    assert!(rt; live_as_disk(&rt, FOLDER, 50));
    assert!(rt; remove_folder(&rt, FOLDER));
}

// How many bodies a log finds on a device. Then one more is appended.
fn found_by<D: Device>(alloc: Global, device: D) -> Result<usize, Refusal> {
    let (mut log, found) = opened(alloc, device)?;
    let appended = log.append(&mut [7; 45]);
    drop(log);
    match appended {
        Ok(()) => Ok(found),
        Err(refusal) => Err(refusal),
    }
}

// The same for the file.
fn found_in(rt: &HostRuntime, folder: &str) -> Result<usize, Refusal> {
    let device = open(rt, rt.alloc(), folder, NAME, Access::Make)?;
    found_by(rt.alloc(), device)
}

#[test]
fn a_log_is_found_by_the_next_life_of_its_file(rt: HostRuntime) {
    const FOLDER: &str = "files_log";
    assert!(rt; make_folder(&rt, FOLDER));
    for bodies in 0..4 {
        assert!(rt; found_in(&rt, FOLDER) == Ok(bodies), "{bodies}");
    }
    assert!(rt; remove_folder(&rt, FOLDER));
}

// Whether the file is refused to another life.
fn is_taken(rt: &HostRuntime, folder: &str) -> bool {
    matches!(
        open(rt, rt.alloc(), folder, NAME, Access::Make),
        Err(Unopened {
            refusal: Refusal::Down,
            ..
        })
    )
}

// Whether its file is refused to another life while this one goes on.
fn keeps_others_out<D: Device>(
    rt: &HostRuntime,
    folder: &str,
    device: &mut D,
) -> Result<bool, Stopped> {
    write_synced(device, 0, b"abcdefgh")?;
    let is_taken = is_taken(rt, folder);
    device.write_at(0, b"ABCD")?;
    device.sync()?;
    Ok(is_taken)
}

fn is_kept(rt: &HostRuntime, folder: &str) -> bool {
    match open(rt, rt.alloc(), folder, NAME, Access::Make) {
        Ok(mut device) => keeps_others_out(rt, folder, &mut device) == Ok(true),
        Err(_) => false,
    }
}

fn is_found(rt: &HostRuntime, folder: &str) -> bool {
    match open(rt, rt.alloc(), folder, NAME, Access::Make) {
        Ok(mut device) => begins_with(&mut device, b"ABCDefgh"),
        Err(_) => false,
    }
}

#[test]
fn a_file_has_one_life_at_a_time(rt: HostRuntime) {
    const FOLDER: &str = "files_locked";
    assert!(rt; make_folder(&rt, FOLDER));
    assert!(rt; is_kept(&rt, FOLDER));
    assert!(rt; is_found(&rt, FOLDER));
    assert!(rt; remove_folder(&rt, FOLDER));
}

// A file of this length.
fn make_file(rt: &HostRuntime, path: &str, len: u64) -> bool {
    match fs::File::create(rt, path) {
        Ok(file) => file.set_len(len).is_ok(),
        Err(_) => false,
    }
}

// In that folder a file, one that is too long, and a link.
fn make_files(rt: &HostRuntime) -> bool {
    make_file(rt, "files_refused/long", (1 << 40) + 1)
        && make_file(rt, "files_refused/file", 0)
        && symlink(rt, "file", "files_refused/link").is_ok()
}

fn opens(rt: &HostRuntime, folder: &str, name: &str) -> bool {
    open(rt, rt.alloc(), folder, name, Access::Make).is_ok()
}

const OPENED: &[(&str, &str, bool)] = &[
    ("files_refused", "file", true),
    ("files_refused", "long", false),
    ("files_refused", "link", false),
    ("/dev", "full", false),
    ("/", "dev", false),
    ("/no_such_folder", "0.a", false),
];

#[test]
fn what_is_no_file_is_down(rt: HostRuntime) {
    const FOLDER: &str = "files_refused";
    assert!(rt; make_folder(&rt, FOLDER) && make_files(&rt));
    for &(folder, name, wanted) in OPENED {
        assert!(rt; opens(&rt, folder, name) == wanted, "{folder}/{name}");
    }
    assert!(rt; remove_folder(&rt, FOLDER));
}
