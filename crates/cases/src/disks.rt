// Disks in memory that have given bytes, and bytes with a change.
use device::{Device, SimDisk};
use std::alloc::{AllocError, Global};

/// A disk of these bytes.
pub(crate) fn disk_of(alloc: Global, content: &[u8]) -> Result<SimDisk, AllocError> {
    SimDisk::new(alloc, content.to_vec(alloc)?)
}

/// Whether a device has these bytes, and no others.
pub(crate) fn has_bytes<D: Device>(alloc: Global, device: &mut D, bytes: &[u8]) -> bool {
    if device.len() != Ok(bytes.len()) {
        return false;
    }
    match vec![in alloc; 0; bytes.len()] {
        Ok(mut found) => device.read_at(0, &mut found).is_ok() && found.as_slice() == bytes,
        Err(_) => false,
    }
}

/// The bytes with one of them changed, and this many at the end left out.
pub(crate) fn changed(
    alloc: Global,
    bytes: &[u8],
    place: usize,
    byte: u8,
    left_out: usize,
) -> Result<Vec<u8>, AllocError> {
    let mut content = bytes.to_vec(alloc)?;
    if let Some(old) = content.get_mut(place) {
        *old = byte;
    }
    content.truncate(bytes.len().saturating_sub(left_out));
    Ok(content)
}
