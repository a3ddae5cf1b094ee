// Opens what stands at a path as a plain file, or not at all.
use crate::{Access, Cause};
use std::fs::{self, OpenOptions};
use std::io::{self, ErrorKind};
use std::os::unix::fs::MetadataExt;

/// The file at the path, created if that is allowed. What stands there already is opened only if it is a plain file.
pub(crate) fn open_plain(rt: &HostRuntime, path: &str, access: Access) -> Result<fs::File, Cause> {
    if access == Access::Make {
        match fs::File::create_new(rt, path) {
            Err(error) if error.kind() == ErrorKind::AlreadyExists => {}
            made => return Ok(made?),
        }
    }
    see_plain(rt, path)?;
    let is_written = access != Access::Look;
    Ok(
        OpenOptions::new()
            .read(true)
            .write(is_written)
            .open(rt, path)?,
    )
}

// Looks whether a plain file stands at the path.
fn see_plain(rt: &HostRuntime, path: &str) -> Result<(), Cause> {
    let found = match fs::symlink_metadata(rt, path) {
        Err(error) if error.kind() == ErrorKind::NotFound => return Err(Cause::IsMissing),
        found => found?,
    };
    if found.file_type().is_symlink() {
        return Err(Cause::IsLink);
    }
    if !found.is_file() {
        return Err(Cause::IsNoFile);
    }
    Ok(())
}

/// Whether the file stands at the path.
pub(crate) fn is_at(rt: &HostRuntime, path: &str, file: &fs::File) -> io::Result<bool> {
    let (found, named) = (file.metadata()?, fs::symlink_metadata(rt, path)?);
    Ok(found.dev() == named.dev() && found.ino() == named.ino())
}
