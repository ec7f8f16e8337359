//! Replacing the text of a file.

use std::fs;
use std::fs::{File, Permissions};
use std::io::{self, ErrorKind, Write};

// Writes a text to a new file and sets its permissions.
fn write_new(file: &mut File, text: &str, rights: Permissions) -> io::Result<()> {
    file.write_all(text.as_bytes())?;
    file.set_permissions(rights)?;
    file.sync_all()
}

// Returns the name of a symbolic link's target, or the same name for any other file.
fn target_of(rt: &HostRuntime, name: &str) -> io::Result<String> {
    if !fs::symlink_metadata(rt, name)?.is_symlink() {
        return Ok(String::from_str(rt.alloc(), name)?);
    }
    let target = fs::canonicalize(rt, name)?;
    Ok(String::from_str(rt.alloc(), target.as_path().as_str())?)
}

/// Returns the permissions of a file that [`replace_text`] can replace: a regular file, or a symbolic link to one.
///
/// # Errors
///
/// The system's error, or `InvalidInput` if the file is not a regular one.
pub fn replaceable(rt: &HostRuntime, name: &str) -> io::Result<Permissions> {
    let data = fs::metadata(rt, name)?;
    if data.is_file() {
        Ok(data.permissions())
    } else {
        Err(io::Error::new(
            ErrorKind::InvalidInput,
            "not a regular file, so it cannot be replaced",
        ))
    }
}

/// Replaces the text of a regular file: writes it to a new file `NAME.new` with the same permissions, and then renames that file. If this fails, the
/// file is unchanged. If `NAME.new` exists, it is left alone, and an error is returned. A symbolic link stays as it is, and its target is replaced.
pub fn replace_text(rt: &HostRuntime, name: &str, text: &str) -> io::Result<()> {
    let target = target_of(rt, name)?;
    let rights = replaceable(rt, target.as_str())?;
    let beside = format!(in rt.alloc(); "{target}.new")?;
    let mut file = File::create_new(rt, beside.as_str())?;
    let written = write_new(&mut file, text, rights);
    let outcome = written.and_then(|_done| fs::rename(rt, beside.as_str(), target.as_str()));
    if outcome.is_err() {
        fs::remove_file(rt, beside.as_str())?;
    }
    outcome
}
