//! The files in a folder, and in the folders in it.

use crate::ignores::Ignores;
use std::alloc::{AllocError, Global};
use std::fs::FileType;
use std::{fs, io};

/// The symbolic links in folders that count as files.
#[derive(Clone, Copy, PartialEq, Eq)]
pub(crate) enum Links {
    /// Links to regular files, and links to nothing.
    Read,
    /// No links.
    Skipped,
}

// A folder that is still to be read.
#[derive(Drop)]
struct Folder {
    name: String,
    // The number of the rules on what is left out that apply to it.
    rules: Option<usize>,
}

/// The contents of a folder and the folders in it.
#[derive(Drop)]
pub(crate) struct Found {
    /// The files whose names end with `.nix`.
    pub names: Vec<String>,
    // The folders that are still to be read.
    folders: Vec<Folder>,
    // What is left out.
    ignores: Ignores,
    /// The `.gitignore` files that could not be read, each with the reason. Then it is not known which files are to be left out.
    pub unread: Vec<String>,
    /// The names ending with `.nix` that were skipped, each with the reason.
    pub skipped: Vec<String>,
    // Which symbolic links count as files.
    links: Links,
    /// Whether all of the files are regular.
    pub are_regular: bool,
}

// Returns the reason for skipping a file in a folder, if there is one. Reading anything but a regular file might wait forever.
fn reason_of(rt: &HostRuntime, name: &str, kind: FileType, links: Links) -> Option<&'static str> {
    if kind.is_file() {
        return None;
    }
    if kind.is_symlink() && links == Links::Skipped {
        return Some("a symbolic link");
    }
    match fs::metadata(rt, name) {
        Ok(data) if !data.is_file() => Some("not a regular file"),
        Ok(_) | Err(_) => None,
    }
}

// Adds a file in a folder, unless it is skipped.
fn add_file(
    rt: &HostRuntime,
    name: String,
    kind: FileType,
    found: &mut Found,
) -> Result<(), AllocError> {
    match reason_of(rt, name.as_str(), kind, found.links) {
        Some(reason) => {
            let message = format!(in rt.alloc(); "{name}: {reason}, passed over")?;
            found.skipped.push(message)?;
        }
        None => {
            found.names.push(name)?;
            found.are_regular = found.are_regular && kind.is_file();
        }
    }
    Ok(())
}

// Returns what precedes the names in a folder.
fn prefix_of(alloc: Global, folder: &str) -> Result<String, AllocError> {
    let slash = if folder.ends_with('/') { "" } else { "/" };
    format!(in alloc; "{folder}{slash}")
}

// Adds an entry of a folder to which rules apply, unless they leave it out. Links to folders are not followed.
fn add_entry(
    rt: &HostRuntime,
    name: String,
    kind: FileType,
    rules: Option<usize>,
    found: &mut Found,
) -> Result<(), AllocError> {
    let is_folder = kind.is_dir();
    let is_wanted = if is_folder {
        !name.ends_with("/.git")
    } else {
        name.ends_with(".nix")
    };
    let ignores = &found.ignores;
    if !is_wanted || ignores.leaves_out(rt.alloc(), rules, name.as_str(), is_folder)? {
        return Ok(());
    }
    if is_folder {
        found.folders.push(Folder { name, rules })?;
        return Ok(());
    }
    add_file(rt, name, kind, found)
}

// Adds the contents of a folder.
fn list(rt: &HostRuntime, folder: &Folder, found: &mut Found) -> io::Result<()> {
    let prefix = prefix_of(rt.alloc(), folder.name.as_str())?;
    let rules = found.ignores.enter(rt, prefix.as_str(), folder.rules)?;
    for entry in fs::read_dir(rt, folder.name.as_str())? {
        let entry = entry?;
        let name = String::from_str(rt.alloc(), entry.path().as_str())?;
        add_entry(rt, name, entry.file_type()?, rules, found)?;
    }
    Ok(())
}

// Returns a folder that is named, before anything is read in it.
fn start_at(
    rt: &HostRuntime,
    folder: &str,
    excludes: &[String],
    links: Links,
) -> Result<Found, AllocError> {
    let prefix = prefix_of(rt.alloc(), folder)?;
    let mut ignores = Ignores::new(rt.alloc(), excludes, prefix.as_str())?;
    let rules = match fs::canonicalize(rt, folder) {
        Ok(path) => ignores.enter_repository(rt, path.as_str(), prefix.as_str())?,
        Err(_) => None,
    };
    let mut folders = Vec::new(rt.alloc());
    folders.push(Folder {
        name: String::from_str(rt.alloc(), folder)?,
        rules,
    })?;
    Ok(Found {
        names: Vec::new(rt.alloc()),
        folders,
        ignores,
        unread: Vec::new(rt.alloc()),
        skipped: Vec::new(rt.alloc()),
        links,
        are_regular: true,
    })
}

/// Returns the contents of a folder and the folders in it, sorted.
pub(crate) fn files_below(
    rt: &HostRuntime,
    folder: &str,
    excludes: &[String],
    links: Links,
) -> io::Result<Found> {
    let mut found = start_at(rt, folder, excludes, links)?;
    for _folder in 0..u64::MAX {
        let Some(next) = found.folders.pop() else {
            break;
        };
        list(rt, &next, &mut found)?;
    }
    found.names.sort()?;
    found.unread = found.ignores.take_unread();
    found.skipped.sort()?;
    Ok(found)
}
