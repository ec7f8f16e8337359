//! Finding files.

ghost use Rattle.std.specs.Prelude.{◌≡◌};
ghost use Rattle.nix_cli.specs.MessageLocations.{display_name};
ghost use Rattle.nix_cli.specs.Statuses.{first_status};

use crate::arguments::{Arguments, Command};
use crate::ending::FAILED;
use crate::file_replacement::replace_text;
use crate::folders::{Links, files_below};
use crate::ignores::bad_exclude;
use std::alloc::{AllocError, Global};
use std::collections::BTreeSet;
use std::io::Write;
use std::{fs, io};

/// The files that the arguments name.
#[derive(Drop)]
pub struct Files {
    /// Their names; `-` is standard input.
    pub names: Vec<String>,
    /// The number of folders that could not be read.
    pub failed: usize,
}

impl Files {
    /// Returns the exit status before any of the files is read.
    pub fn status(&self) -> u8
        ensures { result ≡ first_status self.now.failed }
    {
        if self.failed == 0 { 0 } else { FAILED }
    }
}

/// The files that the arguments name, for a command that buffers its output.
#[derive(Drop)]
pub struct Inputs {
    /// The files.
    pub files: Files,
    // Whether all of them were regular files when they were found.
    are_regular: bool,
}

// The kind of file that a name refers to.
#[derive(Clone, Copy, PartialEq, Eq)]
enum Kind {
    Folder,
    Regular,
    // Anything else, or unknown; reading it then fails.
    Other,
}

// Returns the kind of file that a name on the command line refers to.
fn kind_of(rt: &HostRuntime, name: &str) -> Kind {
    match fs::metadata(rt, name) {
        Ok(data) if data.is_dir() => Kind::Folder,
        Ok(data) if data.is_file() => Kind::Regular,
        Ok(_) | Err(_) => Kind::Other,
    }
}

// Writes messages to standard error.
fn report_each(rt: &HostRuntime, command: &Command, messages: &[String]) -> io::Result<()> {
    for message in messages {
        eprintln!(rt; "{}: {message}", command.name)?;
    }
    Ok(())
}

// Adds the files in a folder and the folders in it, and reports what is skipped there. A folder that cannot be read, or a `.gitignore` of which cannot, is
// reported and counted, and nothing in it is added.
fn add_folder(
    rt: &HostRuntime,
    command: &Command,
    folder: &str,
    excludes: &[String],
    links: Links,
    inputs: &mut Inputs,
) -> io::Result<()> {
    let below = match files_below(rt, folder, excludes, links) {
        Ok(below) => below,
        Err(error) => {
            inputs.files.failed = inputs.files.failed.saturating_add(1);
            return eprintln!(rt; "{}: {folder}: {error}", command.name);
        }
    };
    if !below.unread.is_empty() {
        inputs.files.failed = inputs.files.failed.saturating_add(1);
        return report_each(rt, command, &below.unread);
    }
    inputs.files.names.extend(below.names)?;
    inputs.are_regular = inputs.are_regular && below.are_regular;
    report_each(rt, command, &below.skipped)
}

/// Returns the files that a command replaces: those of [`find_inputs`], except that symbolic links in folders are skipped and reported.
pub fn find_files(rt: &HostRuntime, command: &Command, arguments: &Arguments) -> io::Result<Files> {
    Ok(inputs_of(rt, command, arguments, Links::Skipped)?.files)
}

/// Returns the files that the arguments name, for [`TextReader::read_text`]. `-` and no names mean standard input. A folder means the regular files in it, and
/// in the folders in it, whose names end with `.nix`, and symbolic links with such names to regular files or to nothing; anything else with such a name is
/// skipped and reported. What `.gitignore` files or `--exclude` name is left out. Any other name is a file. A file that is named again is left out. A folder
/// that cannot be read is reported and counted.
pub fn find_inputs(
    rt: &HostRuntime,
    command: &Command,
    arguments: &Arguments,
) -> io::Result<Inputs> {
    inputs_of(rt, command, arguments, Links::Read)
}

// Returns the names, each file only once: `./a.nix` and `a.nix` name the same file, and so does the folder around it.
fn each_once(alloc: Global, names: Vec<String>) -> Result<Vec<String>, AllocError> {
    let mut seen = BTreeSet::new(alloc);
    let mut once = Vec::new(alloc);
    for name in names {
        // Standard input is no file.
        let file = if name.as_str() == "-" {
            ""
        } else {
            name.as_str().trim_start_matches("./")
        };
        if seen.insert(String::from_str(alloc, file)?)? {
            once.push(name)?;
        }
    }
    Ok(once)
}

// Returns the files that the arguments name, each only once.
fn inputs_of(
    rt: &HostRuntime,
    command: &Command,
    arguments: &Arguments,
    links: Links,
) -> io::Result<Inputs> {
    let Inputs { files, are_regular } = all_inputs(rt, command, arguments, links)?;
    if arguments.words.len() < 2 {
        return Ok(Inputs { files, are_regular });
    }
    let failed = files.failed;
    let names = each_once(rt.alloc(), files.names)?;
    Ok(Inputs {
        files: Files { names, failed },
        are_regular,
    })
}

// Returns the files that the arguments name, some perhaps several times.
fn all_inputs(
    rt: &HostRuntime,
    command: &Command,
    arguments: &Arguments,
    links: Links,
) -> io::Result<Inputs> {
    let (names, excludes) = (&arguments.words, &arguments.excludes);
    let mut inputs = Inputs {
        files: Files {
            names: Vec::new(rt.alloc()),
            failed: 0,
        },
        are_regular: true,
    };
    if let Some(number) = bad_exclude(rt.alloc(), excludes)? {
        inputs.files.failed = 1;
        let value = excludes.get(number).map_or("", |value| value.as_str());
        eprintln!(rt; "{}: --exclude needs a pattern, not {value}", command.name)?;
        return Ok(inputs);
    }
    if names.is_empty() {
        let input = String::from_str(rt.alloc(), "-")?;
        inputs.files.names.push(input)?;
    }
    for name in names {
        let kind = kind_of(rt, name.as_str());
        if kind == Kind::Folder {
            add_folder(rt, command, name.as_str(), excludes, links, &mut inputs)?;
        } else {
            inputs.files.names.push(name.clone()?)?;
            inputs.are_regular = inputs.are_regular && kind == Kind::Regular;
        }
    }
    Ok(inputs)
}

/// Returns the name of a file in messages.
pub fn display_name(name: &str) -> &str
    ensures { result.now ≡ display_name name.now }
{
    if name == "-" { "<stdin>" } else { name }
}

/// Returns the line and the column at the end of a text, both from 1. Columns count characters.
pub(crate) fn end_location(text: &str) -> (usize, usize) {
    let line = text.bytes().filter(|byte| *byte == b'\n').count();
    let own = match text.rsplit_once('\n') {
        Some((_, own)) => own,
        None => text,
    };
    (
        line.saturating_add(1),
        own.chars().count().saturating_add(1),
    )
}

/// Returns the line and the column of a byte offset, both from 1. Columns count characters.
pub fn location_of(text: &str, offset: usize) -> (usize, usize) {
    end_location(text.get(..offset).unwrap_or(text))
}

impl Inputs {
    /// Returns whether reading one of the files may wait: it is standard input, or not a regular file. Returns false if this is unknown; reading then fails.
    pub(crate) fn may_block(&self, rt: &HostRuntime, name: &str) -> bool {
        if name == "-" || self.are_regular {
            return name == "-";
        }
        match fs::metadata(rt, name) {
            Ok(data) => !data.is_file(),
            Err(_) => false,
        }
    }
}

/// Writes a text to a file in place of the old one, or to standard output. Returns the exit status: 0, or [`FAILED`] after reporting why the file cannot be
/// replaced.
pub fn write_text(
    rt: &HostRuntime,
    command: &Command,
    name: &str,
    text: &str,
    in_place: bool,
) -> io::Result<u8> {
    if !in_place {
        rt.stdout().write_all(text.as_bytes())?;
        return Ok(0);
    }
    match replace_text(rt, name, text) {
        Ok(()) => Ok(0),
        Err(error) => {
            eprintln!(rt; "{}: {name}: {error}", command.name)?;
            Ok(FAILED)
        }
    }
}
