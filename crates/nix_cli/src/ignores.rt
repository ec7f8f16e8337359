//! Which files in folders are left out: those that `.gitignore` files name, and those that `--exclude` names.

use crate::globs::Glob;
use std::alloc::{AllocError, Global};
use std::{fs, io};

// A line of a `.gitignore`.
#[derive(Drop)]
struct Rule {
    glob: Glob,
    // Whether it is about names in every folder, and not about paths.
    is_of_names: bool,
    // Whether it begins with `!`: what it matches is not left out.
    is_exception: bool,
    // Whether it ends with `/`: it matches folders alone.
    is_of_folders: bool,
}

// The lines that apply in a folder and below it.
#[derive(Drop)]
struct Rules {
    rules: Vec<Rule>,
    // What precedes the name of a file, as it is found, to make it a path from the folder of these lines: so many bytes of the name are replaced by this text.
    replaced: usize,
    above: String,
    // The number of those of the folders above, which decide where these do not.
    outer: Option<usize>,
}

/// The lines that say which files in a folder and below it are left out.
#[derive(Drop)]
pub struct Ignores {
    // The lines of `--exclude`, which decide first.
    given: Option<Rules>,
    // Those of the `.gitignore` files.
    sets: Vec<Rules>,
    // The `.gitignore` files that could not be read, each with the reason.
    unread: Vec<String>,
}

// The mark with which some editors begin a file.
const BYTE_ORDER_MARK: &[u8] = b"\xef\xbb\xbf";

// Returns a line without the spaces at its end, but for one that a backslash quotes.
fn trimmed(line: &[u8]) -> &[u8] {
    let line = line.strip_suffix(b"\r").unwrap_or(line);
    let mut kept = 0;
    let mut is_quoted = false;
    for (at, byte) in line.iter().enumerate() {
        if is_quoted || *byte != b' ' {
            kept = at.saturating_add(1);
        }
        is_quoted = !is_quoted && *byte == b'\\';
    }
    line.get(..kept).unwrap_or(line)
}

// Returns the rule of a line, or None if it is blank or a comment.
fn rule_of(alloc: Global, line: &[u8]) -> Result<Option<Rule>, AllocError> {
    let text = trimmed(line);
    if text.is_empty() || text.starts_with(b"#") {
        return Ok(None);
    }
    let (is_exception, text) = match text.strip_prefix(b"!") {
        Some(rest) => (true, rest),
        None => (false, text),
    };
    let (is_of_folders, text) = match text.strip_suffix(b"/") {
        Some(rest) => (true, rest),
        None => (false, text),
    };
    let is_of_names = !text.contains(&b'/');
    let text = text.strip_prefix(b"/").unwrap_or(text);
    let glob = Glob::new(alloc, text, is_of_names)?;
    Ok(Some(Rule {
        glob,
        is_of_names,
        is_exception,
        is_of_folders,
    }))
}

// Returns the rule of a value of `--exclude`, or None if it is no pattern. `./` at its beginning means `/`.
fn rule_of_value(alloc: Global, value: &str) -> Result<Option<Rule>, AllocError> {
    let line = if value.starts_with("./") {
        value.strip_prefix(".").unwrap_or(value)
    } else {
        value
    };
    match rule_of(alloc, line.as_bytes())? {
        Some(rule) if !rule.glob.is_broken() => Ok(Some(rule)),
        _ => Ok(None),
    }
}

/// Returns the number of the first value of `--exclude` that is no pattern.
pub fn bad_exclude(alloc: Global, excludes: &[String]) -> Result<Option<usize>, AllocError> {
    for (number, value) in excludes.iter().enumerate() {
        if rule_of_value(alloc, value.as_str())?.is_none() {
            return Ok(Some(number));
        }
    }
    Ok(None)
}

// Returns the last part of a path.
fn name_of(path: &str) -> &str {
    match path.rsplit_once('/') {
        Some((_folders, name)) => name,
        None => path,
    }
}

impl Rule {
    // Returns whether the rule matches a path from its folder.
    fn matches(&self, alloc: Global, path: &str, is_folder: bool) -> Result<bool, AllocError> {
        if self.is_of_folders && !is_folder {
            return Ok(false);
        }
        let subject = if self.is_of_names {
            name_of(path)
        } else {
            path
        };
        self.glob.matches(alloc, subject)
    }
}

impl Rules {
    // Returns whether a file is left out, by the last rule that matches it, if one does.
    fn verdict(
        &self,
        alloc: Global,
        name: &str,
        is_folder: bool,
    ) -> Result<Option<bool>, AllocError> {
        let mut path = self.above.clone()?;
        path.push_str(name.get(self.replaced..).unwrap_or(name))?;
        for rule in self.rules.iter().rev() {
            if rule.matches(alloc, path.as_str(), is_folder)? {
                return Ok(Some(!rule.is_exception));
            }
        }
        Ok(None)
    }
}

// Returns the rules of some lines.
fn rules_of(alloc: Global, lines: &[u8]) -> Result<Vec<Rule>, AllocError> {
    let mut rules = Vec::new(alloc);
    let lines = lines.strip_prefix(BYTE_ORDER_MARK).unwrap_or(lines);
    for line in lines.split(|byte| *byte == b'\n') {
        if let Some(rule) = rule_of(alloc, line)? {
            rules.push(rule)?;
        }
    }
    Ok(rules)
}

// Returns the lines of a `.gitignore`, or None if there is none. Like git, this does not follow a link; reading anything but a file might wait forever.
fn lines_of(rt: &HostRuntime, file: &str) -> io::Result<Option<Vec<u8>>> {
    match fs::symlink_metadata(rt, file) {
        Ok(data) if data.is_file() => fs::read(rt, file).map(Some),
        Ok(_) => Ok(None),
        Err(error) if error.kind() == io::ErrorKind::NotFound => Ok(None),
        Err(error) => Err(error),
    }
}

// Returns the length of the path of the repository that a folder is in: the innermost folder around it, or itself, in which there is a `.git`.
fn repository_of(rt: &HostRuntime, folder: &str) -> Result<Option<usize>, AllocError> {
    let mut path = folder;
    for _folder in 0..folder.len() {
        let git = format!(in rt.alloc(); "{path}/.git")?;
        if fs::exists(rt, git.as_str()).unwrap_or(false) {
            return Ok(Some(path.len()));
        }
        match path.rsplit_once('/') {
            Some((outer, _name)) => path = outer,
            None => break,
        }
    }
    Ok(None)
}

impl Ignores {
    /// Returns what is left out of a folder, before anything in it is read: what `excludes` name, each a line of a `.gitignore` in it. `prefix` is what
    /// precedes the names in the folder.
    pub fn new(alloc: Global, excludes: &[String], prefix: &str) -> Result<Ignores, AllocError> {
        let mut rules = Vec::new(alloc);
        for value in excludes {
            if let Some(rule) = rule_of_value(alloc, value.as_str())? {
                rules.push(rule)?;
            }
        }
        Ok(Ignores {
            given: Some(Rules {
                rules,
                replaced: prefix.len(),
                above: String::new(alloc),
                outer: None,
            }),
            sets: Vec::new(alloc),
            unread: Vec::new(alloc),
        })
    }

    // Adds the lines of a `.gitignore`, if there is one, and returns the number of its rules, or `outer` if it has none.
    fn add_file(
        &mut self,
        rt: &HostRuntime,
        file: &str,
        replaced: usize,
        above: String,
        outer: Option<usize>,
    ) -> Result<Option<usize>, AllocError> {
        let lines = match lines_of(rt, file) {
            Ok(Some(lines)) => lines,
            Ok(None) => return Ok(outer),
            Err(error) => {
                let message = format!(in rt.alloc(); "{file}: {error}")?;
                self.unread.push(message)?;
                return Ok(outer);
            }
        };
        let rules = rules_of(rt.alloc(), &lines)?;
        if rules.is_empty() {
            return Ok(outer);
        }
        let number = self.sets.len();
        self.sets.push(Rules {
            rules,
            replaced,
            above,
            outer,
        })?;
        Ok(Some(number))
    }

    /// Adds the lines of the `.gitignore` files in the folders around one, up to the top of its repository, and returns the number of the rules that apply to
    /// it. `folder` is its absolute path, and `prefix` what precedes the names in it.
    pub fn enter_repository(
        &mut self,
        rt: &HostRuntime,
        folder: &str,
        prefix: &str,
    ) -> Result<Option<usize>, AllocError> {
        let mut rules = None;
        let Some(top) = repository_of(rt, folder)? else {
            return Ok(rules);
        };
        for at in top..folder.len() {
            let inside = folder.get(at..).and_then(|rest| rest.strip_prefix("/"));
            if let (Some(outer), Some(inside)) = (folder.get(..at), inside) {
                let file = format!(in rt.alloc(); "{outer}/.gitignore")?;
                let above = format!(in rt.alloc(); "{inside}/")?;
                rules = self.add_file(rt, file.as_str(), prefix.len(), above, rules)?;
            }
        }
        Ok(rules)
    }

    /// Adds the lines of the `.gitignore` of a folder, if it has one, and returns the number of the rules that apply in it. `prefix` is what precedes the names
    /// in it.
    pub fn enter(
        &mut self,
        rt: &HostRuntime,
        prefix: &str,
        outer: Option<usize>,
    ) -> Result<Option<usize>, AllocError> {
        let file = format!(in rt.alloc(); "{prefix}.gitignore")?;
        let above = String::new(rt.alloc());
        self.add_file(rt, file.as_str(), prefix.len(), above, outer)
    }

    /// Returns the `.gitignore` files that could not be read, each with the reason, and forgets them.
    pub fn take_unread(&mut self) -> Vec<String> {
        let alloc = *self.unread.allocator();
        std::mem::replace(&mut self.unread, Vec::new(alloc))
    }

    /// Returns whether a file or a folder is left out, by `--exclude`, the rules with a number, or those around them. The first that have a matching line
    /// decide.
    pub fn leaves_out(
        &self,
        alloc: Global,
        innermost: Option<usize>,
        name: &str,
        is_folder: bool,
    ) -> Result<bool, AllocError> {
        let mut next = innermost;
        let mut rules = self.given.as_ref();
        for _set in 0..=self.sets.len() {
            let Some(own) = rules else {
                break;
            };
            if let Some(verdict) = own.verdict(alloc, name, is_folder)? {
                return Ok(verdict);
            }
            rules = next.and_then(|number| self.sets.get(number));
            next = rules.and_then(|found| found.outer);
        }
        Ok(false)
    }
}
