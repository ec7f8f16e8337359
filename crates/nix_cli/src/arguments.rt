//! Parsing of the command line.

ghost use Rattle.std.specs.Prelude.{◌≡◌, map, option_map, bytes_eq, IfOk, OnOk, string_bytes};
ghost use Rattle.std.specs.List.{list_any};
ghost use Rattle.nix_cli.specs.CommandLine.{runs, nothing, is_option, color_in, exclude_in, with_color, with_exclude, with_value, with_flag_in};
ghost use Rattle.nix_cli.specs.CommandLine.{with_valued, with_option, with_argument, and_argument, parse_from};
ghost use Rattle.nix_cli.specs.Given.{options_of, task_of, awaited_of, parsed_of};

use crate::ending::{FAILED, refuse};
use std::alloc::{AllocError, Global};
use std::env;
use std::io::{self, Write};

/// The version that `--version` prints for every command.
pub const VERSION: &str = "1.0.0";
// The options that every command has, as `--help` prints them, and the one of those that take arguments.
const COMMON: &str = "    --help     print this
    --version  print the version
";

const END_OF_OPTIONS: &str = "    --         end of the options: all that follows is taken as names
";

/// A command's name, its help and its options.
#[derive(Clone, Copy)]
pub struct Command {
    /// The name in messages, as it is called: `rnix check`.
    pub name: &'static str,
    /// What may follow the name, in the words of the help: one line for each form.
    pub usage: &'static [&'static str],
    /// The part of the help between these lines and the options that every command has.
    pub help: &'static str,
    /// The part of the help after these options.
    pub statuses: &'static str,
    /// The options without a value.
    pub flags: &'static [&'static str],
    /// Whether the command has the option `--color WHEN`.
    pub has_colors: bool,
    /// Whether the command has the option `--exclude GLOB`, which may be given several times.
    pub has_excludes: bool,
    /// The smallest number of arguments besides options.
    pub min_words: usize,
    /// The largest number of arguments besides options.
    pub max_words: usize,
}

// The task that a command line asks for.
#[derive(Drop)]
enum Task {
    Run,
    Help,
    Version,
    // A refusal: the reason, and the argument that is refused.
    Refuse(&'static str, String),
}

// The option whose value is the next argument.
#[derive(Clone, Copy, PartialEq, Eq)]
enum Awaited {
    None,
    Color,
    Exclude,
}

/// A parsed command line.
#[derive(Drop)]
pub struct Arguments {
    task: Task,
    flags: Vec<String>,
    /// The arguments that are not options.
    pub words: Vec<String>,
    /// The value of `--color`, if given.
    pub color: Option<String>,
    /// The values of `--exclude`.
    pub excludes: Vec<String>,
    // Whether `--` ended the options, and the option whose value is the next argument.
    only_words: bool,
    awaited: Awaited,
}

/// What a command does once its command line is parsed.
#[derive(Drop)]
pub enum Start {
    /// Run with these arguments.
    Run(Arguments),
    /// End with this outcome: the help or the version was printed, or the command line was refused.
    End(io::Result<u8>),
}

// Returns whether a list contains a text.
fn is_among(texts: &[&'static str], text: &str) -> bool
    ensures { result ≡ list_any (λ own. bytes_eq own text.now) (map (λ own. own.now) texts.now) }
{
    for own in texts {
        if *own == text {
            return true;
        }
    }
    false
}

// Returns whether an argument is an option. `-` alone is a name.
fn is_option(text: &str) -> bool
    ensures { result ≡ is_option text.now }
{
    text.len() > 1 && text.starts_with('-')
}

// Returns the value in `--color=VALUE`, if the command has this option.
fn color_in<'a>(command: &Command, option: &'a str) -> Option<&'a str>
    ensures { option_map (λ when. when.now) result ≡ color_in (options_of command.now) option.now }
{
    if !command.has_colors {
        return None;
    }
    option.strip_prefix("--color=")
}

// Returns the value in `--exclude=VALUE`, if the command has this option.
fn exclude_in<'a>(command: &Command, option: &'a str) -> Option<&'a str>
    ensures { option_map (λ glob. glob.now) result ≡ exclude_in (options_of command.now) option.now }
{
    if !command.has_excludes {
        return None;
    }
    option.strip_prefix("--exclude=")
}

impl Arguments {
    // Returns the command line without arguments.
    fn new(alloc: Global) -> Arguments
        ensures { parsed_of result ≡ nothing }
    {
        Arguments {
            task: Task::Run,
            flags: Vec::new(alloc),
            words: Vec::new(alloc),
            color: None,
            excludes: Vec::new(alloc),
            only_words: false,
            awaited: Awaited::None,
        }
    }

    /// Returns whether an option is given.
    pub fn has(&self, flag: &str) -> bool
        ensures { result ≡ list_any (λ own. bytes_eq own flag.now) (map string_bytes self.now.flags.items) }
    {
        for own in &self.flags {
            if own.as_str() == flag {
                return true;
            }
        }
        false
    }

    // Sets the value of `--color`, or refuses one that is unknown.
    fn set_color(&mut self, when: String)
        ensures { parsed_of self.new ≡ with_color (string_bytes when) (parsed_of self.old) }
    {
        self.awaited = Awaited::None;
        let text = when.as_str();
        if text == "auto" || text == "always" || text == "never" {
            self.color = Some(when);
        } else {
            self.task = Task::Refuse("--color is auto, always or never, not", when);
        }
    }

    // Adds a value of `--exclude`.
    fn add_exclude(&mut self, glob: String) -> Result<(), AllocError>
        ensures { OnOk result (parsed_of self.new ≡ with_exclude (string_bytes glob) (parsed_of self.old)) }
    {
        self.awaited = Awaited::None;
        self.excludes.push(glob)?;
        Ok(())
    }

    // Reads the value of the option that awaits one.
    fn add_value(&mut self, value: String) -> Result<(), AllocError>
        ensures { OnOk result (parsed_of self.new ≡ with_value (awaited_of self.old.awaited) (string_bytes value) (parsed_of self.old)) }
    {
        match self.awaited {
            Awaited::Exclude => self.add_exclude(value),
            Awaited::Color => {
                self.set_color(value);
                Ok(())
            }
            Awaited::None => Ok(()),
        }
    }

    // Reads an option.
    fn add_option(&mut self, command: &Command, option: String) -> Result<(), AllocError>
        ensures { OnOk result (parsed_of self.new ≡ with_option (options_of command.now) (string_bytes option) (parsed_of self.old)) }
    {
        let text = option.as_str();
        if text == "--help" || text == "-h" {
            self.task = Task::Help;
            return Ok(());
        }
        if text == "--version" {
            self.task = Task::Version;
            return Ok(());
        }
        if command.has_colors && text == "--color" {
            self.awaited = Awaited::Color;
            return Ok(());
        }
        if command.has_excludes && text == "--exclude" {
            self.awaited = Awaited::Exclude;
            return Ok(());
        }
        self.add_valued(command, option)
    }

    // Reads an option with a value after `=`, or another one.
    fn add_valued(&mut self, command: &Command, option: String) -> Result<(), AllocError>
        ensures { OnOk result (parsed_of self.new ≡ with_valued (options_of command.now) (string_bytes option) (parsed_of self.old)) }
    {
        let text = option.as_str();
        if let Some(when) = color_in(command, text) {
            let when = String::from_str(*self.words.allocator(), when)?;
            self.set_color(when);
            return Ok(());
        }
        if let Some(glob) = exclude_in(command, text) {
            let glob = String::from_str(*self.words.allocator(), glob)?;
            return self.add_exclude(glob);
        }
        self.add_flag(command, option)
    }

    // Adds one of the command's options, or refuses one that is unknown.
    fn add_flag(&mut self, command: &Command, option: String) -> Result<(), AllocError>
        ensures { OnOk result (parsed_of self.new ≡ with_flag_in (options_of command.now) (string_bytes option) (parsed_of self.old)) }
    {
        if is_among(command.flags, option.as_str()) {
            self.flags.push(option)?;
            return Ok(());
        }
        self.task = Task::Refuse("unknown option", option);
        Ok(())
    }

    // Reads the next argument while the task is to run.
    fn add_argument(&mut self, command: &Command, argument: String) -> Result<(), AllocError>
        ensures { OnOk result (parsed_of self.new ≡ with_argument (options_of command.now) (string_bytes argument) (parsed_of self.old)) }
    {
        if self.awaited != Awaited::None {
            return self.add_value(argument);
        }
        if is_option(argument.as_str()) && !self.only_words {
            if argument.as_str() == "--" {
                self.only_words = true;
                return Ok(());
            }
            return self.add_option(command, argument);
        }
        if self.words.len() < command.max_words {
            self.words.push(argument)?;
            return Ok(());
        }
        self.task = Task::Refuse("unexpected argument", argument);
        Ok(())
    }

    // Returns whether the task is to run, with all the words that the command needs.
    fn may_run(&self, command: &Command) -> bool {
        match self.task {
            Task::Run => self.awaited == Awaited::None && self.words.len() >= command.min_words,
            Task::Help | Task::Version | Task::Refuse(..) => false,
        }
    }

    // Reads the next argument, or ignores it once the task is another one.
    fn add(&mut self, command: &Command, argument: String) -> Result<(), AllocError>
        ensures { OnOk result (parsed_of self.new ≡ and_argument (options_of command.now) (string_bytes argument) (parsed_of self.old)) }
    {
        match self.task {
            Task::Run => self.add_argument(command, argument),
            Task::Help | Task::Version | Task::Refuse(..) => Ok(()),
        }
    }
}

/// Parses the arguments of a command.
pub fn parse_arguments(
    alloc: Global,
    command: &Command,
    arguments: &[String],
) -> Result<Arguments, AllocError>
    ensures { IfOk result (λ given. parsed_of given ≡ parse_from (options_of command.now) nothing (map string_bytes arguments.now)) }
{
    let mut given = Arguments::new(alloc);
    for argument in arguments {
        given.add(command, argument.clone()?)?;
    }
    Ok(given)
}

// Prints the help.
fn help(rt: &HostRuntime, command: &Command) -> io::Result<()> {
    let mut out = rt.stdout();
    for form in command.usage {
        writeln!(out, "{} {form}", command.name)?;
    }
    out.write_all(command.help.as_bytes())?;
    out.write_all(COMMON.as_bytes())?;
    if command.max_words > 0 {
        out.write_all(END_OF_OPTIONS.as_bytes())?;
    }
    out.write_all(command.statuses.as_bytes())
}

// Prints the command's name and version.
fn version(rt: &HostRuntime, command: &Command) -> io::Result<()> {
    writeln!(rt.stdout(), "{} {VERSION}", command.name)
}

// Reports why the command line is refused.
fn refuse_arguments(rt: &HostRuntime, command: &Command, given: &Arguments) -> io::Result<()> {
    match &given.task {
        Task::Refuse(reason, argument) => { eprintln!(rt; "{}: {reason} {argument}", command.name) }
        _ => {
            let reason = match given.awaited {
                Awaited::Color => "--color needs a value",
                Awaited::Exclude => "--exclude needs a value",
                Awaited::None => "missing argument",
            };
            refuse(rt, command, reason)
        }
    }
}

// Ends a command that is not to run: prints the help or the version, or reports what is wrong. Returns the status.
fn answer(rt: &HostRuntime, command: &Command, given: &Arguments) -> io::Result<u8> {
    match given.task {
        Task::Help => help(rt, command).map(|()| 0),
        Task::Version => version(rt, command).map(|()| 0),
        Task::Run | Task::Refuse(..) => {
            refuse_arguments(rt, command, given)?;
            eprintln!(rt; "see {} --help", command.name)?;
            Ok(FAILED)
        }
    }
}

/// Returns the arguments of the process, without the name that it was called by.
pub fn process_arguments(rt: &HostRuntime) -> io::Result<Vec<String>> {
    let mut arguments = Vec::new(rt.alloc());
    for argument in env::args(rt)?.skip(1) {
        arguments.push(argument)?;
    }
    Ok(arguments)
}

/// Parses the arguments of a command. Prints the help or the version, or reports on standard error what is wrong.
pub fn read_arguments(rt: &HostRuntime, command: &Command, arguments: &[String]) -> Start {
    match parse_arguments(rt.alloc(), command, arguments) {
        Ok(given) if given.may_run(command) => Start::Run(given),
        Ok(given) => Start::End(answer(rt, command, &given)),
        Err(error) => Start::End(Err(io::Error::from(error))),
    }
}
