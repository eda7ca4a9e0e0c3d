// The form of a command, what its words are found to be, and the parse between them.
ghost use Rattle.std.specs.Prelude.{◌≡◌, ◌||◌, false, Some, None, IfOk, IfSome, IfNone, drop, option_map};
ghost use Rattle.std.specs.List.{list_any};
ghost use Rattle.clap.specs.Words.{app_of, found_of, rows_of, rule_of};
ghost use Rattle.command_words.specs.Arguments.{Arguments, arguments_in, asked_of, in_list, texts, is_flag as is_a_flag};
ghost use Rattle.command_words.specs.Parser.{AreRowsOf, app_for, file_rule, plain_app, steps_rule, strip_rule, with_plain_values, with_wanted};

use clap::error::ErrorKind;
use clap::{Arg, ArgAction, ArgMatches, Command};
use std::alloc::{AllocError, Global};

/// What stands behind a command's name beside its first file.
#[derive(Clone, Copy)]
pub struct Form {
    /// A second file.
    pub out: bool,
    /// `--strip`, at most once.
    pub strip: bool,
    /// `--steps N` or `--steps=N`, at most once.
    pub steps: bool,
    /// `--layout L` or `--layout=L`, at most once.
    pub layout: bool,
}

/// What the words behind a command's name are.
#[derive(Clone, Copy)]
pub struct Found<'a> {
    pub file: &'a str,
    pub out: Option<&'a str>,
    pub strip: bool,
    pub steps: Option<&'a str>,
    pub layout: Option<&'a str>,
}

/// Reads the words of a command, of which the first is its name, by the form that it has: the files in the order in which they stand, and flags at any place behind the name.
/// Behind `--` all words stand for files; before it every other word that begins with `-` and is longer is refused, as a value of a flag too.
/// `None` where the words are no command of this form; `Err` only for want of memory. Linear in the words.
pub fn read_arguments<'a>(
    alloc: Global,
    words: &'a [String],
    form: Form,
) -> Result<Option<Found<'a>>, AllocError>
    ensures found { IfOk result (λ r. IfSome r (λ found. arguments_in form (drop 1 (texts words.now)) ≡ Some (asked_of found))) }
    ensures none { IfOk result (λ r. IfNone r (arguments_in form (drop 1 (texts words.now)) ≡ None)) }
{
    let command = command_of(alloc, form)?;
    match command.try_get_matches_from(words) {
        Ok(matches) => Ok(found_in(&matches)),
        Err(error) => match error.kind() {
            ErrorKind::OutOfMemory => Err(AllocError),
            _ => Ok(None),
        },
    }
}

// The command of the form.
fn command_of<'a>(alloc: Global, form: Form) -> Result<Command<'a>, AllocError>
    ensures { IfOk result (λ command. app_of command ≡ app_for form) }
{
    let command = plain_command(alloc)?;
    let command = with_arg(command, form.out, file_arg(alloc, "out"))?;
    let command = with_arg(command, form.strip, flag_arg(alloc))?;
    let command = with_arg(command, form.steps, value_arg(alloc, "steps"))?;
    with_arg(command, form.layout, value_arg(alloc, "layout"))
}

// A command of one file, with no help.
fn plain_command<'a>(alloc: Global) -> Result<Command<'a>, AllocError>
    ensures { IfOk result (λ command. app_of command ≡ plain_app) }
{
    Command::new(alloc, "luasuite")
        .disable_help_flag(true)
        .disable_version_flag(true)
        .arg(file_arg(alloc, "file"))
}

// The command with the argument, where that is wanted.
fn with_arg<'a>(command: Command<'a>, wanted: bool, arg: Arg<'a>) -> Result<Command<'a>, AllocError>
    requires { arg.global ≡ false }
    ensures { IfOk result (λ r. app_of r ≡ with_wanted wanted (rule_of arg.entry) (app_of command.entry)) }
{
    if wanted {
        command.arg(arg)
    } else {
        Ok(command)
    }
}

// A file, which is required.
fn file_arg<'a>(alloc: Global, id: &'a str) -> Arg<'a>
    ensures rule { rule_of result ≡ record file_rule { id = id.entry.now } }
    ensures local { result.global ≡ false }
{
    Arg::new(alloc, id).required(true).action(ArgAction::Set)
}

// `--strip`.
fn flag_arg<'a>(alloc: Global) -> Arg<'a>
    ensures rule { rule_of result ≡ strip_rule }
    ensures local { result.global ≡ false }
{
    Arg::new(alloc, "strip")
        .long("strip")
        .action(ArgAction::SetTrue)
}

// A flag with a value.
fn value_arg<'a>(alloc: Global, name: &'a str) -> Arg<'a>
    ensures rule { rule_of result ≡ record steps_rule { id = name.entry.now; long = Some name.entry.now } }
    ensures local { result.global ≡ false }
{
    Arg::new(alloc, name).long(name).action(ArgAction::Set)
}

// What the matches hold, where no value is a flag.
fn found_in<'a>(matches: &ArgMatches<'a>) -> Option<Found<'a>>
    ensures { (asked : Arguments) → AreRowsOf (rows_of (found_of matches.now)) asked
        → option_map asked_of result ≡ with_plain_values asked }
{
    let file = matches.get_str("file")?;
    let found = Found {
        file,
        out: matches.get_str("out"),
        strip: matches.get_flag("strip"),
        steps: matches.get_str("steps"),
        layout: matches.get_str("layout"),
    };
    if has_flag(found) { None } else { Some(found) }
}

// Whether a value that was found is a flag.
fn has_flag(found: Found<'_>) -> bool
    ensures { result ≡ (list_any is_a_flag (in_list found.entry.steps) || list_any is_a_flag (in_list found.entry.layout)) }
{
    is_flag(found.steps) || is_flag(found.layout)
}

// Whether the value begins with `-` and is longer.
fn is_flag(value: Option<&str>) -> bool
    ensures { result ≡ list_any is_a_flag (in_list value.entry) }
{
    match value {
        Some(text) => match text.as_bytes() {
            [first, _, ..] => *first == b'-',
            _ => false,
        },
        None => false,
    }
}
