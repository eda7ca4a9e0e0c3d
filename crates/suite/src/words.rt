// Reading the words of a call.
ghost use Rattle.std.specs.Prelude.{◌≡◌, List, codes, Some, None, IfSome, IfNone, IfOk, option_and_then, drop};
ghost use Rattle.std.specs.List.{list_all};
ghost use Rattle.std.specs.String.{string_bytes};
ghost use Rattle.lua_num.specs.Bytes.{is_digit};
ghost use Rattle.command_words.specs.Arguments.{arguments, in_list, texts};
ghost use Rattle.suite.specs.Words.{Reads, NoCommand, job_of, running as the_running, putting as the_putting, compiling as the_compiling, storing as the_storing, making_source as the_making_source, steps_given, steps_in as the_steps_in, count_in as the_count_in, layout_in as the_layout_in, layout_named as the_layout_named, has_room as the_has_room};

use crate::product::Product;
use chunk_io::Layout;
use command_words::{Form, read_arguments};
use lua_num::numeral;
use std::alloc::{AllocError, Global};
use suite_io::Word;

/// What the words ask for.
#[derive(Drop)]
pub enum Command {
    /// At most this many steps of a run.
    Run {
        file: Word,
        steps: u64,
    },
    /// A text that is made of the file is put.
    Put {
        product: Product,
        file: Word,
    },
    /// A text that is made of the file is stored as `out`.
    Store {
        product: Product,
        file: Word,
        out: Word,
    },
    /// A source with this many functions is made, and the suite is tried on it.
    Make {
        count: u32,
    },
}

/// Where the bytes come from with which a command is carried out.
#[derive(Clone, Copy)]
pub enum Origin<'a> {
    /// The file is fetched.
    File(&'a Word),
    /// A source with this many functions is made.
    Made(u32),
}

impl Command {
    ghost use Rattle.suite.specs.Words.{file_of};
    ghost use Rattle.suite.specs.Trying.{HasOrigin};

    /// The file that is fetched, or how many functions the made source has.
    pub fn origin(&self) -> Origin<'_>
        ensures { HasOrigin (job_of self.now) result }
    {
        match self {
            Command::Run { file, .. } | Command::Put { file, .. } | Command::Store { file, .. } =>
                Origin::File(file),
            Command::Make { count } => Origin::Made(*count),
        }
    }

    /// The name of the file that is fetched, or that of a made source.
    pub fn name(&self) -> &str
        ensures { result.now ≡ file_of (job_of self.now) }
    {
        match self {
            Command::Run { file, .. } | Command::Put { file, .. } | Command::Store { file, .. } =>
                file.as_str(),
            Command::Make { .. } => MADE_NAME,
        }
    }
}

/// The name of a made source, which no file has.
pub const MADE_NAME: &str = "made";

/// How many steps a run has where no number is given.
pub const DEFAULT_STEPS: u64 = 1_000_000_000;

/// No number of steps has more digits.
const MOST_DIGITS: usize = 19;

/// No count of functions of a made source has more digits, and none is higher.
const MOST_COUNT_DIGITS: usize = 5;

const MOST_FUNCTIONS: i64 = 20_000;

/// Sizes of 4 bytes tell no source name of a file whose name has this many bytes or more.
const LONG_NAME: usize = 0xffff_fffe;

/// What stands behind `run`.
const RUN: Form = Form {
    out: false,
    strip: false,
    steps: true,
    layout: false,
};

/// What stands behind `compile`.
const COMPILE: Form = Form {
    out: true,
    strip: true,
    steps: false,
    layout: true,
};

/// One word and no flag.
const ONE: Form = Form {
    out: false,
    strip: false,
    steps: false,
    layout: false,
};

/// Two words and no flag.
const TWO: Form = Form {
    out: true,
    strip: false,
    steps: false,
    layout: false,
};

/// The command of the words `run FILE [--steps N]`, `list FILE`, `verify FILE`, `globals FILE`, `compile SRC OUT [--strip] [--layout L]`, `decompile CHUNK OUT`, `assemble IN OUT` or `make-source N`;
/// `None` for all other words. Flags may stand at any place behind the first word. Behind `--` all words stand for files; before it a word for a file begins with `-` only where
/// that is the whole word. Fails only where memory runs out.
pub fn read_words(alloc: Global, words: &[Word]) -> Result<Option<Command>, AllocError>
    ensures command { IfOk result (λ r. IfSome r (λ command. Reads words.now (job_of command))) }
    ensures none { IfOk result (λ r. IfNone r (NoCommand words.now)) }
{
    let [first, ..] = words else {
        return Ok(None);
    };
    match first.as_str() {
        "run" => run_in(alloc, words),
        "list" => put_in(alloc, words, Product::Listing),
        "verify" => put_in(alloc, words, Product::Verdict),
        "globals" => put_in(alloc, words, Product::Globals),
        "compile" => compilation_in(alloc, words),
        "decompile" => store_in(alloc, words, Product::Source),
        "assemble" => store_in(alloc, words, Product::Assembly),
        "make-source" => made_source_in(alloc, words),
        _ => Ok(None),
    }
}

// The run, where the words behind the first one name a file, with a number of steps or none.
fn run_in(alloc: Global, words: &[Word]) -> Result<Option<Command>, AllocError>
    ensures command { IfOk result (λ r. IfSome r (λ command. option_and_then the_running (arguments (drop 1 (texts words.now))) ≡ Some (job_of command))) }
    ensures none { IfOk result (λ r. IfNone r (option_and_then the_running (arguments (drop 1 (texts words.now))) ≡ None)) }
{
    let Some(found) = read_arguments(alloc, words, RUN)? else {
        return Ok(None);
    };
    let Some(steps) = steps_of(found.steps) else {
        return Ok(None);
    };
    let file = found.file.to_string(alloc)?;
    Ok(Some(Command::Run { file, steps }))
}

// The text of a file that is put, where the words behind the first one name one.
fn put_in(alloc: Global, words: &[Word], product: Product) -> Result<Option<Command>, AllocError>
    ensures command { IfOk result (λ r. IfSome r (λ command. option_and_then (the_putting product) (arguments (drop 1 (texts words.now))) ≡ Some (job_of command))) }
    ensures none { IfOk result (λ r. IfNone r (option_and_then (the_putting product) (arguments (drop 1 (texts words.now))) ≡ None)) }
{
    let Some(found) = read_arguments(alloc, words, ONE)? else {
        return Ok(None);
    };
    let file = found.file.to_string(alloc)?;
    Ok(Some(Command::Put { product, file }))
}

// The compilation, where the words behind the first one name two files, with `--strip` and a layout or without.
fn compilation_in(alloc: Global, words: &[Word]) -> Result<Option<Command>, AllocError>
    ensures command { IfOk result (λ r. IfSome r (λ command. option_and_then the_compiling (arguments (drop 1 (texts words.now))) ≡ Some (job_of command))) }
    ensures none { IfOk result (λ r. IfNone r (option_and_then the_compiling (arguments (drop 1 (texts words.now))) ≡ None)) }
{
    let Some(found) = read_arguments(alloc, words, COMPILE)? else {
        return Ok(None);
    };
    let Some(out) = found.out else {
        return Ok(None);
    };
    let Some(layout) = layout_of(found.layout) else {
        return Ok(None);
    };
    if !has_room(layout, found.file) {
        return Ok(None);
    }
    let strip = found.strip;
    Ok(Some(Command::Store {
        product: Product::Spelling { strip, layout },
        file: found.file.to_string(alloc)?,
        out: out.to_string(alloc)?,
    }))
}

// The text of one file that is stored as another, where the words behind the first one name two.
fn store_in(alloc: Global, words: &[Word], product: Product) -> Result<Option<Command>, AllocError>
    ensures command { IfOk result (λ r. IfSome r (λ command. option_and_then (the_storing product) (arguments (drop 1 (texts words.now))) ≡ Some (job_of command))) }
    ensures none { IfOk result (λ r. IfNone r (option_and_then (the_storing product) (arguments (drop 1 (texts words.now))) ≡ None)) }
{
    let Some(found) = read_arguments(alloc, words, TWO)? else {
        return Ok(None);
    };
    let Some(out) = found.out else {
        return Ok(None);
    };
    Ok(Some(Command::Store {
        product,
        file: found.file.to_string(alloc)?,
        out: out.to_string(alloc)?,
    }))
}

// The source that is made, where the words behind the first one are a number.
fn made_source_in(alloc: Global, words: &[Word]) -> Result<Option<Command>, AllocError>
    ensures command { IfOk result (λ r. IfSome r (λ command. option_and_then the_making_source (arguments (drop 1 (texts words.now))) ≡ Some (job_of command))) }
    ensures none { IfOk result (λ r. IfNone r (option_and_then the_making_source (arguments (drop 1 (texts words.now))) ≡ None)) }
{
    let Some(found) = read_arguments(alloc, words, ONE)? else {
        return Ok(None);
    };
    match count_in(found.file) {
        Some(count) => Ok(Some(Command::Make { count })),
        None => Ok(None),
    }
}

// The number of steps that is given, or how many a run has without.
fn steps_of(text: Option<&str>) -> Option<u64>
    ensures { result ≡ steps_given (in_list text.entry) }
{
    match text {
        Some(text) => steps_in(text),
        None => Some(DEFAULT_STEPS),
    }
}

// The number of 1 to 19 decimal digits, where it is below 2^63.
fn steps_in(text: &str) -> Option<u64>
    ensures { result ≡ the_steps_in text.now }
{
    if text.len() > MOST_DIGITS || !is_decimal(text) {
        return None;
    }
    let number = numeral(text.as_bytes())?;
    Some(number as u64)
}

// The number of 1 to 5 decimal digits, from 1 to 20,000.
fn count_in(text: &str) -> Option<u32>
    ensures { result ≡ the_count_in text.now }
{
    if text.len() > MOST_COUNT_DIGITS || !is_decimal(text) {
        return None;
    }
    let number = numeral(text.as_bytes())?;
    if number < 1 || number > MOST_FUNCTIONS {
        return None;
    }
    Some(number as u32)
}

// Decimal digits alone.
fn is_decimal(text: &str) -> bool
    ensures { result ≡ list_all is_digit text.now }
{
    text.bytes().all(|byte| byte.is_ascii_digit())
}

// The layout that is named, or else this suite's own.
fn layout_of(name: Option<&str>) -> Option<Layout>
    ensures { result ≡ the_layout_in (in_list name.entry) }
{
    match name {
        Some(name) => layout_named(name),
        None => Some(Layout::le8()),
    }
}

// The layout of a name.
fn layout_named(name: &str) -> Option<Layout>
    ensures { result ≡ the_layout_named name.now }
{
    match name {
        "le4" => Some(Layout::le4()),
        "le8" => Some(Layout::le8()),
        "be4" => Some(Layout::be4()),
        "be8" => Some(Layout::be8()),
        _ => None,
    }
}

// Whether the source name of a file has a size in a layout.
fn has_room(layout: Layout, file: &str) -> bool
    ensures { result ≡ the_has_room layout file.now }
{
    layout.size == 8 || file.len() < LONG_NAME
}
