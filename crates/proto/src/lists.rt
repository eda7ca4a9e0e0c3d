// The lists of a function. Contracts see each as a list.
ghost use Rattle.std.specs.Prelude.{◌≡◌, ◌<◌, [], ◌∷◌, ◌++◌, length, set, OnOk, OnErr, IfSome, IfNone, Some};
ghost use Rattle.std.specs.Fmt.{DisplaysOnOk};
ghost use Rattle.std.specs.List.{flat_map};
ghost use Rattle.proto.specs.Paths.{behind_point};

use crate::parts::{Constant, LocVar};
use std::alloc::{AllocError, Global};
use std::fmt;
use std::marker::Model;

/// The words of a function, by their pc.
#[derive(Debug, Drop)]
pub struct Code {
    words: Vec<u32>,
}

impl Model for Code {
    ghost use Rattle.std.specs.Prelude.{List, ℕ};

    ghost Value = { List ℕ };

    ghost view = { λ l. l.words.items };
}

impl Code {
    /// No words, which takes no memory.
    pub fn new(alloc: Global) -> Self
        ensures { result ≡ [] }
    {
        Self {
            words: Vec::new(alloc),
        }
    }

    /// Appends a word.
    pub fn push(&mut self, word: u32) -> Result<(), AllocError>
        ensures ok { OnOk result (self.new ≡ self.old ++ word ∷ []) }
        ensures err { OnErr result (self.new ≡ self.old) }
    {
        self.words.push(word)?;
        Ok(())
    }

    /// Writes a word over the one at a pc, which takes no memory.
    pub fn set(&mut self, pc: usize, word: u32)
        requires { pc < length self.old }
        ensures { self.new ≡ set self.old pc word }
    {
        self.words[pc] = word;
    }

    /// The words.
    pub fn items(&self) -> &[u32]
        ensures { result.now ≡ self.now }
    {
        self.words.as_slice()
    }

    /// The words of a `Vec`, which takes no memory.
    pub fn from_vec(words: Vec<u32>) -> Self
        ensures { result ≡ words.items }
    {
        Self { words }
    }

    /// The words as a `Vec`, given back without taking memory.
    pub fn into_vec(self) -> Vec<u32>
        ensures { result.items ≡ self }
    {
        self.words
    }
}

/// The constants of a function, by their numbers.
#[derive(Debug, Drop)]
pub struct ConstantList {
    constants: Vec<Constant>,
}

impl Model for ConstantList {
    ghost use Rattle.std.specs.Prelude.{List};
    ghost use Rattle.proto.specs.declared.parts.Constant.{Constant};

    ghost Value = { List Constant };

    ghost view = { λ l. l.constants.items };
}

impl ConstantList {
    /// No constants, which takes no memory.
    pub fn new(alloc: Global) -> Self
        ensures { result ≡ [] }
    {
        Self {
            constants: Vec::new(alloc),
        }
    }

    /// Appends a constant.
    pub fn push(&mut self, constant: Constant) -> Result<(), AllocError>
        ensures ok { OnOk result (self.new ≡ self.old ++ constant ∷ []) }
        ensures err { OnErr result (self.new ≡ self.old) }
    {
        self.constants.push(constant)?;
        Ok(())
    }

    /// The constants.
    pub fn items(&self) -> &[Constant]
        ensures { result.now ≡ self.now }
    {
        self.constants.as_slice()
    }

    /// The constants of a `Vec`, which takes no memory.
    pub fn from_vec(constants: Vec<Constant>) -> Self
        ensures { result ≡ constants.items }
    {
        Self { constants }
    }

    /// The constants as a `Vec`, given back without taking memory.
    pub fn into_vec(self) -> Vec<Constant>
        ensures { result.items ≡ self }
    {
        self.constants
    }
}

/// The line of each word of a function, by its pc.
#[derive(Debug, Drop)]
pub struct Lines {
    lines: Vec<u32>,
}

impl Model for Lines {
    ghost use Rattle.std.specs.Prelude.{List, ℕ};

    ghost Value = { List ℕ };

    ghost view = { λ l. l.lines.items };
}

impl Lines {
    /// No lines, which takes no memory.
    pub fn new(alloc: Global) -> Self
        ensures { result ≡ [] }
    {
        Self {
            lines: Vec::new(alloc),
        }
    }

    /// Appends a line.
    pub fn push(&mut self, line: u32) -> Result<(), AllocError>
        ensures ok { OnOk result (self.new ≡ self.old ++ line ∷ []) }
        ensures err { OnErr result (self.new ≡ self.old) }
    {
        self.lines.push(line)?;
        Ok(())
    }

    /// The lines.
    pub fn items(&self) -> &[u32]
        ensures { result.now ≡ self.now }
    {
        self.lines.as_slice()
    }

    /// The lines of a `Vec`, which takes no memory.
    pub fn from_vec(lines: Vec<u32>) -> Self
        ensures { result ≡ lines.items }
    {
        Self { lines }
    }

    /// The lines as a `Vec`, given back without taking memory.
    pub fn into_vec(self) -> Vec<u32>
        ensures { result.items ≡ self }
    {
        self.lines
    }
}

/// The listed locals of a function, in order of declaration.
#[derive(Debug, Drop)]
pub struct LocVars {
    locals: Vec<LocVar>,
}

impl Model for LocVars {
    ghost use Rattle.std.specs.Prelude.{List};
    ghost use Rattle.proto.specs.declared.parts.LocVar.{LocVar};

    ghost Value = { List LocVar };

    ghost view = { λ l. l.locals.items };
}

impl LocVars {
    /// No locals, which takes no memory.
    pub fn new(alloc: Global) -> Self
        ensures { result ≡ [] }
    {
        Self {
            locals: Vec::new(alloc),
        }
    }

    /// Appends a local.
    pub fn push(&mut self, local: LocVar) -> Result<(), AllocError>
        ensures ok { OnOk result (self.new ≡ self.old ++ local ∷ []) }
        ensures err { OnErr result (self.new ≡ self.old) }
    {
        self.locals.push(local)?;
        Ok(())
    }

    /// The locals.
    pub fn items(&self) -> &[LocVar]
        ensures { result.now ≡ self.now }
    {
        self.locals.as_slice()
    }

    /// The locals of a `Vec`, which takes no memory.
    pub fn from_vec(locals: Vec<LocVar>) -> Self
        ensures { result ≡ locals.items }
    {
        Self { locals }
    }

    /// The locals as a `Vec`, given back without taking memory.
    pub fn into_vec(self) -> Vec<LocVar>
        ensures { result.items ≡ self }
    {
        self.locals
    }
}

/// The numbers of the functions from the main function down to one: each in the list of the one
/// before it. Of the main function none.
#[derive(Debug, Drop)]
pub struct Path {
    numbers: Vec<u32>,
}

impl Model for Path {
    ghost use Rattle.std.specs.Prelude.{List, ℕ};

    ghost Value = { List ℕ };

    ghost view = { λ l. l.numbers.items };
}

impl Path {
    /// No numbers, which takes no memory.
    pub fn new(alloc: Global) -> Self
        ensures { result ≡ [] }
    {
        Self {
            numbers: Vec::new(alloc),
        }
    }

    /// Appends a number.
    pub fn push(&mut self, number: u32) -> Result<(), AllocError>
        ensures ok { OnOk result (self.new ≡ self.old ++ number ∷ []) }
        ensures err { OnErr result (self.new ≡ self.old) }
    {
        self.numbers.push(number)?;
        Ok(())
    }

    /// Takes the last number away, where there is one.
    pub fn pop(&mut self) -> Option<u32>
        ensures some { IfSome result (λ number. self.old ≡ self.new ++ number ∷ []) }
        ensures none { IfNone result ((self.old ≡ []) × (self.new ≡ [])) }
    {
        self.numbers.pop()
    }

    /// The numbers.
    pub fn items(&self) -> &[u32]
        ensures { result.now ≡ self.now }
    {
        self.numbers.as_slice()
    }

    /// The numbers of a `Vec`, which takes no memory.
    pub fn from_vec(numbers: Vec<u32>) -> Self
        ensures { result ≡ numbers.items }
    {
        Self { numbers }
    }

    /// The numbers as a `Vec`, given back without taking memory.
    pub fn into_vec(self) -> Vec<u32>
        ensures { result.items ≡ self }
    {
        self.numbers
    }
}

impl fmt::Display for Path {
    ghost use Rattle.proto.specs.Paths.{path_text};

    ghost output = { λ path. Some (path_text path) };

    fn fmt<W: fmt::Write>(&self, f: &mut fmt::Formatter<W>) -> fmt::Result {
        let [first, rest @ ..] = self.items() else {
            return write!(f, "main");
        };
        write!(f, "{first}")?;
        write_behind_points(rest, f)
    }
}

// Writes numbers, with a point before each.
fn write_behind_points<W: fmt::Write>(numbers: &[u32], f: &mut fmt::Formatter<W>) -> fmt::Result
    ensures { DisplaysOnOk W.write_str_gives f.old result (Some (flat_map behind_point numbers.now)) f.new }
{
    for number in numbers {
        write!(f, ".{number}")?;
    }
    Ok(())
}
