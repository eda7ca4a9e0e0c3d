// What is wrong with a source.
ghost use Rattle.front.specs.Texts.{fault_text};

use code_builder::CodeFault;
use lexer::LexFault;
use scopes::ScopeFault;
use std::alloc::AllocError;
use std::error::Error;
use std::fmt;

/// What is wrong with a source, and the offset or the line at which it stands.
#[derive(Clone, Copy, Debug, PartialEq, Eq)]
pub enum Fault {
    Lexical(LexFault),
    /// The offset is that of a token, or the source's length, where more tokens are wanted.
    Unexpected { offset: usize },
    TooDeep { offset: usize },
    Scoping(ScopeFault),
    /// A limit that the chunk of the source does not keep.
    Code(CodeFault),
}

impl fmt::Display for Fault {
    ghost use Rattle.std.specs.Prelude.{Some};

    ghost output = { λ fault. Some (fault_text fault) };

    fn fmt<W: fmt::Write>(&self, f: &mut fmt::Formatter<W>) -> fmt::Result {
        match *self {
            Fault::Lexical(fault) => write!(f, "{fault}"),
            Fault::Unexpected { offset } => write!(f, "Unexpected at offset {offset}"),
            Fault::TooDeep { offset } => write!(f, "TooDeep at offset {offset}"),
            Fault::Scoping(fault) => write!(f, "{fault}"),
            Fault::Code(fault) => write!(f, "{fault}"),
        }
    }
}

impl Error for Fault {}

/// Why a source has no chunk.
#[derive(Clone, Copy, Debug, PartialEq, Eq)]
pub enum SourceFault {
    /// The source has a lexical, a syntax, a scope or a code fault.
    Bad(Fault),
    OutOfMemory,
}

impl From<LexFault> for SourceFault {
    ghost use Rattle.std.specs.Prelude.{◌≡◌};
    ghost use Rattle.front.specs.Reading.{lex_fault_of};

    ghost from_gives = { λ fault given. given ≡ lex_fault_of fault };

    fn from(fault: LexFault) -> Self {
        match fault {
            LexFault::OutOfMemory => SourceFault::OutOfMemory,
            _ => SourceFault::Bad(Fault::Lexical(fault)),
        }
    }
}

impl From<ScopeFault> for SourceFault {
    ghost use Rattle.std.specs.Prelude.{◌≡◌};
    ghost use Rattle.front.specs.Reading.{scope_fault_of};

    ghost from_gives = { λ fault given. given ≡ scope_fault_of fault };

    fn from(fault: ScopeFault) -> Self {
        match fault {
            ScopeFault::OutOfMemory => SourceFault::OutOfMemory,
            _ => SourceFault::Bad(Fault::Scoping(fault)),
        }
    }
}

impl From<CodeFault> for SourceFault {
    ghost use Rattle.std.specs.Prelude.{◌≡◌};
    ghost use Rattle.front.specs.Reading.{code_fault_of};

    ghost from_gives = { λ fault given. given ≡ code_fault_of fault };

    fn from(fault: CodeFault) -> Self {
        match fault {
            CodeFault::OutOfMemory => SourceFault::OutOfMemory,
            _ => SourceFault::Bad(Fault::Code(fault)),
        }
    }
}

impl From<AllocError> for SourceFault {
    ghost use Rattle.std.specs.Prelude.{◌≡◌};
    ghost use Rattle.front.specs.declared.fault.SourceFault.TheVariants.{OutOfMemory};

    ghost from_gives = { λ _ fault. fault ≡ OutOfMemory };

    fn from(_error: AllocError) -> Self {
        SourceFault::OutOfMemory
    }
}
