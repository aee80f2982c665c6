//! Faults in a line of a script.
use std::fmt;

/// Why a line isn't a command.
#[derive(Clone, Copy, Debug, PartialEq, Eq)]
pub enum FaultKind {
    /// No command begins with the line's first word.
    UnknownCommand,
    /// The command takes another number of arguments.
    WrongArguments,
    /// An argument isn't a number, or is out of range.
    BadNumber,
}

impl fmt::Display for FaultKind {
    ghost use Rattle.std.specs.Prelude.{Some};
    ghost use Rattle.ord_script.specs.Text.{kind_text};

    ghost output = { λ kind. Some (kind_text kind) };

    fn fmt<W: fmt::Write>(&self, f: &mut fmt::Formatter<W>) -> fmt::Result {
        match self {
            FaultKind::UnknownCommand => write!(f, "unknown command"),
            FaultKind::WrongArguments => write!(f, "wrong arguments"),
            FaultKind::BadNumber => write!(f, "bad number"),
        }
    }
}

/// The first line that isn't a command, counted from 1, and why.
#[derive(Clone, Copy, Debug)]
pub struct Fault {
    pub line: usize,
    pub kind: FaultKind,
}

impl fmt::Display for Fault {
    ghost use Rattle.std.specs.Prelude.{Some};
    ghost use Rattle.ord_script.specs.Text.{fault_text};

    ghost output = { λ fault. Some (fault_text fault) };

    fn fmt<W: fmt::Write>(&self, f: &mut fmt::Formatter<W>) -> fmt::Result {
        let Fault { line, kind } = *self;
        write!(f, "line {line}: {kind}")
    }
}
