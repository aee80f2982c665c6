//! How a script ends.
ghost use Rattle.std.specs.Prelude.{◌≡◌, []};
ghost use Rattle.ord_script.specs.Service.{status_of, message_of, Reports};

use crate::fault::FaultKind;
use crate::watched::Watched;
use crate::writing::write_line;
use std::io::Write;

/// How a script ended, and what was written.
#[derive(Clone, Copy, Debug, PartialEq, Eq)]
pub enum ScriptEnd {
    /// Every command was answered.
    Done,
    /// The commands before this line, counted from 1, were answered, and then its fault was written.
    Fault(usize, FaultKind),
    /// The input has more than 1,048,576 bytes. Nothing was written.
    TooLong,
    /// Memory for the input or for the answer was refused. Nothing was written.
    Memory,
    /// A read failed before a byte beyond the limit came. Nothing was written.
    ReadFailed,
    /// A write failed, or took no byte. A beginning of the answer was written.
    WriteFailed,
}

impl ScriptEnd {
    /// Returns the exit status for this end.
    pub fn status(&self) -> u8
        ensures { result ≡ status_of self.now }
    {
        match self {
            ScriptEnd::Done => 0,
            ScriptEnd::Fault(_, _) => 2,
            ScriptEnd::TooLong => 3,
            ScriptEnd::Memory => 4,
            ScriptEnd::ReadFailed => 5,
            ScriptEnd::WriteFailed => 6,
        }
    }

    /// Returns what the program says on standard error at this end, without a line feed; the empty text if it says nothing.
    pub fn message(&self) -> &'static str
        ensures { result.now ≡ message_of self.now }
    {
        match self {
            ScriptEnd::Done | ScriptEnd::Fault(_, _) => "",
            ScriptEnd::TooLong => "ordrun: input too long",
            ScriptEnd::Memory => "ordrun: out of memory",
            ScriptEnd::ReadFailed => "ordrun: read failed",
            ScriptEnd::WriteFailed => "ordrun: write failed",
        }
    }

    /// Writes the message of this end as a line to standard error, or to a device in its place, and returns the exit status.
    ///
    /// The line is the message and a line feed; an empty message has no line, and then the device isn't asked. If a write fails, the rest of
    /// the line is lost, and the status is the same.
    pub fn report<E: Write>(&self, errors: &mut Watched<E>) -> u8
        ensures status { result ≡ status_of self.now }
        ensures message { Reports self.now errors.old.failed errors.new.failed
            (E.contents errors.old.device) (E.contents errors.new.device) }
        ensures quiet { message_of self.now ≡ [] → errors.new ≡ errors.old }
    {
        let message = self.message();
        if message.is_empty() {
            return self.status();
        }
        let _ = write_line(errors, message);
        self.status()
    }
}
