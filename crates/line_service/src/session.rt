//! Sessions of commands, one a line.

ghost use Rattle.std.specs.Prelude.{IfErr};
ghost use Rattle.line_service.specs.Ending.{IsOfStreams};

use crate::failure::Failure;
use crate::style::Style;
use std::io;
use std::io::{BufRead, BufReader, BufWriter, Write};

/// What answers the lines of a session.
pub trait Session {
    /// Does what a line says, and writes the answer in this style, without the empty line of a framed one. The line ends as it was read.
    ///
    /// # Errors
    ///
    /// Writing the answer failed, or memory for it is refused.
    fn answer<W: Write>(&mut self, out: &mut W, style: Style, line: &[u8]) -> io::Result<()>;

    /// Writes what is to be said after the last line.
    ///
    /// # Errors
    ///
    /// Writing failed, or memory for it is refused.
    fn finish<W: Write>(&mut self, out: &mut W, style: Style) -> io::Result<()>;
}

/// Has each line of standard input answered in turn on standard output, and then has the session finished.
///
/// What was answered is written once no whole line is left in the buffer of the input: after each line at a terminal, in blocks from a
/// file. A last line needs no end. In a framed style an empty line follows the answer to each line.
///
/// # Errors
///
/// Reading or writing failed, or memory is refused. The lines before were answered, as far as they could be written, and the session is
/// not finished.
///
/// What is written can't be a clause: it is a session's, and standard output has no value in contracts.
pub fn serve<S: Session>(
    rt: &(impl Input + Print + AllocGlobal),
    session: &mut S,
    style: Style,
) -> Result<(), Failure>
    ensures err { IfErr result IsOfStreams }
{
    let mut out = BufWriter::new(rt.alloc(), io::writer(rt)).map_err(Failure::writing)?;
    answer_lines(rt, &mut out, session, style)?;
    session.finish(&mut out, style).map_err(Failure::writing)?;
    out.flush().map_err(Failure::writing)
}

// Has each line of standard input answered in turn.
fn answer_lines<W: Write, S: Session>(
    rt: &(impl Input + AllocGlobal),
    out: &mut W,
    session: &mut S,
    style: Style,
) -> Result<(), Failure>
    ensures err { IfErr result IsOfStreams }
{
    let mut input = BufReader::new(rt.alloc(), rt.reader()).map_err(Failure::reading)?;
    let mut line = Vec::new(rt.alloc());
    for _ in 0..u64::MAX {
        line.clear();
        let read = input.read_until(b'\n', &mut line);
        if read.map_err(Failure::reading)? == 0 {
            break;
        }
        answer_line(out, session, line.as_slice(), style).map_err(Failure::writing)?;
        if !input.buffer().contains(&b'\n') {
            out.flush().map_err(Failure::writing)?;
        }
    }
    Ok(())
}

// Has a line answered.
fn answer_line<W: Write, S: Session>(
    out: &mut W,
    session: &mut S,
    line: &[u8],
    style: Style,
) -> io::Result<()> {
    session.answer(out, style, line)?;
    if style.is_framed {
        writeln!(out)?;
    }
    Ok(())
}
