//! Reading a script, running it, and writing its answer.
ghost use Rattle.std.specs.Prelude.{◌≡◌, ◌||◌, true, false, IfOk, string_bytes};
ghost use Rattle.std.specs.Io.KnownBytes.{IsAtEnd};
ghost use Rattle.ord_machine.specs.Machine.{State, Runs};
ghost use Rattle.ord_script.specs.Pairs.{Pair, reading, beginning, script_calls};
ghost use Rattle.ord_script.specs.Script.{script_of};
ghost use Rattle.ord_script.specs.Service.{Answers, Serves, end_of, is_answered, is_read_failed, is_write_failed};

use crate::form::forms_of;
use crate::pairs::{Pair, PairArena, PairCommand, PairReply};
use crate::reading::{ReadError, read_all};
use crate::script::{Script, parse};
use crate::script_end::ScriptEnd;
use crate::text::text_of;
use crate::watched::Watched;
use crate::writing::write_all;
use ord_machine::run;
use std::alloc::{AllocError, Allocator};
use std::cmp::Ordering;
use std::io::{Read, Write};
use triple_ord::{P0, SimpleOrdArena};

/// Reads a whole script, runs its commands on an empty arena, and writes the answer: a line for each reply, and one for the first fault,
/// if any.
///
/// All memory comes from `alloc`. Nothing is written before the whole answer is ready, and no failed read or write is retried. The input
/// has at most 1,048,576 bytes, because script, replies and answer are in memory at once. Reading stops at the first byte beyond.
pub fn serve<R: Read, W: Write, A: Allocator + Copy>(
    alloc: A,
    reader: &mut Watched<R>,
    writer: &mut Watched<W>,
) -> ScriptEnd
    // What was written answers what was read.
    ensures served { Serves A result (R.remaining reader.old.device) (R.remaining reader.new.device)
        (W.contents writer.old.device) (W.contents writer.new.device) }

    // The marks say which device failed, and that the input was read to its end.
    ensures read_failed { reader.new.failed ≡ (reader.old.failed || is_read_failed result) }
    ensures write_failed { writer.new.failed ≡ (writer.old.failed || is_write_failed result) }
    ensures ended { is_answered result ≡ true → reader.new.ended ≡ true }
    ensures nothing_unread { is_answered result ≡ true
        → IsAtEnd (R.remaining reader.new.device) }

    // If nothing is written, the writer isn't touched.
    ensures untouched { is_answered result ≡ false → writer.new ≡ writer.old }
{
    let bytes = match read_all(alloc, reader) {
        Ok(bytes) => bytes,
        Err(ReadError::TooLong) => return ScriptEnd::TooLong,
        Err(ReadError::Memory) => return ScriptEnd::Memory,
        Err(ReadError::Failed) => return ScriptEnd::ReadFailed,
    };
    let Ok(answer) = answer_to(alloc, &bytes) else {
        return ScriptEnd::Memory;
    };
    match write_all(writer, answer.text.as_bytes()) {
        Ok(()) => answer.end,
        Err(_) => ScriptEnd::WriteFailed,
    }
}

/// The answer to a script, and the script's end if all of it is written.
#[derive(Drop)]
struct Answer<A: Allocator> {
    text: String<A>,
    end: ScriptEnd,
}

fn answer_to<A: Allocator + Copy>(alloc: A, bytes: &[u8]) -> Result<Answer<A>, AllocError>
    ensures text { IfOk result
        (λ answer. Answers A (script_of bytes.now) (string_bytes answer.text)) }
    ensures end { IfOk result (λ answer. answer.end ≡ end_of (script_of bytes.now).fault) }
{
    let Script { commands, fault } = parse(alloc, bytes)?;
    let forms = forms_of(alloc, &commands)?;
    let replies = replies_to(alloc, commands)?;
    let text = text_of(alloc, &forms, &replies, fault)?;
    let end = match fault {
        None => ScriptEnd::Done,
        Some(fault) => ScriptEnd::Fault(fault.line, fault.kind),
    };
    Ok(Answer { text, end })
}

/// Runs the commands on an empty arena.
fn replies_to<A: Allocator + Copy>(
    alloc: A,
    commands: Vec<PairCommand, A>,
) -> Result<Vec<PairReply<A>, A>, AllocError>
    ensures { IfOk result (λ replies. (end : State Pair)
        × Runs reading script_calls beginning tt commands.items replies.items end tt) }
{
    let mut arena: PairArena<A> = SimpleOrdArena::new(alloc);
    // No line of a script searches by a closure.
    let mut closure = |_p: P0, _pair: &Pair| Ordering::Equal;
    run(alloc, &mut arena, commands, &mut closure)
}
