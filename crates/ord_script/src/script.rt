//! Reading a whole script.
ghost use Rattle.std.specs.Prelude.{◌≡◌, ◌≢◌, [], IfOk, OnErr};
ghost use Rattle.ord_script.specs.Script.{script_of};

use crate::cutting::first_line;
use crate::fault::Fault;
use crate::pairs::PairCommand;
use crate::parsing::command_in;
use std::alloc::{AllocError, Allocator};
use std::marker::Model;

/// The commands of a script up to its first fault, and that fault, if any.
#[derive(Drop)]
pub struct Script<A: Allocator> {
    pub commands: Vec<PairCommand, A>,
    pub fault: Option<Fault>,
}

impl<A: Allocator> Model for Script<A> {
    ghost use Rattle.ord_script.specs.Script.{Script};

    ghost Value = { Script };

    ghost view = { λ a. record { commands = a.commands.items; fault = a.fault } };
}

/// Parses the bytes of a script, in O(n) for n bytes.
///
/// # Errors
///
/// `AllocError`: memory for the commands is refused. A script without a command takes none.
pub fn parse<A: Allocator>(alloc: A, bytes: &[u8]) -> Result<Script<A>, AllocError>
    ensures script { IfOk result (λ script. script ≡ script_of bytes.now) }
    ensures memory { OnErr result ((script_of bytes.now).commands ≢ []) }
{
    let mut commands = Vec::new(alloc);
    let mut rest = bytes;
    let mut number = 0;
    while let Some((line, after)) = first_line(rest) {
        number += 1;
        rest = after;
        match command_in(line) {
            None => {}
            Some(Ok(command)) => commands.push(command)?,
            Some(Err(kind)) => {
                let fault = Some(Fault { line: number, kind });
                return Ok(Script { commands, fault });
            }
        }
    }
    Ok(Script {
        commands,
        fault: None,
    })
}
