//! The form of the reply to a command.
ghost use Rattle.std.specs.Prelude.{◌≡◌, IfOk, map};
ghost use Rattle.ord_script.specs.Text.{form_of};

use crate::pairs::PairCommand;
use ord_machine::Command;
use std::alloc::{AllocError, Allocator};

/// The form of a reply. It follows from the reply's kind, except for the commands named here.
#[derive(Clone, Copy, Debug)]
pub enum Form {
    Plain,
    /// `Command::Set`, `Command::Rekey`: the item is the old one.
    Replaced,
    /// `Command::RemoveInx`: the item with its pointer.
    WithPointer,
    /// `Command::Clear`: no entry is left.
    Cleared,
    /// `Command::DrainOrdered`: the entries were removed.
    Drained,
}

/// Returns the forms of the replies to these commands.
pub fn forms_of<A: Allocator>(
    alloc: A,
    commands: &[PairCommand],
) -> Result<Vec<Form, A>, AllocError>
    ensures { IfOk result (λ forms. forms.items ≡ map form_of commands.now) }
{
    commands
        .iter()
        .map(|command| form_of(command))
        .collect(alloc)
}

/// Returns the form of the reply to a command.
fn form_of(command: &PairCommand) -> Form
    ensures { result ≡ form_of command.now }
{
    match command {
        Command::Set(_, _) | Command::Rekey(_, _) => Form::Replaced,
        Command::RemoveInx(_) => Form::WithPointer,
        Command::Clear => Form::Cleared,
        Command::DrainOrdered(_) => Form::Drained,
        _ => Form::Plain,
    }
}
