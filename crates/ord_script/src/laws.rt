//! Laws of scripts. The functions here do nothing. The contract of each is the law: a fact about every script.

ghost use Rattle.ord_script.specs.Laws.{FirstRankTextLaw, KeyTextLaw, PointerTextLaw, CommandTextLaw, ScriptTextLaw};

pub use ord_machine::laws::first_rank_law;
use std::alloc::Allocator;

/// The script of two lines, `insert 5 1` and `ranks`, is answered by `new 1.2` and `ranks 1`, unless memory is refused.
pub fn first_rank_text_law<A: Allocator>()
    ensures { FirstRankTextLaw A }
{}

/// Reading the text of a key gives the key.
pub fn key_text_law()
    ensures { KeyTextLaw }
{}

/// Reading the text of a pointer gives the pointer.
pub fn pointer_text_law()
    ensures { PointerTextLaw }
{}

/// Reading what a script says for a command gives the command.
pub fn command_text_law()
    ensures { CommandTextLaw }
{}

/// Cutting and reading the lines of some commands gives these commands and no fault.
pub fn script_text_law()
    ensures { ScriptTextLaw }
{}
