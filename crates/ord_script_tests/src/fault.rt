//! The texts of faults.
use ord_script::FaultKind;
use std::alloc::{AllocError, Global};
use std::test::Fail;

/// Returns whether a fault is printed like this, as a text and by its name.
fn is_printed(alloc: Global, kind: FaultKind, wanted: &str) -> Result<bool, AllocError> {
    let text = format!(in alloc; "{kind}, {kind:?}")?;
    Ok(text.as_str() == wanted)
}

#[test]
fn each_fault_is_printed_in_words_and_by_its_name(rt: HostRuntime) -> Result<(), Fail> {
    let texts = [
        (FaultKind::UnknownCommand, "unknown command, UnknownCommand"),
        (FaultKind::WrongArguments, "wrong arguments, WrongArguments"),
        (FaultKind::BadNumber, "bad number, BadNumber"),
    ];
    for (kind, wanted) in &texts {
        assert!(rt; is_printed(rt.alloc(), *kind, wanted)?);
    }
    Ok(())
}
