//! A room's calendar: who has booked it, and when it is free.
#![tactic(auto)]

ghost use Rattle.std.specs.Prelude.{◌≡◌, IfOk};

use anyhow::Result;
use std::alloc::{AllocError, Global};
use timeline::{Text, Timeline};

fn main(rt: HostRuntime) -> Result<()> {
    // Times are hours of a day here. They could be seconds: what counts is the order.
    let mut room: Timeline<Text> = Timeline::new(rt.alloc());
    room.set(9, 12, text("Ada", rt.alloc())?)?;
    room.set(14, 17, text("Grace", rt.alloc())?)?;

    // Ada stays for an hour of Grace's time: what was there before gives way, and her two spans are kept apart by the gap.
    room.set(14, 15, text("Ada", rt.alloc())?)?;

    for span in room.spans(0, 24) {
        println!(rt; "{} to {}: {}", span.from, span.until, span.value.as_str())?;
    }
    for gap in room.gaps(9, 17) {
        println!(rt; "free from {} to {}", gap.from, gap.until)?;
    }
    if let Some(who) = room.get(14) {
        println!(rt; "at 14: {}", who.as_str())?;
    }
    println!(rt; "free for ever from {:?}", room.next_change(15))?;
    Ok(())
}

/// Returns a name as a value of a timeline.
fn text(name: &str, alloc: Global) -> Result<Text, AllocError>
    ensures { IfOk result (λ text. text ≡ name.now) }
{
    Ok(Text::new(String::from_str(alloc, name)?))
}
