//! The example of the README: sessions by deadline, named by tokens.
#![tactic(auto, using(sorted_arena::proofs::CallerLemmas::words))]

mod sessions;

use anyhow::Result;
use sorted_arena::SortedArena;

fn main(rt: HostRuntime) -> Result<()> {
    // Users by the deadline of their session.
    let mut sessions: SortedArena<u64, &str> = SortedArena::new(rt.alloc());
    let ada = sessions.insert(100, "Ada").map_err(|refused| refused.1)?;
    let _grace = sessions.insert(120, "Grace").map_err(|refused| refused.1)?;

    // Ada's session moves behind Grace's. Her token stays valid.
    let _ = sessions.rekey(ada, 140);
    for (_token, deadline, user) in sessions.iter() {
        println!(rt; "until {deadline}: {user}")?;
    }

    // Sessions end with their deadline. From then on their tokens name nothing.
    let mut ended = Vec::new(rt.alloc());
    sessions.pop_until(&130, &mut ended)?;
    for (deadline, user) in &ended {
        println!(rt; "{user} is logged out, as of {deadline}")?;
    }

    // Ada gets another minute.
    let _ = sessions::extend(&mut sessions, ada, 60);
    println!(rt; "Ada's session: {:?}", sessions.get(ada))?;
    Ok(())
}
