//! A leaderboard: players by their scores, each with a pointer that stays valid when the score changes.
#![tactic(auto, using(sorted_arena::proofs::CallerLemmas::words))]

use anyhow::Result;
use sorted_arena::SortedArena;

fn main(rt: HostRuntime) -> Result<()> {
    // The least score comes first. Of equal scores, the one that came first is first.
    let mut board: SortedArena<u64, &str> = SortedArena::new(rt.alloc());
    let ada = board.insert(1200, "Ada").map_err(|refused| refused.1)?;
    let _ = board.insert(1350, "Grace").map_err(|refused| refused.1)?;
    let edsger = board.insert(1100, "Edsger").map_err(|refused| refused.1)?;
    let _ = board.insert(1280, "Barbara").map_err(|refused| refused.1)?;

    // Ada wins a game, and her pointer stays valid.
    let before = board.rekey(ada, 1290);
    println!(rt; "Ada had {:?}, and has {:?}", before.ok(), board.key(ada))?;

    println!(rt; "the best two:")?;
    for player in board.iter().values_descending().take(2) {
        println!(rt; "  {player}")?;
    }

    // Her neighbours, each in constant time.
    if let Some(ahead) = board.next(ada) {
        println!(rt; "ahead of Ada: {:?}", board.get(ahead))?;
    }
    if let Some(behind) = board.prev(ada) {
        println!(rt; "behind Ada: {:?}", board.get(behind))?;
    }

    println!(rt; "from 1200 up to 1299:")?;
    for (_pointer, score, player) in board.range(1200..1300) {
        println!(rt; "  {score} {player}")?;
    }

    // Edsger leaves. From then on his pointer names nothing.
    let gone = board.remove(edsger);
    println!(rt; "left: {gone:?}, found again: {}", board.contains(edsger))?;
    Ok(())
}
