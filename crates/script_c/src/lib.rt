//! Scripts for C: bytes in, the answer out, into the caller's buffer.
#![tactic(auto)]

ghost use Rattle.script_c.specs.Answer.{IsAnswered, RunsInto};

use ord_script::{ScriptEnd, Watched, serve};
use std::alloc::Global;
use std::collections::VecDeque;
use std::io::Read;

/// Runs a script on an empty arena, as the program `ordrun` does, and writes its answer into `out` as far as there is room.
///
/// Writes the length of the whole answer into `answer_length`: if it is more than `out` has, the caller asks again with more room.
/// Returns the status with which `ordrun` would exit. If memory is refused while the answer is written, that is 6, and the answer is a
/// beginning of the whole one.
#[unsafe(no_mangle)]
pub extern "C" fn topscedar_run(
    alloc: Global,
    script: &[u8],
    out: &mut [u8],
    answer_length: &mut usize,
) -> u8
    ensures { RunsInto script.now out.old out.new answer_length.new result }
{
    let (end, answer) = answer_to(alloc, script);
    let room = answer.len().min(out.len());
    out[..room].copy_from_slice(&answer[..room]);
    *answer_length = answer.len();
    end.status()
}

// How a script ends, and its answer. It is written into a queue, from which it is read back.
fn answer_to(alloc: Global, script: &[u8]) -> (ScriptEnd, Vec<u8>)
    ensures { IsAnswered script.now result.0 result.1.items }
{
    let mut sheet: Watched<VecDeque<u8>> = Watched::new(VecDeque::new(alloc));
    let end = serve(alloc, &mut Watched::new(script), &mut sheet);
    let mut answer = Vec::new(alloc);
    match sheet.read_to_end(&mut answer) {
        Ok(_) => (end, answer),
        Err(_) => (ScriptEnd::Memory, Vec::new(alloc)),
    }
}

#[cfg(test)]
mod tests {
    use super::topscedar_run;

    #[test]
    fn answers_a_script(rt: HostRuntime) {
        let script = b"insert 50 1\nlist\n";
        let (mut out, mut length) = ([b'#'; 40], 0);
        assert!(rt; topscedar_run(rt.alloc(), script, &mut out, &mut length) == 0);
        assert!(rt; length == 22 && out.starts_with(b"new 1.2\nlist 1.2=50:1\n#"));
    }
}
