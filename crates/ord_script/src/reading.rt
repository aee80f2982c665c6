//! Reading a whole input, up to a limit, without retries.
ghost use Rattle.std.specs.Prelude.{◌≡◌, ◌||◌, ◌≤◌, ◌+◌, vec_len, is_ok};
ghost use Rattle.std.specs.Result.{result_map_both};
ghost use Rattle.ord_script.specs.Devices.{limit, is_failure, is_end, ReadsSome, ReadsAll};

use crate::watched::Watched;
use std::alloc::{AllocError, Allocator};
use std::io::Read;

/// The greatest number of bytes in a script.
const LIMIT: usize = 1_048_576;

/// The greatest number of bytes in one read.
const CHUNK: usize = 4096;

/// Why an input wasn't read.
#[derive(Clone, Copy, Debug)]
pub enum ReadError {
    TooLong,
    Memory,
    Failed,
}

impl From<AllocError> for ReadError {
    ghost use Rattle.std.specs.Prelude.{◌≡◌};
    ghost use Rattle.ord_script.specs.declared.reading.ReadError.TheVariants.{Memory};

    ghost from_gives = { λ _ error. error ≡ Memory };

    fn from(_error: AllocError) -> Self {
        ReadError::Memory
    }
}

/// Reads all bytes up to the reader's end. Stops at the first byte beyond the limit, or at the first read that fails.
pub fn read_all<R: Read, A: Allocator>(
    alloc: A,
    reader: &mut Watched<R>,
) -> Result<Vec<u8, A>, ReadError>
    ensures bytes { ReadsAll (result_map_both (λ v. v.items) (λ e. e) result)
        (R.remaining reader.old.device) (R.remaining reader.new.device) }
    ensures failed { reader.new.failed ≡ (reader.old.failed || is_failure result) }
    ensures ended { reader.new.ended ≡ (reader.old.ended || is_ok result) }
{
    let mut bytes = Vec::new(alloc);
    while bytes.len() <= LIMIT {
        if read_some(reader, &mut bytes)? == 0 {
            return Ok(bytes);
        }
    }
    Err(ReadError::TooLong)
}

/// Reads once, at most one byte beyond the limit, and returns how many bytes came. A read that fails takes none.
fn read_some<R: Read, A: Allocator>(
    reader: &mut Watched<R>,
    bytes: &mut Vec<u8, A>,
) -> Result<usize, ReadError>
    requires { vec_len bytes.old ≤ limit }
    ensures bytes { ReadsSome result (R.remaining reader.old.device) (R.remaining reader.new.device)
        bytes.old.items bytes.new.items }
    ensures bound { vec_len bytes.new ≤ limit + 1 }
    ensures failed { reader.new.failed ≡ (reader.old.failed || is_failure result) }
    ensures ended { reader.new.ended ≡ (reader.old.ended || is_end result) }
{
    let mut chunk = [0; CHUNK];
    let room = CHUNK.min(LIMIT + 1 - bytes.len());
    let Ok(count) = reader.read(&mut chunk[..room]) else {
        return Err(ReadError::Failed);
    };
    bytes.extend_from_slice(&chunk[..count])?;
    Ok(count)
}
