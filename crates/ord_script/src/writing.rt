//! Writing a whole text, without retries.
ghost use Rattle.std.specs.Prelude.{◌≡◌, ◌||◌, ◌∷◌, ◌++◌, [], is_err};
ghost use Rattle.ord_script.specs.Devices.{WritesAll};

use crate::watched::Watched;
use std::io::Write;

/// The writer returned an error, or took none of the bytes that were left.
#[derive(Clone, Copy, Debug)]
pub struct WriteFailed;

/// Writes the bytes, as many at a time as the writer takes, until it fails.
pub fn write_all<W: Write>(writer: &mut Watched<W>, bytes: &[u8]) -> Result<(), WriteFailed>
    ensures bytes { WritesAll result
        (W.contents writer.old.device) (W.contents writer.new.device) bytes.now }
    ensures failed { writer.new.failed ≡ (writer.old.failed || is_err result) }
    ensures ended { writer.new.ended ≡ writer.old.ended }
{
    let mut rest = bytes;
    while !rest.is_empty() {
        match writer.write(rest) {
            Ok(0) | Err(_) => return Err(WriteFailed),
            Ok(count) => rest = &rest[count..],
        }
    }
    Ok(())
}

/// Writes the text and a line feed, until the writer fails.
pub fn write_line<W: Write>(writer: &mut Watched<W>, text: &str) -> Result<(), WriteFailed>
    ensures bytes { WritesAll result
        (W.contents writer.old.device) (W.contents writer.new.device) (text.now ++ 10 ∷ []) }
    ensures failed { writer.new.failed ≡ (writer.old.failed || is_err result) }
    ensures ended { writer.new.ended ≡ writer.old.ended }
{
    write_all(writer, text.as_bytes())?;
    write_all(writer, b"\n")
}
