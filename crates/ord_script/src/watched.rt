//! Devices that remember whether they failed and whether they ended.
ghost use Rattle.std.specs.Prelude.{◌≡◌, ◌||◌, false, is_err, length};
ghost use Rattle.std.specs.Io.{ReadsAtMost, WritesAtMost};
ghost use Rattle.std.specs.Io.KnownBytes.{Keeps, ReadConsumes, WriteAppends};
ghost use Rattle.ord_script.specs.Devices.{moves_none};

use std::io;
use std::io::{Read, Write};
use std::marker::Model;

/// A device that passes every read and write through unchanged, and remembers whether a call failed and whether a read met the end.
#[derive(Debug, Drop)]
pub struct Watched<D> {
    device: D,
    failed: bool,
    ended: bool,
}

impl<D> Model for Watched<D> {
    ghost use Rattle.ord_script.specs.Devices.{Watch};

    ghost Value = { Watch D };

    ghost view = { λ w. record { device = w.device; failed = w.failed; ended = w.ended } };
}

impl<D> Watched<D> {
    /// Watches a device from now on.
    pub fn new(device: D) -> Self
        ensures device { result.device ≡ device }
        ensures failed { result.failed ≡ false }
        ensures ended { result.ended ≡ false }
    {
        Watched {
            device,
            failed: false,
            ended: false,
        }
    }

    /// Returns whether a read or a write has failed, or a write has taken none of some bytes.
    pub fn failed(&self) -> bool
        ensures { result ≡ self.now.failed }
    {
        self.failed
    }

    /// Returns whether a read into a buffer with room has found no byte left.
    pub fn ended(&self) -> bool
        ensures { result ≡ self.now.ended }
    {
        self.ended
    }
}

impl<D: Read> Read for Watched<D> {
    ghost remaining = { λ w. D.remaining w.device };

    fn read(&mut self, buf: &mut [u8]) -> io::Result<usize>
        ensures bound { ReadsAtMost result buf.new }
        ensures bytes { ReadConsumes (D.remaining self.old.device) (D.remaining self.new.device)
            result buf.new }
        ensures failed { self.new.failed ≡ (self.old.failed || is_err result) }
        ensures ended { self.new.ended ≡ (self.old.ended || moves_none result (length buf.old)) }
    {
        let room = buf.len();
        let result = self.device.read(buf);
        match &result {
            Ok(0) => self.ended = self.ended || room > 0,
            Ok(_) => {}
            Err(_) => self.failed = true,
        }
        result
    }
}

impl<D: Write> Write for Watched<D> {
    ghost contents = { λ w. D.contents w.device };

    fn write(&mut self, buf: &[u8]) -> io::Result<usize>
        ensures bound { WritesAtMost result buf.now }
        ensures bytes { WriteAppends (D.contents self.old.device) (D.contents self.new.device)
            result buf.now }
        ensures failed { self.new.failed
            ≡ (self.old.failed || is_err result || moves_none result (length buf.now)) }
        ensures ended { self.new.ended ≡ self.old.ended }
    {
        let result = self.device.write(buf);
        match &result {
            Ok(0) => self.failed = self.failed || !buf.is_empty(),
            Ok(_) => {}
            Err(_) => self.failed = true,
        }
        result
    }

    /// Flushes the device. No mark changes.
    fn flush(&mut self) -> io::Result<()>
        ensures bytes { Keeps (D.contents self.old.device) (D.contents self.new.device) }
        ensures failed { self.new.failed ≡ self.old.failed }
        ensures ended { self.new.ended ≡ self.old.ended }
    {
        self.device.flush()
    }
}
