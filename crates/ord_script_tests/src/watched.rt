//! Watched readers and writers: they retry nothing, and mark a failure and the end.
use crate::support::{Failure, Sink, Source, failing};
use ord_script::Watched;
use std::io::{Read, Write};

#[test]
fn a_watched_reader_calls_its_reader_once_a_read(rt: HostRuntime) {
    for at in 0usize..4 {
        let mut source = Source {
            bytes: b"abc",
            pace: failing(at, Failure::Interrupted),
        };
        let mut reader = Watched::new(&mut source);
        for call in 0usize..5 {
            let mut byte = [0];
            let result = reader.read(&mut byte);
            assert!(rt; result.is_err() == (call == at));
            assert!(rt; (reader.failed(), reader.ended()) == (call >= at, call == 4));
        }
        assert!(rt; source.pace.calls == 5);
        assert!(rt; source.bytes.is_empty());
    }
}

#[test]
fn a_watched_writer_calls_its_writer_once_a_write(rt: HostRuntime) {
    for at in 0usize..4 {
        for failure in [Failure::Interrupted, Failure::Nothing] {
            let mut sink = Sink {
                bytes: Vec::new(rt.alloc()),
                pace: failing(at, failure),
                flushes: 0,
            };
            let mut writer = Watched::new(&mut sink);
            for call in 0usize..4 {
                let is_well = matches!(writer.write(b"xy"), Ok(1));
                assert!(rt; (is_well, writer.failed()) == (call != at, call >= at));
            }
            assert!(rt; writer.flush().is_ok());
            assert!(rt; (sink.pace.calls, sink.flushes) == (4, 1));
            assert!(rt; sink.bytes.as_slice() == b"xxx".as_slice());
        }
    }
}
