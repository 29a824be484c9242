//! Words decoded onto a sink whose flush fails: no command has one.

use dc_device::{MemSink, MemSource, Sink, Source};
use dc_run::run_decode;
use dc_word::Format;
use std::rt::HostRuntime;
use std::test::Fail;

const FIRST: &[u8] = b"600000C1 label=203 sdi=0 data=0 status=normal parity=odd\n";

#[test]
fn nothing_is_written_after_a_flush_that_failed(rt: HostRuntime) -> Result<(), Fail> {
    // Each line is flushed by itself where the pieces are lines, and at the end nothing is left to flush.
    for (number, lines, want) in [(1, 1, 3), (2, 2, 3), (3, 2, 0)] {
        let mut source = MemSource::new(b"600000C1\n600000C1\n", 9, 0);
        let mut sink = MemSink::new(rt.alloc(), 1000, 0)?;
        sink.fail_flush(number);
        let status = run_decode(Format::Bnr, &mut source, &mut sink).code();
        assert!(rt; status == want, "flush {number}");
        assert!(rt; sink.bytes().len() == FIRST.len() * lines, "flush {number}");
        assert!(rt; sink.hides() == (want == 3), "flush {number}");
        assert!(rt;
            source.dry_pulls() == (u64::from(want == 0)),
            "flush {number}"
        );
    }
    Ok(())
}
