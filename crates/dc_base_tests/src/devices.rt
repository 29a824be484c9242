//! What no clause says: the devices over memory, each public call once, and calls that fail in mid-stream.
ghost use Rattle.std.specs.Prelude.{Some, length, nat_lt, take, true};

use dc_device::{
    Broken, Line, LineEnd, LineReader, LineWriter, MemSink, MemSource, Nowhere, ReadSource, Sink,
    Source, Unread, WriteSink, read_at_most,
};
use std::alloc::{AllocError, Global};
use std::cell::Cell;
use std::io;
use std::io::{Read, Write};
use std::test::Fail;

#[test]
fn a_source_gives_pieces_and_fails_once(rt: HostRuntime) {
    let mut source = MemSource::new(b"abcdef", 4, 2);
    let mut buf = [0; 8];
    assert!(rt; source.pull(&mut buf) == Ok(4));
    assert!(rt; source.pull(&mut buf) == Err(Broken));
    assert!(rt; source.pull(&mut buf) == Ok(2));
    assert!(rt; source.pull(&mut buf) == Ok(0));
    assert!(rt; source.failures() == 1);
    assert!(rt; source.pulls() == 4);
    assert!(rt; source.dry_pulls() == 2);
}

#[test]
fn a_sink_is_full_and_fails_once(rt: HostRuntime) -> Result<(), Fail> {
    let mut sink = MemSink::new(rt.alloc(), 4, 2)?;
    assert!(rt; sink.push(b"ab") == Ok(2));
    assert!(rt; sink.push(b"cd") == Err(Broken));
    assert!(rt; sink.push(b"cde") == Ok(2));
    assert!(rt; sink.push(b"e") == Err(Broken));
    assert!(rt; sink.flush() == Ok(()));
    assert!(rt; sink.failures() == 2);
    assert!(rt; sink.bytes() == b"abcd".as_slice());
    Ok(())
}

#[test]
fn a_reader_and_a_writer_of_std_are_devices(rt: HostRuntime) -> Result<(), Fail> {
    let mut source = ReadSource::new(b"abc".as_slice());
    let mut buf = [0; 2];
    assert!(rt; source.pull(&mut buf) == Ok(2));
    assert!(rt; source.pull(&mut buf) == Ok(1));
    assert!(rt; source.pull(&mut buf) == Ok(0));
    assert!(rt; source.failures() == 0);
    let mut room = [0; 3];
    let mut sink = WriteSink::new(room.as_mut_slice());
    assert!(rt; sink.push(b"ab") == Ok(2));
    assert!(rt; sink.push(b"cd") == Ok(1));
    assert!(rt; sink.push(b"d") == Err(Broken));
    assert!(rt; sink.flush() == Ok(()));
    assert!(rt; sink.failures() == 1);
    Ok(())
}

/// Copies the lines of a text, each marked, until it ends.
fn copy(alloc: Global, text: &[u8], piece: usize, limit: u64) -> Result<MemSink, Fail> {
    let mut source = MemSource::new(text, piece.max(1), 0);
    let mut sink = MemSink::new(alloc, 1000, 0)?;
    let mut reader = LineReader::new(limit);
    let mut writer = LineWriter::new();
    let mut line = Line::new();
    for _ in 0..1000 {
        match reader.read_on(&mut line) {
            Some(LineEnd::Whole) => {
                writer.line(&mut sink, line.as_slice())?;
                line.clear();
            }
            Some(LineEnd::Long) => {
                writer.line(&mut sink, b"long")?;
                break;
            }
            None => {
                writer.flush(&mut sink)?;
                if !reader.fill(&mut source, &writer, &mut sink)? {
                    break;
                }
            }
        }
    }
    writer.flush(&mut sink)?;
    Ok(sink)
}

#[test]
fn lines_are_read_and_written_in_pieces_of_any_size(rt: HostRuntime) -> Result<(), Fail> {
    for piece in [1, 2, 3, 64] {
        let copied = copy(rt.alloc(), b"ab\n\ncde\nf", piece, 100)?;
        assert!(rt;
            copied.bytes() == b"ab\n\ncde\n".as_slice(),
            "in pieces of {piece}"
        );
        let limited = copy(rt.alloc(), b"ab\n\ncde\nf", piece, 4)?;
        assert!(rt;
            limited.bytes() == b"ab\n\nlong\n".as_slice(),
            "in pieces of {piece}"
        );
    }
    Ok(())
}

/// How long the next line is, which is read where it stands.
fn held_length(reader: &mut LineReader) -> Option<usize> {
    let Some(line) = reader.held_line() else {
        return None;
    };
    let length = line.len();
    reader.pass(length + 1);
    Some(length)
}

#[test]
fn a_line_is_read_where_it_stands(rt: HostRuntime) {
    let nothing = LineWriter::new();
    for (limit, first, second) in [(4, Some(2), Some(0)), (3, Some(2), None), (2, None, None)] {
        let mut source = MemSource::new(b"ab\n\nc", 9, 0);
        let mut reader = LineReader::new(limit);
        assert!(rt; reader.room() == limit);
        assert!(rt; reader.fill(&mut source, &nothing, &mut Nowhere) == Ok(true));
        assert!(rt; reader.held() == b"ab\n\nc".as_slice());
        assert!(rt; held_length(&mut reader) == first, "up to {limit}");
        assert!(rt; held_length(&mut reader) == second, "up to {limit}");
        assert!(rt; held_length(&mut reader).is_none(), "up to {limit}");
    }
}

#[test]
fn a_text_is_read_whole_up_to_its_limit(rt: HostRuntime) -> Result<(), Fail> {
    for (limit, fails_at, want) in [
        (7, 0, None),
        (6, 0, None),
        (5, 0, Some(Unread::TooLong)),
        (6, 2, Some(Unread::Device)),
    ] {
        let mut source = MemSource::new(b"abcdef", 4, fails_at);
        match read_at_most(rt.alloc(), &mut source, limit) {
            Ok(text) => {
                assert!(rt; want.is_none(), "up to {limit}");
                assert!(rt; text.as_slice() == b"abcdef".as_slice());
            }
            Err(unread) => assert!(rt; want == Some(unread), "up to {limit}"),
        }
    }
    Ok(())
}

/// A sink that takes one byte at a push.
#[derive(Drop)]
struct DripSink(MemSink);

impl DripSink {
    /// Room for 100 bytes. The push of number `fails_at`, from 1 on, fails; for 0 none does.
    fn new(alloc: Global, fails_at: u64) -> Result<Self, AllocError> {
        Ok(DripSink(MemSink::new(alloc, 100, fails_at)?))
    }
}

impl Sink for DripSink {
    ghost state = { λ s. record {
      contents = Some s.0.bytes.items;
      failed = s.0.failures;
      last_failed = s.0.has_failed;
      hidden = nat_lt s.0.shown (length s.0.bytes.items);
      answered = Some (take s.0.answered s.0.bytes.items);
    } };

    ghost has_readers = { true };

    fn push(&mut self, bytes: &[u8]) -> Result<usize, Broken> {
        let DripSink(sink) = self;
        sink.push(&bytes[..bytes.len().min(1)])
    }

    fn flush(&mut self) -> Result<(), Broken> {
        let DripSink(sink) = self;
        sink.flush()
    }

    fn note_ask(&mut self) {
        let DripSink(sink) = self;
        sink.note_ask();
    }

    fn failures(&self) -> u64 {
        self.0.failures()
    }

    fn hides(&self) -> bool {
        self.0.hides()
    }
}

#[test]
fn a_line_goes_out_byte_by_byte(rt: HostRuntime) -> Result<(), Fail> {
    let mut sink = DripSink::new(rt.alloc(), 0)?;
    let mut writer = LineWriter::new();
    assert!(rt; sink.failures() == 0);
    writer.line(&mut sink, b"abc")?;
    writer.line(&mut sink, b"")?;
    writer.line(&mut sink, b"de")?;
    writer.line_of(&mut sink, b"f", b"gh")?;
    writer.flush(&mut sink)?;
    assert!(rt; sink.0.bytes() == b"abc\n\nde\nfgh\n".as_slice());
    Ok(())
}

#[test]
fn a_sink_may_fail_at_any_push_and_is_written_again(rt: HostRuntime) -> Result<(), Fail> {
    let text = b"ab\ncd\n".as_slice();
    for pushed in 0..text.len() {
        let mut sink = DripSink::new(rt.alloc(), pushed as u64 + 1)?;
        let mut writer = LineWriter::new();
        assert!(rt; sink.failures() == 0);
        writer.line(&mut sink, b"ab")?;
        writer.line(&mut sink, b"cd")?;
        assert!(rt;
            writer.flush(&mut sink) == Err(Broken),
            "after {pushed} bytes"
        );
        assert!(rt; sink.failures() == 1);
        assert!(rt; sink.0.bytes() == &text[..pushed]);
        writer.line(&mut sink, b"e")?;
        writer.flush(&mut sink)?;
        assert!(rt; sink.failures() == 1);
        let mut again = text[..pushed].to_vec(rt.alloc())?;
        again.extend_from_slice(b"e\n")?;
        assert!(rt; sink.0.bytes() == again.as_slice());
    }
    Ok(())
}

#[test]
fn a_source_may_fail_at_any_pull_and_is_read_on(rt: HostRuntime) -> Result<(), Fail> {
    for fails_at in 1..7 {
        let mut source = MemSource::new(b"ab\nc\n", 1, fails_at);
        let mut reader = LineReader::new(100);
        let nothing = LineWriter::new();
        let mut line = Line::new();
        let mut lines = Vec::new(rt.alloc());
        let mut pulls = 0;
        for _ in 0..20 {
            if reader.read_on(&mut line).is_some() {
                lines.extend_from_slice(line.as_slice())?;
                lines.push(b'|')?;
                line.clear();
                continue;
            }
            assert!(rt; pulls < 20);
            assert!(rt; source.failures() < 20);
            pulls += 1;
            match reader.fill(&mut source, &nothing, &mut Nowhere) {
                Ok(true) => {}
                Ok(false) => break,
                Err(Broken) => assert!(rt; pulls == fails_at, "the pull that failed"),
            }
        }
        assert!(rt; lines.as_slice() == b"ab|c|".as_slice());
        assert!(rt; source.failures() == 1);
        assert!(rt; pulls == 7);
    }
    Ok(())
}

#[test]
fn a_sink_keeps_what_was_seen_at_the_last_ask(rt: HostRuntime) -> Result<(), Fail> {
    let mut sink = MemSink::new(rt.alloc(), 100, 0)?;
    assert!(rt; sink.answered() == b"".as_slice());
    assert!(rt; sink.push(b"ab") == Ok(2));
    sink.flush()?;
    sink.note_ask();
    assert!(rt; sink.push(b"c") == Ok(1));
    sink.flush()?;
    assert!(rt; sink.answered() == b"ab".as_slice());
    assert!(rt; sink.shown() == b"abc".as_slice());
    Ok(())
}

#[test]
fn a_sink_shows_nothing_until_it_is_flushed(rt: HostRuntime) -> Result<(), Fail> {
    let mut sink = MemSink::new(rt.alloc(), 100, 0)?;
    let mut writer = LineWriter::new();
    assert!(rt; sink.push(b"ab") == Ok(2));
    assert!(rt; sink.hides());
    assert!(rt; sink.shown() == b"".as_slice());
    writer.flush(&mut sink)?;
    assert!(rt; !sink.hides());
    assert!(rt; sink.shown() == b"ab".as_slice());
    writer.line(&mut sink, b"c")?;
    assert!(rt; sink.shown() == b"ab".as_slice());
    writer.flush(&mut sink)?;
    assert!(rt; sink.shown() == b"abc\n".as_slice());
    Ok(())
}

#[test]
fn a_flush_fails_at_its_number(rt: HostRuntime) -> Result<(), Fail> {
    for number in 1..4 {
        let mut sink = MemSink::new(rt.alloc(), 100, 0)?;
        sink.fail_flush(number);
        let mut writer = LineWriter::new();
        for flush in 1..6 {
            assert!(rt; sink.failures() < 10);
            writer.line(&mut sink, b"a")?;
            assert!(rt; sink.failures() < 10);
            let flushed = writer.flush(&mut sink);
            assert!(rt;
                flushed.is_err() == (flush == number),
                "flush {flush} of {number}"
            );
            assert!(rt;
                sink.hides() == (flush == number),
                "flush {flush} of {number}"
            );
        }
        assert!(rt; sink.failures() == 1);
    }
    Ok(())
}

/// A reader whose read of this number fails, and that gives one byte at each of the first five others.
#[derive(Drop)]
struct Stumbling {
    reads: u8,
    fails_at: u8,
}

impl Read for Stumbling {
    fn read(&mut self, buf: &mut [u8]) -> io::Result<usize> {
        self.reads = self.reads.saturating_add(1);
        if self.reads == self.fails_at {
            return Err(io::Error::from(io::ErrorKind::Interrupted));
        }
        if self.reads > 6 || buf.is_empty() {
            return Ok(0);
        }
        buf[0] = b'a';
        Ok(1)
    }
}

#[test]
fn a_reader_that_fails_once_is_asked_no_more(rt: HostRuntime) {
    for fails_at in 1..6 {
        let mut source = ReadSource::new(Stumbling { reads: 0, fails_at });
        let read = read_at_most(rt.alloc(), &mut source, 100);
        assert!(rt; matches!(read, Err(Unread::Device)));
        assert!(rt; source.failures() == 1);
        assert!(rt; source.dry_pulls() == 1);
        assert!(rt; source.pulls() == u64::from(fails_at));
        let mut buf = [0; 2];
        assert!(rt; source.pull(&mut buf) == Ok(1));
    }
}

/// A writer that keeps what it takes until it is flushed, and tells how often that was and how many bytes have gone on.
#[derive(Drop)]
struct Keeping<'a> {
    kept: u64,
    flushes: &'a Cell<u64>,
    gone: &'a Cell<u64>,
}

impl<'a> Write for Keeping<'a> {
    fn write(&mut self, buf: &[u8]) -> io::Result<usize> {
        self.kept = self.kept.wrapping_add(buf.len() as u64);
        Ok(buf.len())
    }

    fn flush(&mut self) -> io::Result<()> {
        self.flushes.set(self.flushes.get().wrapping_add(1));
        self.gone.set(self.gone.get().wrapping_add(self.kept));
        self.kept = 0;
        Ok(())
    }
}

#[test]
fn a_flush_reaches_the_writer(rt: HostRuntime) -> Result<(), Fail> {
    let (flushes, gone) = (Cell::new(0), Cell::new(0));
    let mut sink = WriteSink::new(Keeping {
        kept: 0,
        flushes: &flushes,
        gone: &gone,
    });
    let mut writer = LineWriter::new();
    for lines in 1u64..4 {
        assert!(rt; sink.failures() < 10);
        writer.line(&mut sink, b"ab")?;
        assert!(rt; gone.get() == 3 * (lines - 1));
        assert!(rt; sink.failures() < 10);
        writer.flush(&mut sink)?;
        assert!(rt; gone.get() == 3 * lines);
    }
    assert!(rt; flushes.get() == 3);
    assert!(rt; sink.failures() < 10);
    writer.flush(&mut sink)?;
    assert!(rt; flushes.get() == 3);
    assert!(rt; sink.failures() < 10);
    assert!(rt; sink.flush() == Ok(()));
    assert!(rt; flushes.get() == 4);
    Ok(())
}

#[test]
fn a_source_is_pulled_at_most_once_more_than_its_limit(rt: HostRuntime) -> Result<(), Fail> {
    let text = b"abcdef".as_slice();
    for (limit, pulls, dry) in [(5, 6, 0), (6, 7, 1), (7, 7, 1)] {
        let mut source = MemSource::new(text, 1, 0);
        let read = read_at_most(rt.alloc(), &mut source, limit);
        assert!(rt; read.is_ok() == (limit > 5), "up to {limit}");
        assert!(rt; source.pulls() == pulls, "up to {limit}");
        assert!(rt; source.dry_pulls() == dry, "up to {limit}");
    }
    Ok(())
}
