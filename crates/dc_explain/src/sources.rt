//! Words that sources may not bring.
use crate::lines::{Line, TICK};
use crate::ran::Ran;
use crate::trace::field;
use dc_document::Name;
use dc_keep::Kept;
use dc_tables::Tables;
use dc_tell::Explanation;
use dc_tell::Value::{Number, Text, Ticks};
use dc_word::{Word, digit_in};

/// The word that a field of a line writes.
fn word_in(field: &[u8]) -> Option<Word> {
    let mut bits = 0u32;
    for byte in field {
        let Some(digit) = digit_in(16, *byte) else {
            return None;
        };
        bits = bits.wrapping_shl(4) | digit;
    }
    Some(Word(bits))
}

/// The bus and the stream of a line that says that a word of one comes.
fn arrival(line: &[u8], tables: &Tables) -> Option<(usize, usize)> {
    let (kind, _) = field(line, 0);
    let (name, _) = field(line, 1);
    let (word, _) = field(line, 2);
    if kind != b"A".as_slice() {
        return None;
    }
    let Some(name) = Name::new(name) else {
        return None;
    };
    let Some(bus) = tables.bus_named(&name) else {
        return None;
    };
    let Some(word) = word_in(word) else {
        return None;
    };
    let Some(stream) = tables.stream_of(bus, word) else {
        return None;
    };
    if bus < tables.bus_count() && word.is_odd() {
        Some((bus, stream))
    } else {
        None
    }
}

/// A stream with its bus, and what is asked of the two.
#[derive(Clone, Copy)]
struct Asked {
    /// The number of the bus.
    bus: usize,
    /// The number of the stream.
    stream: usize,
    /// What the bus is called.
    bus_name: Name,
    /// What the stream is called.
    stream_name: Name,
    /// So many ticks its words come apart or more ..
    minimum: u64,
    /// .. but for a jitter of so many.
    jitter: u64,
    /// For so many microseconds a word fills the wire.
    spacing_us: u64,
    /// So many microseconds a tick lasts.
    tick_us: u64,
}

/// What is asked of the stream and of the wire of a line that says that a word comes.
fn asked_of(line: &[u8], tables: &Tables) -> Option<Asked> {
    let Some((bus, stream)) = arrival(line, tables) else {
        return None;
    };
    if bus >= tables.bus_count() || stream >= tables.stream_count() {
        return None;
    }
    let row = tables.stream(stream);
    Some(Asked {
        bus,
        stream,
        bus_name: *tables.bus_name(bus),
        stream_name: *tables.stream_name(stream),
        minimum: u64::from(row.minimum),
        jitter: u64::from(row.jitter),
        spacing_us: u64::from(tables.bus(bus).spacing),
        tick_us: u64::from(tables.tick_us()),
    })
}

/// What a stream and the wire of its bus brought before a line, as far as that was kept.
#[derive(Clone, Copy)]
struct Brought {
    /// In which tick the stream's last word came, where one did.
    last: Option<u64>,
    /// From which tick on its next one may come, without jitter.
    next: u64,
    /// Up to which microsecond, from tick 0 on, the wire is filled.
    filled_us: u64,
}

impl Brought {
    /// A word of this bus and this stream comes in a tick.
    fn take(&mut self, asked: &Asked, bus: usize, stream: usize, tick: u64) {
        if bus != asked.bus {
            return;
        }
        let begin_us = tick.saturating_mul(asked.tick_us);
        self.filled_us = self
            .filled_us
            .max(begin_us)
            .saturating_add(asked.spacing_us);
        if stream == asked.stream {
            self.last = Some(tick);
            self.next = self.next.max(tick).saturating_add(asked.minimum);
        }
    }
}

/// What was brought before a line.
fn brought_before(kept: &Kept, line: &Line<'_>, tables: &Tables, asked: &Asked) -> Brought {
    let mut brought = Brought {
        last: None,
        next: 0,
        filled_us: 0,
    };
    let mut number = kept.before.lines.saturating_add(1);
    let mut tick = kept.before.ticks;
    let mut from = 0usize;
    let text = kept.text.as_slice();
    for (at, byte) in text.iter().enumerate() {
        if *byte != b'\n' || number >= line.number {
            continue;
        }
        let bytes = text.get(from..at).unwrap_or(b"");
        if let Some((bus, stream)) = arrival(bytes, tables) {
            brought.take(asked, bus, stream, tick);
        }
        tick = tick.saturating_add(u64::from(bytes == TICK));
        number = number.saturating_add(1);
        from = at.saturating_add(1);
    }
    brought
}

/// Tells that a stream sent too soon, by so many ticks; or, where that is none, that it did or its wire brought more than it
/// carries, since the lines before were not kept so far back.
fn tell_early(out: &mut Explanation, tick: u64, asked: &Asked, early: u64) {
    out.say(
        "in tick {} a word of stream `{}` comes ",
        &[Number(tick), Text(asked.stream_name.as_str())],
    );
    if early > 0 {
        out.put(Ticks(early, asked.tick_us));
        out.add(" ");
    }
    out.add("sooner than it may: its words come ");
    out.put(Ticks(asked.minimum, asked.tick_us));
    out.add(" apart or more");
    if asked.jitter > 0 {
        out.add(", with a jitter of ");
        out.put(Ticks(asked.jitter, asked.tick_us));
    }
    if early == 0 {
        out.add("; or it is one word more than the wire of bus `");
        out.put(Text(asked.bus_name.as_str()));
        out.add("` carries");
    }
}

/// Tells which stream or wire broke what is asked of it, by how much, and when it brought its last word, where the line
/// is a word of one.
pub(crate) fn tell_source(
    out: &mut Explanation,
    ran: &Ran<'_>,
    line: &Line<'_>,
    tables: &Tables,
) -> bool {
    let Some(asked) = asked_of(line.bytes, tables) else {
        return false;
    };
    let brought = brought_before(ran.input, line, tables, &asked);
    let may = line.tick.saturating_add(asked.jitter);
    let early = brought.next.saturating_sub(may);
    let end_us = line.tick.saturating_add(1).saturating_mul(asked.tick_us);
    let over_us = brought.filled_us.saturating_sub(end_us);
    if early == 0 && over_us > 0 {
        out.say(
            "in tick {} comes one word more than the wire of bus `{}` carries: those before it fill it for {} microseconds behind the end of the tick",
            &[
                Number(line.tick),
                Text(asked.bus_name.as_str()),
                Number(over_us),
            ],
        );
    } else {
        tell_early(out, line.tick, &asked, early);
    }
    line.show(out, 0);
    if let Some(last) = brought.last {
        out.note(
            "the last word of stream `{}` before it came in tick {}",
            &[Text(asked.stream_name.as_str()), Number(last)],
        );
    }
    true
}
