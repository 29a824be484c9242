//! What every engine does alike: it ends with a fault, with a failure, or asks for more.
ghost use Rattle.std.specs.Prelude.{◌≡◌, ◌≢◌, ℕ, List, Option, [], ◌∷◌, ◌++◌, ◌+◌, ◌-◌, ◌<◌, ◌≤◌, length, IfErr, IfOk, Err, Ok, false};
ghost use Rattle.dc_device.specs.Bytes.{Writes};
ghost use Rattle.dc_device.specs.Device.{Settles, failures_of};
ghost use Rattle.dc_device.specs.States.{CanFail, IsCountable};
ghost use Rattle.dc_answer.specs.Answer.{Asks, Causes, Ends, LeavesSink, ReportsBy, SeesAll, SettlesBy, dry_in, fault, fault_text, sink_failures_of};
ghost use Rattle.dc_answer.specs.Exits.{exit_of};

use crate::exit::{Exit, Outcome};
use dc_device::{Broken, LineReader, LineWriter, Sink, Source};
use dc_print::{Text, append, append_number};

/// What kept an engine from its end.
#[derive(Clone, Copy, Debug, PartialEq, Eq)]
pub enum Failure {
    /// A source failed.
    Source,
    /// The sink failed.
    Sink,
    /// Memory was refused.
    Memory,
}

/// The line of a fault, `unreadable <code> at line <number>`. The code has at most 8 bytes.
pub fn print_fault(text: &mut Text, code: &[u8], number: u64)
    requires { length code.now ≤ 8 }
    ensures { text.new.items ≡ fault_text code.now number }
{
    text.clear();
    append(text, b"unreadable ");
    append(text, code);
    append(text, b" at line ");
    append_number(text, number);
}

/// Writes the last line, pushes all that waits, and lets everyone see it.
///
/// # Errors
/// `Broken` where the sink failed: that call is its last.
pub fn end_with<K: Sink>(writer: &mut LineWriter, sink: &mut K, line: &[u8]) -> Result<(), Broken>
    requires { CanFail (K.state sink.old) }
    ensures bytes { Writes (K.state sink.old).contents (K.state sink.new).contents
        (writer.old ++ (line.now ++ 10 ∷ [])) result }
    ensures empty { writer.new ≡ [] }
    ensures count { (K.state sink.new).failed ≡ (K.state sink.old).failed + failures_of result }
    ensures settled { Settles result (K.state sink.new).last_failed (K.state sink.new).hidden }
    ensures answered { (K.state sink.new).answered ≡ (K.state sink.old).answered }
{
    writer.line(sink, line)?;
    writer.flush(sink)
}

/// Ends as `Unreadable` with the line of a fault, pushes all that waits, and lets everyone see it. The code has at most
/// 8 bytes.
///
/// # Errors
/// `Sink` where the sink failed: that call is its last.
pub fn end_at<K: Sink>(
    writer: &mut LineWriter,
    sink: &mut K,
    code: &[u8],
    number: u64,
) -> Result<Outcome, Failure>
    requires short { length code.now ≤ 8 }
    requires countable { CanFail (K.state sink.old) }
    ensures bytes { Ends (K.state sink.old).contents writer.old (K.state sink.new).contents (fault code.now number) result }
    ensures empty { writer.new ≡ [] }
    ensures count { (K.state sink.new).failed ≡ (K.state sink.old).failed + failures_of result }
    ensures sink { IfErr result (λ e. e ≡ Failure.Sink) }
    ensures settled { SettlesBy result (K.state sink.new).last_failed (K.state sink.new).hidden }
    ensures answered { (K.state sink.new).answered ≡ (K.state sink.old).answered }
    ensures outcome { IfOk result (λ outcome. outcome ≡ Outcome.Unreadable) }
{
    let mut text = Text::new();
    print_fault(&mut text, code, number);
    match end_with(writer, sink, text.as_slice()) {
        Ok(()) => Ok(Outcome::Unreadable),
        Err(_) => Err(Failure::Sink),
    }
}

/// Asks the source for more, when everyone sees all that was written: whether more came.
///
/// # Errors
/// `Sink` where the sink failed: that call is its last; `Source` where the source failed.
pub fn ask<S: Source, K: Sink>(
    reader: &mut LineReader,
    source: &mut S,
    writer: &mut LineWriter,
    sink: &mut K,
) -> Result<bool, Failure>
    requires read { reader.old.bytes ≡ [] }
    requires source { IsCountable (S.state source.old) }
    requires sink { CanFail (K.state sink.old) }
    ensures bytes { Asks (S.state source.old).remaining (S.state source.new).remaining reader.new.bytes
        (K.state sink.old).contents (K.state sink.new).contents writer.old result }
    ensures empty { writer.new ≡ [] }
    ensures room { reader.new.room ≡ reader.old.room }
    ensures cause { Causes (S.state source.old).failed (S.state source.new).failed (K.state sink.old).failed
        (K.state sink.new).failed result }
    ensures settled { SettlesBy result (K.state sink.new).last_failed (K.state sink.new).hidden }
    ensures answered { SeesAll (K.state sink.new).contents (K.state sink.new).answered result }
    ensures pulls { (S.state source.new).asked ≤ (S.state source.old).asked + 1 }
    ensures dry_pulls { (S.state source.new).dry ≤ (S.state source.old).dry + dry_in result }
{
    match writer.flush(sink) {
        Err(_) => Err(Failure::Sink),
        Ok(()) => match reader.fill(source, writer, sink) {
            Ok(more) => Ok(more),
            Err(_) => Err(Failure::Source),
        },
    }
}

/// The exit of an engine that ended so. Where a source failed, or memory was refused, its line is written first;
/// where the sink failed, nothing more is.
pub fn report<K: Sink>(
    ended: Result<Outcome, Failure>,
    writer: &mut LineWriter,
    sink: &mut K,
) -> Exit
    requires seen { writer.old ≡ [] }
    requires countable { ended ≢ Err Failure.Sink → CanFail (K.state sink.old) }
    ensures reports { ReportsBy ended (K.state sink.old).contents (K.state sink.new).contents (K.state sink.old).failed (K.state sink.new).failed result }
    ensures exit { result ≡ exit_of ended }
    ensures rise { (K.state sink.old).failed ≤ (K.state sink.new).failed }
    ensures answered { (K.state sink.new).answered ≡ (K.state sink.old).answered }
    ensures quiet { IfOk ended (λ outcome. (K.state sink.new).failed ≡ (K.state sink.old).failed) }
    ensures silent { ended ≡ Err Failure.Sink → sink.new ≡ sink.old }
    ensures left { (before : ℕ) → (K.state sink.old).failed ≡ before + sink_failures_of ended
        → SettlesBy ended (K.state sink.old).last_failed (K.state sink.old).hidden
        → LeavesSink before (K.state sink.new).failed (K.state sink.new).last_failed (K.state sink.new).hidden }
{
    match ended {
        Ok(outcome) => outcome.exit(),
        Err(Failure::Sink) => Exit::Failed,
        Err(Failure::Source) => {
            let _ = end_with(writer, sink, b"failed device");
            Exit::Failed
        }
        Err(Failure::Memory) => {
            let _ = end_with(writer, sink, b"failed memory");
            Exit::Failed
        }
    }
}
