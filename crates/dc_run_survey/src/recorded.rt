//! The survey of a capture, read from a source.
ghost use Rattle.std.specs.Prelude.{◌≡◌, ◌≢◌, ◌+◌, ◌<◌, [], IfErr, IfOk, IfSome, length};
ghost use Rattle.dc_capture.specs.CaptureText.{capture_of};
ghost use Rattle.dc_capture.specs.declared.capture_lines.TheConstants.{CAPTURE_LIMIT};
ghost use Rattle.dc_device.specs.States.{AsksUpTo, IsCountable};
ghost use Rattle.dc_run_survey.specs.Answer.{AreDeclared, IsSurveyed, declared_timing, failures_in};
ghost use Rattle.dc_survey.specs.Surveys.{AllMade, IsSized, Surveys, no_timing};

use dc_answer::Unjudged;
use dc_build::WrittenTables;
use dc_capture::{CAPTURE_LIMIT, CaptureFault, CaptureLines, CaptureStop};
use dc_device::{LineWriter, Nowhere, Source};
use dc_drift::declared_source;
use dc_gauge::StreamTiming;
use dc_in_time::laws::documents_round;
use dc_survey::Survey;
use dc_tables::Tables;
use std::alloc::{AllocError, Global};

/// What was read of a capture.
#[derive(Drop)]
pub struct Surveyed {
    /// The numbers of its words.
    pub survey: Survey,
    /// Its first fault, where it has one.
    pub fault: Option<CaptureFault>,
}

/// What the document declares of a stream.
fn declared_timing(written: &WrittenTables, stream: usize) -> StreamTiming
    ensures { result ≡ declared_timing written.now stream }
{
    let declared = declared_source(written, stream);
    StreamTiming {
        min_us: declared.least as u32,
        max_us: declared.most as u32,
        jitter_us: declared.jitter as u32,
    }
}

/// What it declares of each, in the order of their rows.
fn declared_timings(alloc: Global, written: &WrittenTables) -> Result<Vec<StreamTiming>, AllocError>
    ensures { IfOk result (λ v. AllMade (declared_timing written.now) no_timing (length written.now.tables.streams) v.items) }
{
    let mut timings = Vec::new(alloc);
    for stream in 0..written.tables().stream_count() {
        timings.push(declared_timing(written, stream))?;
    }
    Ok(timings)
}

/// The survey of no word, by what the document declares.
fn begin(alloc: Global, written: &WrittenTables) -> Result<Survey, AllocError>
    ensures sized { IfOk result (λ v. IsSized written.now.tables v) }
    ensures declared { IfOk result (λ v. AreDeclared written.now v) }
    ensures surveys { IfOk result (λ v. Surveys written.now.tables [] v) }
{
    written.written();
    let tables = written.tables();
    tables.valid();
    documents_round(tables);
    let timings = declared_timings(alloc, written)?;
    Survey::new(alloc, tables, timings)
}

/// Takes each word of a capture, up to its first fault, which is the answer.
///
/// # Errors
/// `Device` where the source failed.
fn take_words<S: Source>(
    tables: &Tables,
    survey: &mut Survey,
    capture: &mut S,
) -> Result<Option<CaptureFault>, Unjudged>
    requires countable { IsCountable (S.state capture.old) }
    requires sized { IsSized tables.now survey.old }
    requires start { Surveys tables.now [] survey.old }
    ensures sized { IsSized tables.now survey.new }
    ensures timings { survey.new.timings ≡ survey.old.timings }
    ensures surveys { IfSome (S.state capture.old).remaining (λ text. IfOk result (λ fault.
        Surveys tables.now (capture_of tables.now CAPTURE_LIMIT text).words survey.new × (fault ≡ (capture_of tables.now CAPTURE_LIMIT text).fault))) }
    ensures count { (S.state capture.new).failed ≡ (S.state capture.old).failed + failures_in result }
    ensures asks { AsksUpTo CAPTURE_LIMIT (S.state capture.old) (S.state capture.new) }
    ensures cause { IfErr result (λ e. e ≡ Unjudged.Device) }
{
    let mut lines = CaptureLines::new(tables, CAPTURE_LIMIT);
    let unwatched = LineWriter::new();
    loop {
        match lines.advance() {
            None => lines.pull(capture, &unwatched, &mut Nowhere),
            Some(Err(CaptureStop::End)) => return Ok(None),
            Some(Err(CaptureStop::Fault(fault))) => return Ok(Some(fault)),
            Some(Err(CaptureStop::Broken)) => return Err(Unjudged::Device),
            Some(Ok(word)) => survey.take(tables, word.time, word.bus, word.word),
        }
    }
}

/// The survey of a source's capture, up to its first fault, by what the document declares: memory by the tables.
///
/// # Errors
/// `Device` where the source failed, `Memory` where memory was refused.
pub fn survey_capture<S: Source>(
    alloc: Global,
    written: &WrittenTables,
    capture: &mut S,
) -> Result<Surveyed, Unjudged>
    requires { IsCountable (S.state capture.old) }
    ensures sized { IfOk result (λ r. IsSized written.now.tables r.survey) }
    ensures surveyed { IfSome (S.state capture.old).remaining (λ text. IfOk result (IsSurveyed written.now (capture_of written.now.tables CAPTURE_LIMIT text))) }
    ensures count { (S.state capture.new).failed ≡ (S.state capture.old).failed + failures_in result }
    ensures asks { AsksUpTo CAPTURE_LIMIT (S.state capture.old) (S.state capture.new) }
    ensures threads { IfErr result (λ e. e ≢ Unjudged.Threads) }
{
    let Ok(mut survey) = begin(alloc, written) else {
        return Err(Unjudged::Memory);
    };
    let fault = take_words(written.tables(), &mut survey, capture)?;
    Ok(Surveyed { survey, fault })
}
