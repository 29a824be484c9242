//! Certified tables in the microseconds of their document.

ghost use Rattle.dc_in_time.specs.InTime.{DocumentsKeepTime};

use crate::laws;
use dc_build::WrittenTables;

/// What a certificate that is accepted for these tables claims holds in the microseconds of their document, under each
/// clock whose ticks are of its `tick_us`: in every timed run whose sources keep the `min_us` of their parameters and
/// their own `jitter_us`, labels keep the `min_us` and `max_us` of theirs. The call does nothing.
pub fn keeps_its_documents_time(written: &WrittenTables)
    ensures { DocumentsKeepTime written.now.parts written.now.tables }
{
    written.written();
    let tables = written.tables();
    laws::accepted_keep_time(tables);
    laws::documents_round(tables);
    dc_spans::laws::spans_become_windows();
    tables.valid();
}
