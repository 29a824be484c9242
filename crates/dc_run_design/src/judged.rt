//! A text of tables is judged as it is to be written.
ghost use Rattle.std.specs.Prelude.{IfOk};
ghost use Rattle.dc_cert.specs.NamedRows.{named_rows};
ghost use Rattle.dc_build.specs.Reported.{AreWrittenBy};
ghost use Rattle.dc_check.specs.Certified.{KeepsItsClaims};
ghost use Rattle.dc_find.specs.Least.{IsLeastAccepted};
ghost use Rattle.dc_rows_kept.specs.KeepsRows.{KeepsRows};
ghost use Rattle.dc_toml.specs.Reading.{tables_of};
ghost use Rattle.dc_run_design.specs.Design.{IsCertified};

use dc_build::{WrittenTables, read_written};
use dc_cell::{Inputs, Outputs};
use dc_cert::Certificate;
use dc_check::Condition;
use dc_check::laws::accepted_certificates_keep_their_claims;
use dc_design_rows::{Fact, Letters};
use dc_document::{BuildError, TableFault};
use dc_find::{FindFault, Queue, find};
use dc_rows_kept::{Unkept, keeps_rows};
use dc_tables::Tables;
use std::alloc::Global;

/// The sheets that tables are to keep.
#[derive(Clone, Copy)]
pub(crate) struct Wanted<'a> {
    /// The sheet of the inputs.
    pub(crate) inputs: &'a Inputs,
    /// The sheet of the outputs.
    pub(crate) outputs: &'a Outputs,
}

/// What a judge says: a sentence, in which each `{}` is a hole for the next of these facts.
#[derive(Clone, Copy)]
pub(crate) struct Said {
    pub(crate) sentence: &'static str,
    pub(crate) first: Fact,
    pub(crate) second: Fact,
    pub(crate) third: Fact,
}

/// Why a text of tables does not pass.
#[derive(Clone, Copy)]
pub(crate) enum Unfit {
    /// It is none of tables.
    Unread(TableFault),
    /// A judge refuses it, and says this.
    Told(Said),
    /// Memory was refused.
    NoMemory,
}

impl Said {
    /// A sentence with up to two holes.
    pub(crate) fn new(sentence: &'static str, first: Fact, second: Fact) -> Said {
        Said {
            sentence,
            first,
            second,
            third: Fact::Word(""),
        }
    }
}

/// That no window of a queue closes, or that it is too short.
fn queue_said(tables: &Tables, code: Fact, queue: Queue) -> Said {
    match queue {
        Queue::Input(bus) if bus < tables.bus_count() => {
            let name = Letters::of(tables.bus_name(bus).text());
            Said::new("refused {} input {}", code, Fact::Name(name))
        }
        Queue::Output(output) if output < tables.output_count() => {
            let name = Letters::of(tables.output_name(output).text());
            Said::new("refused {} output {}", code, Fact::Name(name))
        }
        _ => Said::new("refused {} ", code, Fact::Word("")),
    }
}

/// That a label breaks a condition.
fn label_said(tables: &Tables, code: Fact, label: usize, condition: Condition) -> Said {
    if label >= tables.label_count() {
        return Said::new("refused {} ", code, Fact::Word(""));
    }
    let name = Letters::of(tables.label_name(label).text());
    Said {
        sentence: "refused {} label {} {}",
        first: code,
        second: Fact::Name(name),
        third: Fact::Word(condition.code()),
    }
}

/// What stands in the way of every certificate.
fn obstacle_of(tables: &Tables, fault: FindFault) -> Unfit {
    let Some(obstacle) = fault.obstacle() else {
        return Unfit::NoMemory;
    };
    let code = Fact::Word(obstacle.code());
    match fault {
        FindFault::WindowNeverCloses(queue) => Unfit::Told(queue_said(tables, code, queue)),
        FindFault::QueueTooShort(bus) => Unfit::Told(queue_said(tables, code, Queue::Input(bus))),
        FindFault::LabelRule(label, condition) => {
            Unfit::Told(label_said(tables, code, label, condition))
        }
        FindFault::Memory => Unfit::NoMemory,
    }
}

/// That tables do not keep a row of this sheet.
fn row_said(sheet: &'static str, row: u32) -> Said {
    let number = Fact::Number(u64::from(row));
    Said::new(
        "the tables do not keep {} row {}",
        Fact::Word(sheet),
        number,
    )
}

/// That tables have not as many parts as this sheet has rows.
fn count_said(sheet: &'static str) -> Said {
    let sentence = "the tables do not keep the count of {}";
    Said::new(sentence, Fact::Word(sheet), Fact::Word(""))
}

/// What is not kept, by the numbers at the margins of the sheets.
fn unkept_of(wanted: &Wanted<'_>, unkept: Unkept) -> Said {
    match unkept {
        Unkept::StreamCount => count_said("inputs"),
        Unkept::LabelCount => count_said("outputs"),
        Unkept::Input(place) => match wanted.inputs.rows.get(place) {
            Some(row) => row_said("inputs", row.row),
            None => count_said("inputs"),
        },
        Unkept::Output(place) => match wanted.outputs.rows.get(place) {
            Some(row) => row_said("outputs", row.row),
            None => count_said("outputs"),
        },
    }
}

/// The tables that a text says, beside their document.
pub(crate) fn read_back(alloc: Global, text: &[u8]) -> Result<WrittenTables, Unfit>
    ensures { IfOk result (λ w. AreWrittenBy (tables_of text.now) w) }
{
    match read_written(alloc, text) {
        Ok(written) => Ok(written),
        Err(BuildError::Refused(fault)) => Err(Unfit::Unread(fault)),
        Err(BuildError::Memory(_)) => Err(Unfit::NoMemory),
    }
}

/// The least certificate for tables.
pub(crate) fn certify_tables(alloc: Global, tables: &Tables) -> Result<Certificate, Unfit>
    ensures least { IfOk result (λ c. IsLeastAccepted tables.now (named_rows c)) }
    ensures claimed { IfOk result (λ c. KeepsItsClaims tables.now (named_rows c)) }
{
    accepted_certificates_keep_their_claims(tables);
    match find(alloc, tables) {
        Ok(certificate) => Ok(certificate),
        Err(fault) => Err(obstacle_of(tables, fault)),
    }
}

/// The least certificate for tables that keep both sheets.
fn certify_written(
    alloc: Global,
    wanted: &Wanted<'_>,
    written: &WrittenTables,
) -> Result<Certificate, Unfit>
    ensures least { IfOk result (λ c. IsLeastAccepted written.now.tables (named_rows c)) }
    ensures claimed { IfOk result (λ c. KeepsItsClaims written.now.tables (named_rows c)) }
    ensures kept { IfOk result (λ c. KeepsRows wanted.now.inputs.now.rows.items wanted.now.outputs.now.rows.items written.now.parts) }
{
    match keeps_rows(wanted.inputs, wanted.outputs, written.parts()) {
        Ok(()) => match certify_tables(alloc, written.tables()) {
            Ok(certificate) => Ok(certificate),
            Err(unfit) => Err(unfit),
        },
        Err(unkept) => Err(Unfit::Told(unkept_of(wanted, unkept))),
    }
}

/// The least certificate for the tables that a text says, which keep both sheets.
///
/// # Errors
/// `Unread` where the text is none of tables, `Told` where they do not keep a row or no certificate is accepted for them: in the
/// words of who judges that.
pub(crate) fn certify(alloc: Global, wanted: &Wanted<'_>, text: &[u8]) -> Result<Certificate, Unfit>
    ensures { IfOk result (λ c. IsCertified wanted.now.inputs.now.rows.items wanted.now.outputs.now.rows.items text.now (named_rows c)) }
{
    match read_back(alloc, text) {
        Ok(written) => match certify_written(alloc, wanted, &written) {
            Ok(certificate) => Ok(certificate),
            Err(unfit) => Err(unfit),
        },
        Err(unfit) => Err(unfit),
    }
}
