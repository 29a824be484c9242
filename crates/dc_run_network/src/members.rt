//! The concentrators of a system: their files are opened, read and judged.
ghost use Rattle.std.specs.Prelude.{◌≡◌, ◌≢◌, ℕ, List, IfErr, IfOk, IfSome, MatchResult, None, Ok, Some, []};
ghost use Rattle.dc_cert.specs.NamedRows.{named_rows};
ghost use Rattle.dc_cert.specs.Reading.{certificate_of};
ghost use Rattle.dc_build.specs.Reported.{AreWrittenBy};
ghost use Rattle.dc_check.specs.Accepts.{Accepts};
ghost use Rattle.dc_check.specs.Verdict.{verdict_of};
ghost use Rattle.dc_device.specs.States.{IsCountable};
ghost use Rattle.dc_toml.specs.Reading.{tables_of};
ghost use Rattle.dc_run_network.specs.Members.{AnswersHalt, AreMembers, Halts, IsHaltAt, IsMemberAt, IsMemberOf, IsSaid, JudgesClaims, OfTexts, ReadsCertificate, ReadsTables, TellsBehind};
ghost use Rattle.dc_run_network.specs.Paths.{path_of};

use crate::lines::tell_at;
use crate::paths::path_of;
use crate::shelf::Shelf;
use crate::verdicts::{Undecided, Verdicts};
use dc_answer::{Failure, Outcome, Page, Unloaded, load_certificate, load_written};
use dc_build::WrittenTables;
use dc_cert::Certificate;
use dc_device::Source;
use dc_document::Name;
use dc_print::{Text, append, print_cert_fault, print_refused, print_table_fault};
use dc_system_text::ConcentratorText;
use dc_ways::Member;
use std::alloc::Global;

/// What ended the judging of concentrators.
#[derive(Clone, Copy)]
pub enum Halt {
    /// What `check` answers was told.
    Told(Outcome),
    /// A file was not to be had, which was told.
    NoFile,
    /// Memory was refused.
    Memory,
    /// No thread could be started.
    Threads,
}

/// What ends where a file failed, and its line.
fn halt_by(failure: Failure, line: &mut Text) -> Halt
    ensures said { IsSaid line.new.items result }
    ensures untold { (tables certificate : List ℕ) → AnswersHalt tables certificate line.new.items result }
    ensures threads { result ≢ Halt.Threads }
{
    match failure {
        Failure::Memory => Halt::Memory,
        Failure::Source | Failure::Sink => {
            line.clear();
            append(line, b"failed device");
            Halt::NoFile
        }
    }
}

/// The tables of a concentrator beside their document.
fn read_tables<S: Source>(
    alloc: Global,
    source: &mut S,
    line: &mut Text,
) -> Result<WrittenTables, Halt>
    requires { IsCountable (S.state source.old) }
    ensures said { IfErr result (IsSaid line.new.items) }
    ensures read { IfSome (S.state source.old).remaining (λ tables. ReadsTables tables line.new.items result) }
    ensures threads { IfErr result (λ halt. halt ≢ Halt.Threads) }
{
    match load_written(alloc, source) {
        Ok(written) => Ok(written),
        Err(Unloaded::Refused(fault)) => {
            print_table_fault(line, fault);
            Err(Halt::Told(Outcome::Unreadable))
        }
        Err(Unloaded::Failed(failure)) => Err(halt_by(failure, line)),
    }
}

/// The certificate of a concentrator.
fn read_certificate<S: Source>(
    alloc: Global,
    source: &mut S,
    line: &mut Text,
) -> Result<Certificate, Halt>
    requires { IsCountable (S.state source.old) }
    ensures said { IfErr result (IsSaid line.new.items) }
    ensures read { IfSome (S.state source.old).remaining (λ certificate. ReadsCertificate certificate line.new.items result) }
    ensures threads { IfErr result (λ halt. halt ≢ Halt.Threads) }
{
    match load_certificate(alloc, source) {
        Ok(certificate) => Ok(certificate),
        Err(Unloaded::Refused(fault)) => {
            print_cert_fault(line, fault);
            Err(Halt::Told(Outcome::Unreadable))
        }
        Err(Unloaded::Failed(failure)) => Err(halt_by(failure, line)),
    }
}

/// Judges a certificate for tables; where it is refused, the line says so.
fn judge<J: Verdicts>(
    verdicts: &J,
    written: &WrittenTables,
    certificate: &Certificate,
    line: &mut Text,
) -> Result<(), Halt>
    requires { J.may_judge verdicts.now }
    ensures said { IfErr result (IsSaid line.new.items) }
    ensures judged { JudgesClaims written.now (named_rows certificate.now) line.new.items result }
    ensures threads { IfErr result (λ halt. halt ≡ Halt.Threads → J.starts_threads verdicts.now) }
{
    let tables = written.tables();
    match verdicts.verdict(tables, certificate) {
        Ok(None) => Ok(()),
        Ok(Some(fault)) => {
            print_refused(line, tables, fault);
            Err(Halt::Told(Outcome::Refused))
        }
        Err(Undecided::Memory) => Err(Halt::Memory),
        Err(Undecided::Threads) => Err(Halt::Threads),
    }
}

/// The certificate of a text, where it is accepted for these tables.
fn read_accepted<J: Verdicts, C: Source>(
    alloc: Global,
    verdicts: &J,
    written: &WrittenTables,
    certificate: &mut C,
    line: &mut Text,
) -> Result<Certificate, Halt>
    requires may { J.may_judge verdicts.now }
    requires certificate { IsCountable (C.state certificate.old) }
    ensures said { IfErr result (IsSaid line.new.items) }
    ensures accepted { IfOk result (λ c. verdict_of written.now.tables (named_rows c) ≡ None) }
    ensures judged { (rows text : List ℕ) → AreWrittenBy (tables_of rows) written.now → (C.state certificate.old).remaining ≡ Some text
        → MatchResult result (λ c. certificate_of text ≡ Ok (named_rows c)) (AnswersHalt rows text line.new.items) }
    ensures threads { IfErr result (λ halt. halt ≡ Halt.Threads → J.starts_threads verdicts.now) }
{
    match read_certificate(alloc, certificate, line) {
        Ok(certificate) => match judge(verdicts, written, &certificate, line) {
            Ok(()) => Ok(certificate),
            Err(halt) => Err(halt),
        },
        Err(halt) => Err(halt),
    }
}

/// The concentrator of tables and a certificate that is accepted for them.
fn accepted(written: WrittenTables, certificate: Certificate) -> Member
    requires { verdict_of written.tables (named_rows certificate) ≡ None }
    ensures is { result ≡ record { written = written; claims = named_rows certificate } }
    ensures accepted { Accepts written.tables (named_rows certificate) }
{
    match Member::of_verdict(written, certificate, None) {
        Ok(member) => {
            member.judged();
            member
        }
        Err(_) => unreachable!(),
    }
}

/// The concentrator of two texts.
fn read_both<J: Verdicts, T: Source, C: Source>(
    alloc: Global,
    verdicts: &J,
    tables: &mut T,
    certificate: &mut C,
    line: &mut Text,
) -> Result<Member, Halt>
    requires may { J.may_judge verdicts.now }
    requires tables { IsCountable (T.state tables.old) }
    requires certificate { IsCountable (C.state certificate.old) }
    ensures said { IfErr result (IsSaid line.new.items) }
    ensures judged { (rows text : List ℕ) → (T.state tables.old).remaining ≡ Some rows → (C.state certificate.old).remaining ≡ Some text
        → MatchResult result (IsMemberOf rows text) (AnswersHalt rows text line.new.items) }
    ensures threads { IfErr result (λ halt. halt ≡ Halt.Threads → J.starts_threads verdicts.now) }
{
    match read_tables(alloc, tables, line) {
        Ok(written) => match read_accepted(alloc, verdicts, &written, certificate, line) {
            Ok(certificate) => Ok(accepted(written, certificate)),
            Err(halt) => Err(halt),
        },
        Err(halt) => Err(halt),
    }
}

/// The file of this name in a folder.
fn open<F: Shelf>(
    alloc: Global,
    shelf: &mut F,
    folder: &str,
    name: &str,
) -> Result<F::File, Failure>
    ensures same { F.holds shelf.new ≡ F.holds shelf.old }
    ensures keeps { F.keeps shelf.old shelf.new }
    ensures text { IfOk result (λ f. (F.File.state f).remaining ≡ F.holds shelf.old (path_of folder.now name.now)) }
    ensures countable { IfOk result (λ f. IsCountable (F.File.state f)) }
{
    match path_of(alloc, folder, name) {
        Ok(path) => shelf.open_named(path.as_str()),
        Err(_) => Err(Failure::Memory),
    }
}

/// The concentrator of its files; where it is none, its line. Both are opened before either is read, the tables first.
fn read_one<J: Verdicts, F: Shelf>(
    alloc: Global,
    verdicts: &J,
    shelf: &mut F,
    folder: &str,
    concentrator: &ConcentratorText,
    line: &mut Text,
) -> Result<Member, Halt>
    requires { J.may_judge verdicts.now }
    ensures same { F.holds shelf.new ≡ F.holds shelf.old }
    ensures keeps { F.keeps shelf.old shelf.new }
    ensures said { IfErr result (IsSaid line.new.items) }
    ensures judged { OfTexts (F.holds shelf.old) folder.now concentrator.now
        (λ rows text. MatchResult result (IsMemberOf rows text) (AnswersHalt rows text line.new.items)) }
    ensures threads { IfErr result (λ halt. halt ≡ Halt.Threads → J.starts_threads verdicts.now) }
{
    match open(alloc, shelf, folder, concentrator.tables()) {
        Ok(mut tables) => match open(alloc, shelf, folder, concentrator.certificate()) {
            Ok(mut certificate) => {
                read_both(alloc, verdicts, &mut tables, &mut certificate, line)
            }
            Err(failure) => Err(halt_by(failure, line)),
        },
        Err(failure) => Err(halt_by(failure, line)),
    }
}

/// Makes the page the line of a concentrator that is not accepted, behind its name.
fn tell_halt(page: &mut Page, name: Name, line: &Text, halt: Halt) -> Halt
    ensures told { TellsBehind name line.now.items page.new halt result }
    ensures threads { result ≡ Halt.Threads → halt ≡ Halt.Threads }
{
    match halt {
        Halt::Memory => Halt::Memory,
        Halt::Threads => Halt::Threads,
        _ => match tell_at(page, name, line.as_slice()) {
            Ok(()) => halt,
            Err(_) => Halt::Memory,
        },
    }
}

/// The concentrator of its files; where it is none, the page is its line.
fn member_of<J: Verdicts, F: Shelf>(
    alloc: Global,
    verdicts: &J,
    shelf: &mut F,
    folder: &str,
    concentrator: &ConcentratorText,
    page: &mut Page,
) -> Result<Member, Halt>
    requires { J.may_judge verdicts.now }
    ensures same { F.holds shelf.new ≡ F.holds shelf.old }
    ensures keeps { F.keeps shelf.old shelf.new }
    ensures judged { MatchResult result (IsMemberAt (F.holds shelf.old) folder.now concentrator.now) (IsHaltAt (F.holds shelf.old) folder.now concentrator.now page.new) }
    ensures threads { IfErr result (λ halt. halt ≡ Halt.Threads → J.starts_threads verdicts.now) }
{
    let mut line = Text::new();
    match read_one(alloc, verdicts, shelf, folder, concentrator, &mut line) {
        Ok(member) => Ok(member),
        Err(halt) => Err(tell_halt(page, concentrator.name(), &line, halt)),
    }
}

/// Adds the concentrators of a system, in order, where none is there; where one of them is not accepted, the page is the
/// line of the first.
///
/// # Errors
/// What that ends with; `Memory` where memory was refused, `Threads` where no thread could be started.
pub(crate) fn add_members<J: Verdicts, F: Shelf>(
    alloc: Global,
    verdicts: &J,
    shelf: &mut F,
    folder: &str,
    concentrators: &[ConcentratorText],
    members: &mut Vec<Member>,
    page: &mut Page,
) -> Result<(), Halt>
    requires may { J.may_judge verdicts.now }
    requires none { members.old.items ≡ [] }
    ensures keeps { F.keeps shelf.old shelf.new }
    ensures judged { MatchResult result (λ _. AreMembers (F.holds shelf.old) folder.now concentrators.now members.new.items)
        (Halts (F.holds shelf.old) folder.now concentrators.now page.new) }
    ensures threads { IfErr result (λ halt. halt ≡ Halt.Threads → J.starts_threads verdicts.now) }
{
    for concentrator in concentrators {
        match member_of(alloc, verdicts, shelf, folder, concentrator, page) {
            Ok(member) => match members.push(member) {
                Ok(()) => {}
                Err(_) => return Err(Halt::Memory),
            },
            Err(halt) => return Err(halt),
        }
    }
    Ok(())
}
