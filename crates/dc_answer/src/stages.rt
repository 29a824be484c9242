//! What engines read first: tables, and then a certificate.
ghost use Rattle.std.specs.Prelude.{◌≡◌, ℕ, List, ◌∷◌};
ghost use Rattle.dc_document.specs.declared.limits.TheConstants.{TEXT_LIMIT};
ghost use Rattle.dc_answer.specs.Inputs.{AnswersCertificate, AnswersTables, AnswersWritten, CertificateGoesOn, TablesGoOn, WrittenGoOn};

use crate::exit::Outcome;
use crate::given::{Given, With};
use crate::inputs::{Unloaded, load, load_certificate, load_written};
use crate::judge::{Judge, Unjudged, unread};
use crate::page::Page;
use dc_build::WrittenTables;
use dc_cert::Certificate;
use dc_device::Source;
use dc_print::{Text, print_cert_fault, print_table_fault};
use dc_tables::Tables;
use std::alloc::Global;

/// Reads tables, and then judges.
#[derive(Clone, Copy, Debug)]
pub struct ReadTables<J>(pub J);

impl<'a, H, S: Source, R: Given, J: Judge<H, Tables, R>> Judge<H, (), With<'a, S, R>>
    for ReadTables<J> {
    ghost may_judge = { λ j. J.may_judge j.0 };

    ghost starts_threads = { λ j. J.starts_threads j.0 };

    ghost limits = { λ j. TEXT_LIMIT ∷ J.limits j.0 };

    ghost goes_on = { λ j known. TablesGoOn (J.goes_on j.0) };

    ghost answers = { λ j known. AnswersTables (J.answers j.0) };

    fn judge(
        &self,
        rt: &H,
        alloc: Global,
        _known: (),
        given: &mut With<'a, S, R>,
        page: &mut Page,
    ) -> Result<Outcome, Unjudged> {
        match load(alloc, given.first) {
            Ok(tables) => self.0.judge(rt, alloc, tables, &mut given.rest, page),
            Err(Unloaded::Refused(fault)) => {
                let mut line = Text::new();
                print_table_fault(&mut line, fault);
                page.tell(line);
                Ok(Outcome::Unreadable)
            }
            Err(Unloaded::Failed(failure)) => Err(unread(failure)),
        }
    }
}

/// Reads tables, keeps their document beside them, and then judges.
#[derive(Clone, Copy, Debug)]
pub struct ReadWritten<J>(pub J);

impl<'a, H, S: Source, R: Given, J: Judge<H, WrittenTables, R>> Judge<H, (), With<'a, S, R>>
    for ReadWritten<J> {
    ghost may_judge = { λ j. J.may_judge j.0 };

    ghost starts_threads = { λ j. J.starts_threads j.0 };

    ghost limits = { λ j. TEXT_LIMIT ∷ J.limits j.0 };

    ghost goes_on = { λ j known. WrittenGoOn (J.goes_on j.0) };

    ghost answers = { λ j known. AnswersWritten (J.answers j.0) };

    fn judge(
        &self,
        rt: &H,
        alloc: Global,
        _known: (),
        given: &mut With<'a, S, R>,
        page: &mut Page,
    ) -> Result<Outcome, Unjudged> {
        match load_written(alloc, given.first) {
            Ok(tables) => self.0.judge(rt, alloc, tables, &mut given.rest, page),
            Err(Unloaded::Refused(fault)) => {
                let mut told = Text::new();
                print_table_fault(&mut told, fault);
                page.tell(told);
                Ok(Outcome::Unreadable)
            }
            Err(Unloaded::Failed(failure)) => Err(unread(failure)),
        }
    }
}

/// Reads a certificate behind what is known already, and then judges.
#[derive(Clone, Copy, Debug)]
pub struct ReadCertificate<J>(pub J);

impl<'a, H, T: Drop, S: Source, R: Given, J: Judge<H, (T, Certificate), R>> Judge<
    H,
    T,
    With<'a, S, R>,
> for ReadCertificate<J> {
    ghost may_judge = { λ j. J.may_judge j.0 };

    ghost starts_threads = { λ j. J.starts_threads j.0 };

    ghost limits = { λ j. TEXT_LIMIT ∷ J.limits j.0 };

    ghost goes_on = { λ j known. CertificateGoesOn (λ certificate. J.goes_on j.0 (known, certificate)) };

    ghost answers = { λ j known. AnswersCertificate (λ certificate. J.answers j.0 (known, certificate)) };

    fn judge(
        &self,
        rt: &H,
        alloc: Global,
        known: T,
        given: &mut With<'a, S, R>,
        page: &mut Page,
    ) -> Result<Outcome, Unjudged> {
        match load_certificate(alloc, given.first) {
            Ok(certificate) => self
                .0
                .judge(rt, alloc, (known, certificate), &mut given.rest, page),
            Err(Unloaded::Refused(fault)) => {
                let mut line = Text::new();
                print_cert_fault(&mut line, fault);
                page.tell(line);
                Ok(Outcome::Unreadable)
            }
            Err(Unloaded::Failed(failure)) => Err(unread(failure)),
        }
    }
}
