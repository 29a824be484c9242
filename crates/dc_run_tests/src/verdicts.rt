//! The calls of the checker one by one.

use dc_build::read_tables;
use dc_cert::{Certificate, read_cert};
use dc_check::{
    CertificateList, CheckFault, Condition, Fitted, check, job_fault, misnamed, verdict,
};
use dc_tables::Tables;
use dc_test_tables::{push_small_certificate, push_small_tables};
use std::alloc::Global;
use std::rt::HostRuntime;
use std::sync::Arc;
use std::test::Fail;

/// The tables and the certificate of a row.
fn read(alloc: Global, row: &str) -> Result<(Tables, Certificate), Fail> {
    let mut tables = String::new(alloc);
    push_small_tables(&mut tables, row)?;
    let mut certificate = String::new(alloc);
    push_small_certificate(&mut certificate, row)?;
    Ok((
        read_tables(alloc, tables.as_bytes())?,
        read_cert(alloc, certificate.as_bytes())?,
    ))
}

/// A fault of the first member of a list.
fn at(list: CertificateList, condition: Condition, window: u32) -> CheckFault {
    CheckFault {
        condition,
        list,
        index: 0,
        window,
    }
}

/// The fault of a job, where the names are right and there is such a job.
fn fault_of_job(tables: &Tables, certificate: &Certificate, job: usize) -> Option<CheckFault> {
    if let Some(_) = misnamed(tables, certificate) {
        return None;
    }
    tables.valid();
    if job >= tables.bus_count() + tables.output_count() + tables.label_count() {
        return None;
    }
    let fitted = Fitted {
        tables,
        certificate,
    };
    job_fault(&fitted, job)
}

#[test]
fn each_job_has_its_own_fault(rt: HostRuntime) -> Result<(), Fail> {
    let (tables, certificate) = read(rt.alloc(), "delay=1 output_delay=1 age=31")?;
    assert!(rt; misnamed(&tables, &certificate).is_none());
    assert!(rt;
        fault_of_job(&tables, &certificate, 0)
            == Some(at(CertificateList::Inputs, Condition::DelayTooSmall, 1))
    );
    assert!(rt;
        fault_of_job(&tables, &certificate, 1)
            == Some(at(CertificateList::Outputs, Condition::DelayTooSmall, 1))
    );
    assert!(rt;
        fault_of_job(&tables, &certificate, 2)
            == Some(at(CertificateList::Labels, Condition::AgeOverLimit, 0))
    );
    assert!(rt;
        verdict(&tables, &certificate)
            == Err(at(CertificateList::Inputs, Condition::DelayTooSmall, 1))
    );
    Ok(())
}

#[test]
fn an_accepted_certificate_is_lent_with_its_tables(rt: HostRuntime) -> Result<(), Fail> {
    let (tables, certificate) = read(rt.alloc(), "")?;
    let held = check(Arc::new(rt.alloc(), tables)?, certificate)?;
    assert!(rt; held.tables().bus_count() == 1);
    assert!(rt; held.certificate().labels.len() == 1);
    Ok(())
}
