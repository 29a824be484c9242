//! Which orders would read standard input twice.
ghost use Rattle.std.specs.Prelude.{◌≡◌, codes, MatchResult};
ghost use Rattle.dc_command.specs.Inputs.{AreNotBothInput, AreNotTwoInput, HasOneInput, IsNotInput};

use crate::asked::Order;

/// How standard input is named as a file.
const STANDARD_INPUT: &str = "-";

const BOTH: &str = "standard input can be one of the two files, not both";

const TWO: &str = "standard input can be one of the three files, not two";

const REPLAYED: &str = "replay reads its trace from standard input: name its tables by a file";

const SURVEYED: &str = "survey reads its capture from standard input: name its tables by a file";

const TRACED: &str = "trace reads its capture from standard input: name its tables by a file";

const AUDITED: &str =
    "audit reads its trace from standard input: name its tables and its certificate by files";

const OBSERVED: &str =
    "observe reads its trace from standard input: name its tables and its certificate by files";

const DESIGNED: &str =
    "design writes its tables to standard output: name a file for the certificate";

/// Refuses standard input as a file, in these words.
fn refuse_input(path: &str, words: &'static str) -> Result<(), &'static str>
    ensures { MatchResult result (λ _. IsNotInput path.now) (λ _. path.now ≡ codes "-") }
{
    if path == STANDARD_INPUT {
        Err(words)
    } else {
        Ok(())
    }
}

/// Refuses standard input as both of two files, in these words.
fn refuse_twice(one: &str, other: &str, words: &'static str) -> Result<(), &'static str>
    ensures { MatchResult result (λ _. AreNotBothInput one.now other.now) (λ _. (one.now ≡ codes "-") × (other.now ≡ codes "-")) }
{
    if one == STANDARD_INPUT {
        refuse_input(other, words)
    } else {
        Ok(())
    }
}

/// Refuses standard input as both files of a command.
fn refuse_both(tables: &str, certificate: &str) -> Result<(), &'static str>
    ensures { MatchResult result (λ _. AreNotBothInput tables.now certificate.now) (λ _. (tables.now ≡ codes "-") × (certificate.now ≡ codes "-")) }
{
    refuse_twice(tables, certificate, BOTH)
}

/// Refuses standard input as two of the three files of a command.
fn refuse_two(tables: &str, certificate: &str, observed: &str) -> Result<(), &'static str>
    ensures { MatchResult result (λ _. AreNotTwoInput tables.now certificate.now observed.now)
        (λ _. AreNotTwoInput tables.now certificate.now observed.now → ⊥) }
{
    refuse_twice(tables, certificate, TWO)?;
    refuse_twice(tables, observed, TWO)?;
    refuse_twice(certificate, observed, TWO)
}

/// Refuses an order that would read standard input twice.
pub(crate) fn refuse_second_input(order: &Order<'_>) -> Result<(), &'static str>
    ensures { MatchResult result (λ _. HasOneInput order.now) (λ _. HasOneInput order.now → ⊥) }
{
    match *order {
        Order::Decode(_)
        | Order::Find { .. }
        | Order::Layout { .. }
        | Order::Network { .. }
        | Order::ReportNetwork { .. }
        | Order::Explain { .. } => Ok(()),
        Order::Check {
            tables,
            certificate,
            ..
        } => refuse_both(tables, certificate),
        Order::Report {
            tables,
            certificate,
            ..
        } => match certificate {
            Some(certificate) => refuse_both(tables, certificate),
            None => Ok(()),
        },
        Order::ReportObserved {
            tables,
            certificate,
            observed,
            ..
        } => refuse_two(tables, certificate, observed),
        Order::Margins {
            tables,
            certificate,
            ..
        } => match certificate {
            Some(certificate) => refuse_both(tables, certificate),
            None => Ok(()),
        },
        Order::Survey { tables } => refuse_input(tables, SURVEYED),
        Order::Trace { tables, .. } => refuse_input(tables, TRACED),
        Order::Replay { tables, .. } => refuse_input(tables, REPLAYED),
        Order::Audit {
            tables,
            certificate,
            ..
        } => {
            refuse_input(tables, AUDITED)?;
            refuse_input(certificate, AUDITED)
        }
        Order::Observe {
            tables,
            certificate,
        } => {
            refuse_input(tables, OBSERVED)?;
            refuse_input(certificate, OBSERVED)
        }
        Order::Bench {
            tables,
            certificate,
            ..
        } => refuse_both(tables, certificate),
        Order::Design {
            inputs,
            outputs,
            certificate,
            ..
        } => {
            refuse_both(inputs, outputs)?;
            match certificate {
                Some(certificate) => refuse_input(certificate, DESIGNED),
                None => Ok(()),
            }
        }
    }
}
