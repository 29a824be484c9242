//! A text of tables that are laid out is judged as it is to be written.
ghost use Rattle.std.specs.Prelude.{◌≡◌, IfOk, Ok};
ghost use Rattle.dc_toml.specs.Reading.{unlaid_tables_of};
ghost use Rattle.dc_toml.specs.Written.{written};
ghost use Rattle.dc_run_design.specs.Layout.{IsLaid};

use crate::judged::{Said, Unfit, certify_tables, read_back};
use dc_design_rows::Fact;
use dc_document::{BuildError, Parts};
use dc_same_tables::say_the_same;
use dc_toml::read_unlaid;
use std::alloc::Global;

/// Whether a text, read with its layout open, says the tables that were given.
///
/// # Errors
/// `Unread` where it is none of tables, `Told` where it says others.
fn keeps(alloc: Global, given: &Parts, text: &[u8]) -> Result<(), Unfit>
    ensures { IfOk result (λ _. unlaid_tables_of text.now ≡ Ok (written given.now)) }
{
    match read_unlaid(alloc, text) {
        Ok(parts) => {
            if say_the_same(&parts, given) {
                Ok(())
            } else {
                let sentence = "the tables are others beside their layout";
                Err(Unfit::Told(Said::new(sentence, Fact::Word(""), Fact::Word(""))))
            }
        }
        Err(BuildError::Refused(fault)) => Err(Unfit::Unread(fault)),
        Err(BuildError::Memory(_)) => Err(Unfit::NoMemory),
    }
}

/// Judges a text of tables that are laid out: it passes where it is one of tables for which a certificate is accepted, and read with its
/// layout open says the tables that were given.
///
/// # Errors
/// `Unread` where the text is none of tables, `Told` where it says others than were given or no certificate is accepted for them: in
/// the words of who judges that.
pub(crate) fn certify_laid(alloc: Global, given: &Parts, text: &[u8]) -> Result<(), Unfit>
    ensures { IfOk result (λ _. IsLaid (written given.now) text.now) }
{
    match keeps(alloc, given, text) {
        Ok(()) => match read_back(alloc, text) {
            Ok(tables) => match certify_tables(alloc, tables.tables()) {
                Ok(_) => Ok(()),
                Err(unfit) => Err(unfit),
            },
            Err(unfit) => Err(unfit),
        },
        Err(unfit) => Err(unfit),
    }
}
