//! How many words wait on the buses of tables, and for how long.
use dc_busy::LONGEST_WINDOW;
use dc_cert::{Certificate, InputRow};
use dc_design::Waiting;
use dc_find::{FindFault, find, reach};
use dc_tables::Tables;
use std::alloc::{AllocError, Global};

/// The least numbers of the queues of tables; of one of which no window closes a delay that is out of range.
fn numbers_of(alloc: Global, tables: &Tables) -> Result<Certificate, AllocError> {
    match find(alloc, tables) {
        Ok(certificate) => Ok(certificate),
        Err(FindFault::Memory) => Err(AllocError),
        Err(fault) => match reach(alloc, tables, fault) {
            Ok(reached) => Ok(reached.certificate),
            Err(e) => Err(e),
        },
    }
}

/// What waits on a bus of these numbers; nothing where no window closes.
fn waiting_in(row: &InputRow) -> Option<Waiting> {
    if row.delay > LONGEST_WINDOW {
        return None;
    }
    Some(Waiting {
        backlog: u64::from(row.backlog),
        delay: u64::from(row.delay),
    })
}

/// What waits on each bus of tables, in their order; nothing on one of which no window closes.
///
/// # Errors
/// Memory was refused.
pub(crate) fn waiting_of(
    alloc: Global,
    tables: &Tables,
) -> Result<Vec<Option<Waiting>>, AllocError> {
    let numbers = numbers_of(alloc, tables)?;
    let mut waiting = Vec::new(alloc);
    for row in &numbers.inputs {
        waiting.push(waiting_in(row))?;
    }
    Ok(waiting)
}
