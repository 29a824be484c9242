//! Which known name was meant.
use std::alloc::{AllocError, Global};
use strsim::jaro_winkler;

/// Names, as they are found. Where memory gives out they are lost, and nothing is told.
#[derive(Drop)]
pub struct Names<'a> {
    list: Vec<&'a str>,
    is_lost: bool,
}

impl<'a> Names<'a> {
    /// No names.
    pub fn new(alloc: Global) -> Names<'a> {
        Names {
            list: Vec::new(alloc),
            is_lost: false,
        }
    }

    /// Adds a name.
    pub fn add(&mut self, name: &'a str) {
        if self.list.push(name).is_err() {
            self.is_lost = true;
        }
    }

    /// The names.
    pub fn as_slice(&self) -> &[&'a str] {
        self.list.as_slice()
    }

    /// Whether memory was refused.
    pub fn is_lost(&self) -> bool {
        self.is_lost
    }
}

/// How like a name has to be, as clap has it.
const LIKE: f64 = 0.7;

/// How like a name is to a text in lower case.
fn likeness_of(alloc: Global, lower: &str, name: &str) -> Result<f64, AllocError> {
    let own = name.to_ascii_lowercase(alloc)?;
    jaro_winkler(alloc, lower, own.as_str())
}

/// The one of these names that is most like a text in lower case, where one is like it, and another that is as much like
/// it, empty where none is.
fn likest<'a>(
    alloc: Global,
    lower: &str,
    names: &[&'a str],
) -> Result<Option<(&'a str, &'a str)>, AllocError> {
    let mut best = "";
    let mut other = "";
    let mut most = LIKE;
    for name in names {
        if name.eq_ignore_ascii_case(lower) {
            return Ok(Some((*name, "")));
        }
        let likeness = likeness_of(alloc, lower, name)?;
        if likeness > most {
            most = likeness;
            best = *name;
            other = "";
        } else if likeness >= most && !best.is_empty() {
            other = *name;
        }
    }
    Ok(if best.is_empty() {
        None
    } else {
        Some((best, other))
    })
}

/// The one of these names that is most like a text, upper and lower case being alike, where one is like it, and another
/// that is as much like it. The same name but for its case is before all others.
pub(crate) fn nearest<'a>(
    alloc: Global,
    text: &str,
    names: &[&'a str],
) -> Result<Option<(&'a str, &'a str)>, AllocError> {
    let lower = text.to_ascii_lowercase(alloc)?;
    likest(alloc, lower.as_str(), names)
}
