//! What codes mean, put into a page.

use dc_answer::Page;
use dc_codes::{Code, Kind, all, meaning_of};
use std::alloc::AllocError;

/// Puts a line at the end of a page that has one before it.
fn add_line(heading: &str, text: &str, page: &mut Page) -> Result<(), AllocError> {
    page.add(b"\n")?;
    page.add(heading.as_bytes())?;
    page.add(text.as_bytes())
}

/// Puts what a code of this kind means at the end of a page.
fn add_meaning(kind: Kind, name: &str, page: &mut Page) -> Result<(), AllocError> {
    page.add(name.as_bytes())?;
    page.add(b", ")?;
    page.add(kind.words().as_bytes())?;
    let Some(meaning) = meaning_of(kind, name) else {
        return Ok(());
    };
    add_line(kind.heading(), meaning.means, page)?;
    add_line(kind.setting(), meaning.example, page)?;
    add_line("What to do: ", meaning.mend, page)
}

/// Whether the code of this name is told.
fn is_told(code: Option<Code<'_>>, name: &str) -> bool {
    match code {
        Some(code) => code.name() == name,
        None => true,
    }
}

/// Makes it the page on a code, in each of its meanings, or on all, parted by empty lines.
///
/// # Errors
/// `AllocError` where memory was refused.
pub fn tell_meanings(code: Option<Code<'_>>, page: &mut Page) -> Result<(), AllocError> {
    page.keep(b"")?;
    let mut is_first = true;
    for (kind, name) in all().iter() {
        if is_told(code, name) {
            if !is_first {
                page.add(b"\n\n")?;
            }
            is_first = false;
            add_meaning(*kind, name, page)?;
        }
    }
    Ok(())
}
