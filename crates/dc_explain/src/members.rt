//! Concentrators of a network that are not accepted, or whose files are not to be had.
use crate::again::Again;
use crate::devices::tell_failure;
use crate::judged::tell_files;
use crate::output::{behind_two, word};
use crate::ran::Ran;
use crate::task::{JUDGED, Task, told};
use dc_system_text::ConcentratorText;
use dc_tell::Explanation;
use dc_tell::Value::Text;
use std::alloc::{AllocError, Global};
use std::path::Path;

/// The folder of the file of this name; nothing where it has none.
fn folder_of(path: &str) -> &str {
    match Path::new(path).parent() {
        Some(folder) => folder.as_str(),
        None => "",
    }
}

/// The name of a file that the text of a system names, as it is opened: from the folder of that text, or as it is where
/// it begins with a slash.
fn path_of(alloc: Global, system: &str, name: &str) -> Result<String, AllocError> {
    let path = Path::new(folder_of(system)).join(alloc, name)?;
    Ok(path.into_string())
}

/// Tells the line of a concentrator, whose files have these names: one that `check` prints of two files, or what kept it from
/// reading them. Whether there was something to tell.
fn tell_check<A: Again>(
    out: &mut Explanation,
    again: &A,
    ran: &Ran<'_>,
    tables: &str,
    certificate: &str,
) -> bool {
    let line = behind_two(ran.line);
    let checked = Ran {
        names: (tables, certificate),
        task: Task {
            wanted: JUDGED,
            ..ran.task
        },
        first: ran.named_first,
        second: ran.named_second,
        line,
        ..*ran
    };
    if word(line, 0) == "failed" {
        return tell_failure(out, &checked, word(line, 1));
    }
    tell_files(out, again, &checked)
}

/// Tells the line of a concentrator of a system, whose tables have this name.
fn tell_one<A: Again>(
    out: &mut Explanation,
    again: &A,
    ran: &Ran<'_>,
    system: &str,
    tables: &str,
    certificate: &str,
) -> bool {
    match path_of(ran.alloc, system, certificate) {
        Ok(certificate) => tell_check(out, again, ran, tables, certificate.as_str()),
        Err(_) => false,
    }
}

/// Tells the line of the concentrator of this name, of those of a system.
fn tell_among<A: Again>(
    out: &mut Explanation,
    again: &A,
    ran: &Ran<'_>,
    system: &str,
    name: &str,
    concentrators: &[ConcentratorText],
) -> bool {
    for concentrator in concentrators {
        let own = concentrator.name();
        if own.as_str() == name {
            return match path_of(ran.alloc, system, concentrator.tables()) {
                Ok(tables) => tell_one(
                    out,
                    again,
                    ran,
                    system,
                    tables.as_str(),
                    concentrator.certificate(),
                ),
                Err(_) => false,
            };
        }
    }
    false
}

/// Tells the line of the concentrator of this name. The one function that holds the system.
fn tell_named<A: Again>(
    out: &mut Explanation,
    again: &A,
    ran: &Ran<'_>,
    system: &str,
    name: &str,
) -> bool {
    match again.system(ran.alloc, ran.first.text.as_slice()) {
        Some(read) => tell_among(out, again, ran, system, name, read.concentrators()),
        None => false,
    }
}

/// Tells the line of a concentrator of a network: what stands behind its name is a line of `check`. And of which
/// concentrator of which system that is, and from where a file is taken that is not to be had.
pub(crate) fn tell_member<A: Again>(out: &mut Explanation, again: &A, ran: &Ran<'_>) {
    let system = ran.task.system.unwrap_or("");
    let name = word(ran.line, 1);
    if !tell_named(out, again, ran, system, name) {
        return;
    }
    out.note(
        "these are the files of concentrator `{}` of {}",
        &[Text(name), Text(told(system))],
    );
    if word(ran.line, 2) == "failed" {
        out.note(
            "what a system names is taken from the folder of its text, or as it is where it begins with /",
            &[],
        );
    }
}
