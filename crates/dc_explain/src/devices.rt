//! What kept the program from its work.
use crate::ran::Ran;
use crate::task::{CERTIFICATE, OBSERVED};
use dc_keep::Kept;
use dc_tell::Explanation;
use dc_tell::Value::Text;
use std::alloc::Global;
use std::io::{Error, ErrorKind};

/// What to do where a call on a file or a device failed so.
static MENDS: [(ErrorKind, &'static str); 6] = [
    (
        ErrorKind::NotFound,
        "see how it is spelled, and in which folder dc429 is run: a path is taken from there",
    ),
    (
        ErrorKind::PermissionDenied,
        "let the file be read by who runs dc429",
    ),
    (
        ErrorKind::IsADirectory,
        "this is a folder: name the file in it",
    ),
    (
        ErrorKind::NotADirectory,
        "a part of the path before its last is a file, and no folder",
    ),
    (
        ErrorKind::StorageFull,
        "there is no room left where the output goes to",
    ),
    (ErrorKind::InvalidFilename, "the path is too long"),
];

/// What to do where a call on a file or a device failed.
fn mend_of(kind: ErrorKind) -> &'static str {
    for (own, mend) in &MENDS {
        if *own == kind {
            return mend;
        }
    }
    "see what the path leads to"
}

/// Tells that a call on what has this name failed, why, and what was wanted of it.
fn tell_cause(out: &mut Explanation, name: &str, wanted: &str, cause: &str, kind: ErrorKind) {
    out.begin("");
    out.say("{}: {}", &[Text(name), Text(cause)]);
    if !wanted.is_empty() {
        out.note(
            "this was to be {}; `failed device` is what is answered where a file can't be opened or read",
            &[Text(wanted)],
        );
    }
    out.help("{}", &[Text(mend_of(kind))]);
    let is_absent = kind == ErrorKind::NotFound;
    if is_absent && wanted == CERTIFICATE {
        out.help("or let `dc429 find TABLES > FILE` write one", &[]);
    }
    if is_absent && wanted == OBSERVED {
        out.help(
            "or let `dc429 observe TABLES CERT < TRACE > FILE` write them",
            &[],
        );
    }
}

/// Tells that a call on what has this name failed, and what was wanted of it.
fn tell_error(out: &mut Explanation, alloc: Global, name: &str, wanted: &str, error: Error) {
    match format!(in alloc; "{error}") {
        Ok(cause) => tell_cause(out, name, wanted, cause.as_str(), error.kind()),
        Err(_) => out.lose(),
    }
}

/// Tells that a call on a file or a device failed. Whether one did.
fn tell_device(out: &mut Explanation, ran: &Ran<'_>) -> bool {
    let (names, wanted) = (ran.names, ran.task.wanted);
    let places: [(&str, &str, &Kept); 5] = [
        (names.0, wanted.0, ran.first),
        (names.1, wanted.1, ran.second),
        (ran.third_name, OBSERVED, ran.third),
        ("<stdin>", "", ran.input),
        ("<stdout>", "", ran.output),
    ];
    for (name, wanted, kept) in places.iter() {
        if let Some(error) = kept.cause {
            tell_error(out, ran.alloc, name, wanted, error);
            return true;
        }
    }
    false
}

/// Tells what kept the program from its work, by the word that it wrote. Whether that is known.
pub(crate) fn tell_failure(out: &mut Explanation, ran: &Ran<'_>, word: &str) -> bool {
    let (what, mend) = match word {
        "memory" => (
            "memory was refused",
            "give the process more memory, as by `ulimit -v`",
        ),
        "threads" => (
            "a thread could not be started",
            "fewer `--workers`, or none: the verdict is the same; or a higher limit of threads, as by `ulimit -u`",
        ),
        _ => return tell_device(out, ran),
    };
    out.begin("");
    out.say(what, &[]);
    out.help(mend, &[]);
    true
}
