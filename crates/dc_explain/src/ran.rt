//! A run that has ended, and what there is to say of its end.
use crate::again::Again;
use crate::audits::tell_empty;
use crate::capture::tell_surveyed;
use crate::designed::repeat_lines;
use crate::devices::tell_failure;
use crate::faults::tell_line;
use crate::judged::tell_files;
use crate::members::tell_member;
use crate::network::tell_network;
use crate::output::{answer_in, whole_letters, word};
use crate::plain::tell_plainly;
use crate::task::{Task, names_of, task_of};
use dc_answer::Exit;
use dc_codes::Kind;
use dc_command::Order;
use dc_keep::{Kept, Notes};
use dc_tell::{Explanation, File};
use std::alloc::{AllocError, Global};
use std::io::ErrorKind;

/// A run that has ended, with what was kept of it.
#[derive(Clone, Copy)]
pub(crate) struct Ran<'a> {
    /// What gives memory.
    pub(crate) alloc: Global,
    /// What it was to do.
    pub(crate) task: Task<'a>,
    /// The names of its first two files, in the order in which it opens them; an empty one where it has none.
    pub(crate) names: (&'a str, &'a str),
    /// The name of its third file, likewise.
    pub(crate) third_name: &'a str,
    /// Its first file.
    pub(crate) first: &'a Kept,
    /// Its second file.
    pub(crate) second: &'a Kept,
    /// Its third file.
    pub(crate) third: &'a Kept,
    /// The tables of the concentrator of a network that was read last.
    pub(crate) named_first: &'a Kept,
    /// Its certificate.
    pub(crate) named_second: &'a Kept,
    /// The tables of the concentrators before it, in their order.
    pub(crate) earlier: &'a [Kept],
    /// Standard input.
    pub(crate) input: &'a Kept,
    /// What it wrote last.
    pub(crate) output: &'a Kept,
    /// The lines of that.
    pub(crate) said: &'a str,
    /// The line of these that says what ended it.
    pub(crate) line: &'a str,
    /// Whether what it wrote stands where it is explained.
    pub(crate) is_seen: bool,
}

impl<'a> Ran<'a> {
    /// Its first two files, as far as they were kept.
    pub(crate) fn files(&self) -> (File<'a>, File<'a>) {
        (
            File {
                name: self.names.0,
                text: self.first.text.as_slice(),
            },
            File {
                name: self.names.1,
                text: self.second.text.as_slice(),
            },
        )
    }
}

/// The lines that a run wrote last; nothing where nobody reads them, or where they are no text.
fn said_in(output: &Kept) -> Option<&str> {
    if let Some(error) = output.cause {
        if error.kind() == ErrorKind::BrokenPipe {
            return None;
        }
    }
    match str::from_utf8(whole_letters(output.text.as_slice())) {
        Ok(said) => Some(said),
        Err(_) => None,
    }
}

/// Tells what kept a run from its work.
fn tell_failed<A: Again>(out: &mut Explanation, again: &A, ran: &Ran<'_>) {
    let (verb, cause) = (word(ran.line, 0), word(ran.line, 1));
    if verb == "at" && word(ran.line, 2) == "failed" {
        return tell_member(out, again, ran);
    }
    let failed = if verb == "failed" { cause } else { "device" };
    tell_failure(out, ran, failed);
}

/// Tells of a text that can't be read.
fn tell_text<A: Again>(out: &mut Explanation, again: &A, ran: &Ran<'_>) {
    if word(ran.line, 1).as_bytes().starts_with(b"E") {
        return tell_line(out, again, ran, ran.task.lines);
    }
    tell_files(out, again, ran);
}

/// Tells of what was judged and refused.
fn tell_judged<A: Again>(out: &mut Explanation, again: &A, ran: &Ran<'_>) {
    if ran.task.is_survey {
        return tell_surveyed(out, ran);
    }
    match word(ran.line, 1) {
        "spent" | "early" | "owed" => tell_line(out, again, ran, Kind::Step),
        "ticks" => {
            tell_plainly(out, Kind::Step, "ticks");
        }
        "hub" => {
            tell_plainly(out, Kind::Bench, "hub");
        }
        _ => match word(ran.line, 0) {
            "budgets" | "sources" | "claim" => tell_line(out, again, ran, Kind::Audit),
            _ => {
                tell_files(out, again, ran);
            }
        },
    }
}

/// Tells what there is to say of the end of a run: nothing where all is well.
fn tell_end<A: Again>(out: &mut Explanation, again: &A, ran: &Ran<'_>, exit: Exit) {
    match exit {
        Exit::Done => tell_empty(out, ran),
        Exit::Failed => tell_failed(out, again, ran),
        _ if ran.task.is_design => repeat_lines(out, ran),
        Exit::Refused if ran.task.is_layout => repeat_lines(out, ran),
        _ if ran.task.system.is_some() => tell_network(out, again, ran),
        Exit::Unreadable => tell_text(out, again, ran),
        Exit::Refused => tell_judged(out, again, ran),
    }
}

/// What there is to say of the end of a run of which its files were kept, and those that a text named.
fn explain_behind<A: Again>(
    alloc: Global,
    again: &A,
    order: Order<'_>,
    exit: Exit,
    files: (&Kept, &Kept, &Kept),
    named: (&Kept, &Kept),
    notes: &Notes,
) -> Result<Option<String>, AllocError> {
    let input = notes.input.end(alloc)?;
    let output = notes.output.end(alloc)?;
    let earlier = notes.earlier();
    let lines = said_in(&output);
    let said = lines.unwrap_or("");
    let (first_name, second_name, third_name) = names_of(order);
    let ran = Ran {
        alloc,
        task: task_of(order),
        names: (first_name, second_name),
        third_name,
        first: files.0,
        second: files.1,
        third: files.2,
        named_first: named.0,
        named_second: named.1,
        earlier: earlier.as_slice(),
        input: &input,
        output: &output,
        said,
        line: answer_in(said),
        is_seen: notes.progress.is_shared(),
    };
    let mut out = Explanation::new(alloc);
    if lines.is_some() {
        tell_end(&mut out, again, &ran, exit);
    }
    Ok(out.finish())
}

/// What there is to say of the end of a run of which the files of the command line were kept.
fn explain_with<A: Again>(
    alloc: Global,
    again: &A,
    order: Order<'_>,
    exit: Exit,
    files: (&Kept, &Kept, &Kept),
    notes: &Notes,
) -> Result<Option<String>, AllocError> {
    let named_first = notes.named_first.end(alloc)?;
    let named_second = notes.named_second.end(alloc)?;
    explain_behind(
        alloc,
        again,
        order,
        exit,
        files,
        (&named_first, &named_second),
        notes,
    )
}

/// What there is to say of the end of a run, by the notes that were kept of it, where what it judged can be read again.
///
/// # Errors
/// Where memory is refused.
pub fn explain_end<A: Again>(
    alloc: Global,
    again: &A,
    order: Order<'_>,
    exit: Exit,
    notes: &Notes,
) -> Result<Option<String>, AllocError> {
    let first = notes.first.end(alloc)?;
    let second = notes.second.end(alloc)?;
    let third = notes.third.end(alloc)?;
    explain_with(alloc, again, order, exit, (&first, &second, &third), notes)
}
