//! The printed lines of refusals, and which replies are printed.
ghost use Rattle.std.specs.Prelude.{◌≡◌, ◌++◌, ◌+◌, ◌≤◌, ◌||◌, length, codes, decimal};
ghost use Rattle.arrayvec.specs.ArrayVec.{array_vec_len};
ghost use Rattle.dc_event.specs.ReplyText.{is_reported as is_reported_reply, name_at};
ghost use Rattle.dc_run.specs.Refusals.{actor_name, cause_text, culprit_text, refused_text};
ghost use Rattle.dc_document.specs.declared.limits.TheConstants.{NAME_LIMIT};
ghost use Rattle.dc_print.specs.declared.text.TheConstants.{TEXT_CAPACITY};

use crate::steps::Refusal;
use dc_core::StepFault;
use dc_event::{Actor, Event, Reply};
use dc_print::{Text, append, append_number};
use dc_tables::Tables;

/// The text of a router's name.
fn router_text(tables: &Tables, router: usize) -> &[u8]
    ensures text { result.now ≡ name_at tables.now.names.routers router }
    ensures short { length result.now ≤ NAME_LIMIT }
{
    tables.named();
    if router < tables.router_count() {
        tables.router_name(router).text()
    } else {
        b""
    }
}

/// The text of an output's name.
fn output_text(tables: &Tables, output: usize) -> &[u8]
    ensures text { result.now ≡ name_at tables.now.names.outputs output }
    ensures short { length result.now ≤ NAME_LIMIT }
{
    tables.named();
    if output < tables.output_count() {
        tables.output_name(output).text()
    } else {
        b""
    }
}

/// Whether a reply is printed where not all are.
fn is_reported(reply: Reply) -> bool
    ensures { result ≡ is_reported_reply reply }
{
    match reply {
        Reply::Queued(_) | Reply::Took(_, _) | Reply::Empty(_) | Reply::Idle | Reply::Now(_) =>
            false,
        _ => true,
    }
}

/// Whether a reply is printed: each one, or those that tell of a word that is sent, refused or lost.
pub fn is_printed(all: bool, reply: Reply) -> bool
    ensures { result ≡ (all || is_reported_reply reply) }
{
    all || is_reported(reply)
}

/// The text of an actor's name.
fn actor_text(tables: &Tables, actor: Actor) -> &[u8]
    ensures text { result.now ≡ actor_name tables.now actor }
    ensures short { length result.now ≤ NAME_LIMIT }
{
    match actor {
        Actor::Router(router) => router_text(tables, router),
        Actor::Output(output) => output_text(tables, output),
        Actor::Wire(_) | Actor::Clock => b"",
    }
}

/// Puts the actor that an event was refused for at the end.
fn append_culprit(text: &mut Text, tables: &Tables, event: Event, fault: StepFault)
    requires { array_vec_len text.old + 20 ≤ TEXT_CAPACITY }
    ensures items { text.new.items ≡ text.old.items ++ culprit_text tables.now fault event }
    ensures len { array_vec_len text.new ≤ array_vec_len text.old + 17 }
{
    match (fault, event) {
        (StepFault::Spent, Event::Route(router)) => {
            append(text, b" ");
            append(text, router_text(tables, router));
        }
        (StepFault::TooSoon, Event::Send(output)) => {
            append(text, b" ");
            append(text, output_text(tables, output));
        }
        (StepFault::Owed(actor), _) => {
            append(text, b" ");
            append(text, actor_text(tables, actor));
        }
        _ => {}
    }
}

/// Puts why an event was refused at the end.
fn append_cause(text: &mut Text, tables: &Tables, event: Event, fault: StepFault)
    requires { array_vec_len text.old + 30 ≤ TEXT_CAPACITY }
    ensures items { text.new.items ≡ text.old.items ++ cause_text tables.now fault event }
    ensures len { array_vec_len text.new ≤ array_vec_len text.old + 24 }
{
    append(text, fault.code().as_bytes());
    append_culprit(text, tables, event, fault);
}

/// The line of an event that was refused.
#[tactic(auto, unfolding(crate::specs::Refusals::refused_text))]
pub fn print_refused(text: &mut Text, tables: &Tables, refusal: Refusal)
    ensures { text.new.items ≡ refused_text tables.now refusal.event refusal.fault refusal.number }
{
    let Refusal {
        event,
        fault,
        number,
    } = refusal;
    text.clear();
    append(text, b"refused ");
    append_cause(text, tables, event, fault);
    append(text, b" at line ");
    append_number(text, number);
}
