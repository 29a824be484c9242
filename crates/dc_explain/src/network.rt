//! What ended the judging of a network.
use crate::again::Again;
use crate::links::tell_link;
use crate::members::tell_member;
use crate::output::word;
use crate::ran::Ran;
use crate::systems::tell_system;
use dc_tell::Explanation;

/// Tells why a network was not accepted: by its text, by one of its concentrators, or by a link.
pub(crate) fn tell_network<A: Again>(out: &mut Explanation, again: &A, ran: &Ran<'_>) {
    let verb = word(ran.line, 0);
    if verb == "at" {
        return tell_member(out, again, ran);
    }
    if verb == "unreadable" {
        tell_system(out, ran);
    } else {
        tell_link(out, ran);
    }
}
