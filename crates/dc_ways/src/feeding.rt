//! Which labels feed which streams over a link.
ghost use Rattle.std.specs.Prelude.{◌≡◌, ◌<◌, length};
ghost use Rattle.dc_tables.specs.Declares.{fits};
ghost use Rattle.dc_network.specs.Networks.{feeds};
ghost use Rattle.dc_ways.specs.Members.{link_of};

use crate::connection::Connection;
use dc_tables::Tables;
use dc_word::Sdi;

/// Whether the words of the label of the link's output are of the stream of its bus.
pub fn feeds(from: &Tables, to: &Tables, link: &Connection, label: usize, stream: usize) -> bool
    requires label { label < length from.now.labels }
    requires stream { stream < length to.now.streams }
    ensures { result ≡ feeds from.now to.now (link_of link.now) label stream }
{
    let sent = from.label(label);
    let declared = to.stream(stream);
    if sent.output != link.output {
        return false;
    }
    if declared.bus != link.bus {
        return false;
    }
    if declared.label != sent.label {
        return false;
    }
    takes(declared.sdi, sent.sdi)
}

/// Whether a stream that declares this SDI, or any, takes that one.
fn takes(declared: Option<Sdi>, sdi: Sdi) -> bool
    ensures { result ≡ fits declared sdi }
{
    match declared {
        None => true,
        Some(one) => one == sdi,
    }
}
