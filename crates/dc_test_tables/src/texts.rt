//! The texts of the small tables and of their certificate, from templates with holes.

use std::alloc::AllocError;

/// The value that a row of fields `name=value` gives a name, or its usual one.
fn value<'a>(row: &'a str, name: &str, usual: &'a str) -> &'a str {
    for field in row.split(' ') {
        if let Some((named, value)) = field.split_once('=') {
            if named == name {
                return value;
            }
        }
    }
    usual
}

/// Adds a template to a text: each `<name=usual>` in it is the value of a row, or the usual one.
fn push_filled(text: &mut String, template: &str, row: &str) -> Result<(), AllocError> {
    for part in template.split('<') {
        let Some((hole, rest)) = part.split_once('>') else {
            text.push_str(part)?;
            continue;
        };
        if let Some((name, usual)) = hole.split_once('=') {
            text.push_str(value(row, name, usual))?;
        }
        text.push_str(rest)?;
    }
    Ok(())
}

/// The small tables up to the streams of bus A: it has labels 203 and 204. The keys of version 2 are comments where a row
/// does not name them.
const HEAD: &str = "version = <version=1>
tick_us = <tick=1000>
[[parameter]]
label = \"203\"
equipment = \"001\"
format = \"bnr\"
min_us = <least=10000>
max_us = 20000
[[parameter]]
label = \"<second=204>\"
equipment = \"001\"
format = \"bnr\"
min_us = 10000
max_us = 20000
[[bus]]
name = \"A\"
speed = \"high\"
<queue_key=queue> = <queue=2>
<police_key=# police> = <police=true>
[[bus.stream]]
name = \"A-203\"
label = \"203\"
equipment = \"001\"
sdi = \"any\"
<jitter_key=# jitter_us> = <jitter=0>
[[bus.stream]]
name = \"A-204\"
label = \"204\"
equipment = \"001\"
sdi = \"any\"
<jitter_key=# jitter_us> = <jitter=0>
";

/// A third stream of bus A, with its parameter.
const THIRD: &str = "[[bus.stream]]
name = \"A-205\"
label = \"205\"
equipment = \"001\"
sdi = \"any\"
[[parameter]]
label = \"205\"
equipment = \"001\"
format = \"bnr\"
min_us = 10000
max_us = 20000
";

/// A second bus with one stream.
const SECOND: &str = "[[bus]]
name = \"B\"
speed = \"high\"
queue = 2
[[bus.stream]]
name = \"B-203\"
label = \"203\"
equipment = \"001\"
sdi = \"any\"
";

/// Router R1, and output O with label x.
const TAIL: &str = "[[router]]
name = \"R1\"
steps = <steps=1>
within = <within=1>
most = <most=2>
visits = [<visits=\"A\">]
[[output]]
name = \"O\"
speed = \"high\"
steps = 1
within = <send_within=2>
frame = <frame=15>
[[output.label]]
name = \"x\"
label = \"203\"
equipment = \"001\"
sdi = 0
sources = [<sources=\"A-203\">]
stale = <stale=22>
age = <limit=30>
offsets = [<offsets=0>]
";

/// What certifies the small tables.
const CERTIFICATE: &str =
    "{\"inputs\":[{\"backlog\":<backlog=2>,\"bus\":\"<input=A>\",\"delay\":<delay=2>,\"window\":<window=3>}<more=>],\"labels\":[{\"age\":<age=24>,\"label\":\"<name=x>\"}],\"outputs\":[{\"delay\":<output_delay=2>,\"output\":\"<sender=O>\",\"window\":<output_window=3>}],\"version\":1}";

/// Adds the small tables to a text, with the values of a row. With `streams=3` bus A has a third stream, with `buses=2`
/// there is a bus B after it.
pub fn push_small_tables(text: &mut String, row: &str) -> Result<(), AllocError> {
    push_filled(text, HEAD, row)?;
    if value(row, "streams", "2") == "3" {
        text.push_str(THIRD)?;
    }
    if value(row, "buses", "1") == "2" {
        text.push_str(SECOND)?;
    }
    push_filled(text, TAIL, row)
}

/// Adds the certificate of the small tables to a text, with the values of a row.
pub fn push_small_certificate(text: &mut String, row: &str) -> Result<(), AllocError> {
    push_filled(text, CERTIFICATE, row)
}
