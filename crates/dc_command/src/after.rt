//! What the help of a command says behind its options: an example, where its input comes from, and its exit status.

/// Behind the options of `decode`.
pub(crate) const AFTER_DECODE: &str = "Example: dc429 decode bnr < words.txt

The words come from standard input.

Exit status:
  0  every word is decoded
  2  a line that is no word, or a wrong command line
  3  a device or memory was not to be had";

/// Behind the options of `check`.
pub(crate) const AFTER_CHECK: &str = "Example: dc429 check tables.toml certificate.json

A file named - is standard input, which only one of the two can be; one of that
name is ./-

Exit status:
  0  accepted
  1  refused
  2  a text that can't be read, or a wrong command line
  3  a file, a device, memory or a thread was not to be had";

/// Behind the options of `find`.
pub(crate) const AFTER_FIND: &str = "Example: dc429 find tables.toml > certificate.json

A file named - is standard input; one of that name is ./-

The keys of tables, with their units and ranges, stand in docs/formats.md under
\"Tables\"; examples/airdata.toml has each, to be copied and changed.

Exit status:
  0  found
  1  refused: no certificate is accepted for the tables
  2  a text that can't be read, or a wrong command line
  3  a file, a device or memory was not to be had";

/// Behind the options of `report`.
pub(crate) const AFTER_REPORT: &str =
    "Example: dc429 report tables.toml certificate.json > report.html

A file named - is standard input, which only one of the files can be; one of
that name is ./-. With --observed FILE the page shows what observe wrote of a
run for these tables and this certificate, each number beside the certificate's.
With --network SYSTEM the system's files are taken as network takes them:
dc429 report --network system.toml > network.html

Exit status:
  0  accepted
  1  refused
  2  a text that can't be read, or a wrong command line
  3  a file, a device or memory was not to be had";

/// Behind the options of `margins`.
pub(crate) const AFTER_MARGINS: &str = "Example: dc429 margins tables.toml certificate.json

A file named - is standard input, which only one of the two can be; one of that
name is ./-

Exit status:
  0  accepted
  1  refused
  2  a text that can't be read, or a wrong command line
  3  a file, a device or memory was not to be had";

/// Behind the options of `survey`.
pub(crate) const AFTER_SURVEY: &str = "Example: dc429 survey tables.toml < bus.capture

The capture comes from standard input, the tables from a file.

Exit status:
  0  each wire and each stream that is not policed is kept, or silent
  1  one of them is broken or early
  2  a text that can't be read, or a wrong command line
  3  a file, a device or memory was not to be had";

/// Behind the options of `trace`.
pub(crate) const AFTER_TRACE: &str =
    "Example: dc429 trace tables.toml < bus.capture | dc429 replay tables.toml

The capture comes from standard input, the tables from a file. Tick 0 begins
with the first word, where --from says nothing else.

Exit status:
  0  written to the end
  2  a text that can't be read, or a wrong command line
  3  a file, a device or memory was not to be had";

/// Behind the options of `replay`.
pub(crate) const AFTER_REPLAY: &str = "Example: dc429 replay tables.toml < run.trace

The trace comes from standard input, the tables from a file.

Exit status:
  0  replayed to the end
  1  refused: an event that may not follow those before it
  2  a text that can't be read, or a wrong command line
  3  a file, a device or memory was not to be had";

/// Behind the options of `audit`.
pub(crate) const AFTER_AUDIT: &str = "Example: dc429 audit tables.toml certificate.json < run.trace

The trace comes from standard input, the tables and the certificate from files.
Silence is always allowed: of the sources only minimums are tested, so an empty
trace keeps all.

Exit status:
  0  budgets, sources and claims hold
  1  one of them fails, or the certificate is refused
  2  a text that can't be read, or a wrong command line
  3  a file, a device or memory was not to be had";

/// Behind the options of `observe`.
pub(crate) const AFTER_OBSERVE: &str =
    "Example: dc429 observe tables.toml certificate.json < run.trace

The trace comes from standard input, the tables and the certificate from files.

Exit status:
  0  observed to the end, also where a number is past the one beside it
  1  the certificate is refused
  2  a text that can't be read, or a wrong command line
  3  a file, a device or memory was not to be had";

/// Behind the options of `bench`.
pub(crate) const AFTER_BENCH: &str = "Example: dc429 bench tables.toml certificate.json --ticks 100

A file named - is standard input, which only one of the two can be; one of that
name is ./-

Exit status:
  0  the claims hold
  1  one of them fails, or the certificate is refused
  2  a text that can't be read, or a wrong command line
  3  a file, a device, memory or a thread was not to be had";

/// Behind the options of `network`.
pub(crate) const AFTER_NETWORK: &str = "Example: dc429 network system.toml

A system named - is standard input; a file of that name is ./-. The files that
it names are taken from its folder, or where it is standard input from the
current one; as they are where they begin with /

Exit status:
  0  accepted
  1  refused
  2  a text that can't be read, or a wrong command line
  3  a file, a device, memory or a thread was not to be had";

/// Behind the options of `design`.
pub(crate) const AFTER_DESIGN: &str = "Example: dc429 design inputs.csv outputs.csv > tables.toml

Columns of inputs: bus, speed, label, equipment, format, min, max; and where
there is something to say sdi (else any), jitter (0), police (no), queue and
router (worked out), name (<bus>-<label>). Columns of outputs: output, speed,
label, equipment, sources (names, parted by blanks, or one each in Source 1 to
Source 8), min, max; and likewise sdi (else 0), max_age (else no limit),
timeout, name, format. Of both, where your tasks are settled: steps (else 1)
and within, the looks into queues, or sends, that the task of the bus or output
surely makes in any so much time: its period and how late it may be, together.
Without, what tasks are to do is worked out. A time's title has its unit, as in
\"Min ms\". A label that leaves at another rate than it comes has an equipment
code of its own. A name has 1 to 16 of A-Z a-z 0-9 _ -. A task that empties
several buses has one name under router in all their rows; without, each bus
gets a task of its own.

A file named - is standard input, which only one of the two sheets can be; one
of that name is ./-. Where no --tick is said, the first of eight that does is
taken; --headroom leaves so much of each queue, router, output wire and age,
where none is said a quarter, as far as it can; with --police nothing is asked
of the sources; --certificate writes over what stands there.

Exit status:
  0  designed: the tables are certified, and keep the rows of both sheets
  1  refused: what stands in the way, by rows and columns
  2  a cell or rows that can't be, or a wrong command line
  3  a file, a device or memory was not to be had";

/// Behind the options of `layout`.
pub(crate) const AFTER_LAYOUT: &str = "Example: dc429 layout draft.toml > tables.toml

What is read are tables in which frame of an output, stale and offsets of a
label need not stand, and are not looked at where they do: these are laid out.
All else stays as it is, tasks, visits, queues and ages too.

A file named - is standard input; one of that name is ./-

The keys of tables, with their units and ranges, stand in docs/formats.md under
\"Tables\"; examples/template.toml is such a text, to be filled in.

Exit status:
  0  laid out: a certificate is accepted for the tables, which find writes
  1  refused: what stands in the way
  2  a text that can't be read, or a wrong command line
  3  a file, a device or memory was not to be had";

/// Behind the options of `explain`.
pub(crate) const AFTER_EXPLAIN: &str = "Example: dc429 explain C06

Nothing is read.

Exit status:
  0  told
  2  a wrong command line
  3  a device or memory was not to be had";
