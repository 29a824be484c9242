//! What the codes mean, in the words of the tables of docs/formats.md, which `scripts/codes` compares. Of each code there
//! are four lines: the code, what it means, an example, and what to do; an empty line parts it from the next.

use crate::kind::Kind;

/// The texts of the codes of a kind.
pub(crate) fn texts_of(kind: Kind) -> &'static str {
    match kind {
        Kind::Decoded => DECODED,
        Kind::Failure => FAILURE,
        Kind::Table => TABLE,
        Kind::Certificate => CERTIFICATE,
        Kind::Condition => CONDITION,
        Kind::Finder => FINDER,
        Kind::Trace => TRACE,
        Kind::Reply => REPLY,
        Kind::Step => STEP,
        Kind::Audit => AUDIT,
        Kind::Observed => OBSERVED,
        Kind::Bench => BENCH,
        Kind::Capture => CAPTURE,
        Kind::Survey => SURVEY,
        Kind::System => SYSTEM,
        Kind::Link => LINK,
    }
}

/// Of the words that `decode` reads.
const DECODED: &str = "\
E1
the line has over 64 bytes, its line feed not counted, or the text over 2^63 - 1
65 letters `A`: E1 at line 1
one word a line

E6
the input ends inside a line that has at least one byte
`600000C1` without a line feed: E6 at line 1
end the last line with a line feed

E5
the line is not eight hexadecimal digits (an empty line too)
`600000C`: E5 at line 1
write the word as eight hexadecimal digits and nothing else in its line: no `0x`, no blanks, no carriage return";

/// Of what kept the program from its work.
const FAILURE: &str = "\
device
a file cannot be opened, or a read, a write or a flush failed
`dc429 find absent.toml`, where there is no such file
mend the path, or what the input comes from or the output goes to; where lines were written before, they are whole and stand

memory
memory was refused
`check` with a limit of memory that is too low for the tables
give the process more memory

threads
a thread that `check --workers`, `network --workers` or `bench` needs could not be started
`check --workers 64` with 64 mebibytes of memory, which hold no 64 stacks
fewer workers, or a higher limit of threads. Without `--workers` the verdict is the same and needs none";

/// Of the faults of tables.
const TABLE: &str = "\
T01
the text is over 1,048,576 bytes, not UTF-8 or no TOML document
`version = 1` twice: T01 at top
mend the text: `--explain always` shows the place

T02
`version` is absent or neither 1 nor 2
`version = 3`: T02 at top
write `version = 1`; or `version = 2`, with `police` in each bus and `jitter_us` in each stream

T03
a wanted key is absent
no `tick_us`: T03 at top; in policed.toml no `police`: T03 at bus 0
add it: docs/formats.md, \"Tables\", has the keys of each table

T04
a key is unknown
`colour = 1` in the bus, or `police = true`: T04 at bus 0
mend its spelling, take it out, or write `version = 2`

T05
a value is not of its key's kind
`queue = 2.0`: T05 at bus 0; in policed.toml `police = 1`: T05 at bus 0
write a number, a text, a list, true or false, as docs/formats.md says of the key under \"Tables\"

T06
a number is outside its range
`tick_us = 10001`: T06 at top; in policed.toml `jitter_us = 60000001`: T06 at stream 0
write a number within the range of the key: docs/formats.md, \"Tables\"

T07
a text is not in its spelling
the first parameter's `label = \"380\"`: T07 at parameter 0
write the text as its key is spelled: docs/formats.md, \"Tables\"

T08
a list, or a total over the tables, is outside its limits
`visits = []`: T08 at router 0
write at least one member into a list that has none; of more than the greatest number take some out, or split the tables

T09
two parameters have one label and equipment code
the second parameter's `label = \"203\"`: T09 at parameter 1
keep one of the two, or mend the `label` or `equipment` of the other

T10
`min_us` is over `max_us`
`min_us = 30000`: T10 at parameter 0
exchange them

T11
the `min_us` of a stream's parameter is shorter than one tick
both `min_us = 999`: T11 at stream 0
a greater `min_us`, or a shorter `tick_us`

T12
the parameter of an output label leaves it no interval in whole ticks: the least, `min_us / tick_us` rounded up and one more, is over the greatest, `max_us / tick_us` rounded down less one
`tick_us = 10000`, where the least is 2 ticks and the greatest 1: T12 at label 0
a greater `max_us`, a smaller `min_us`, or a shorter `tick_us`; where `min_us` and `max_us` are equal no tick helps

T13
a name is doubled within its kind
the second stream's `name = \"A-203\"`: T13 at stream 1
rename the later one

T14
no parameter has the label and equipment code of a stream or label
the second stream's `equipment = \"002\"`: T14 at stream 1
mend its `label` or `equipment`, or add the parameter

T15
two streams of a bus have one label, and equal SDI or one of them \"any\"
the second stream's `label = \"203\"`: T15 at stream 1
give them different SDI, none of them \"any\", or take one out

T16
`visits` or `sources` holds a name that is not there
`visits = [\"A\", \"B\"]`: T16 at router 0
mend the spelling, or add the bus or stream of this name

T17
a bus is in the visits of no router, or of two routers
a second router that visits A: T17 at bus 0
write it into the `visits` of one router and no other

T18
a label names one source twice
`sources = [\"A-203\", \"A-203\"]`: T18 at label 0
name it once

T19
a label's format is not that of each of its sources
the label's parameter is `bnr`, a source's `bcd`: T19 at label 0
take sources of the label's format, or mend the `format` of a parameter

T20
an offset is not below the `frame`
`offsets = [15]`: T20 at label 0
an offset from 0 to `frame` - 1, or a longer `frame`, which moves all labels of the output

T21
two offsets of an output are one tick of its frame, be they of one label or of two
`offsets = [0, 0]`: T21 at label 0
move one of the two to a tick of the frame that is free

T22
two labels of an output have one label and SDI
a second label 203 with SDI 0: T22 at label 1
give one of the two another SDI, or another output

T23
a router owes more steps than it may make: in `within` ticks of `most` steps each there is no room for `steps`, so `steps` > `most` x `within`
R1 with `steps = 3`, `most = 1`, which owes 3 steps in 1 tick and may make 1: T23 at router 0
a smaller `steps`, or a greater `most` or `within`

T24
an output owes more words than its wire carries: in `within` ticks there is no room for `steps` words that lie a gap apart (365 microseconds at high speed and 3,050 at low, in ticks, rounded up), so `steps` x gap > `within`
O with `steps = 3`, which owes 3 words in 2 ticks, and one a tick has room: T24 at output 0
a smaller `steps` or a greater `within`; or a longer tick, where `tick_us` is shorter than was meant";

/// Of the faults of a certificate.
const CERTIFICATE: &str = "\
K1
the text is over 1,048,576 bytes, not UTF-8 or no JSON text with nothing after it
its last brace left out: K1 at top
mend the text, or let `dc429 find` write one

K2
`version` is absent or not the number 1
`\"version\":2`: K2 at top
write `\"version\":1`

K3
a wanted key is absent
no `delay` of A: K3 at inputs 0
add it, or let `dc429 find` write the certificate

K4
a key is unknown
`\"remark\":0` beside `version`: K4 at top
mend its spelling, or take it out

K5
a value is not of its kind; a number is negative, too large, or written with a fraction or exponent
A's `\"window\":3.0`: K5 at inputs 0
write a whole number from 0 to 4,294,967,295 in digits alone, a name in quotes, or a list

K6
a list has more than 1,024 members, or a name is not in its spelling
`\"bus\":\"A B\"`: K6 at inputs 0
the names as in the tables: 1 to 16 of `A-Z a-z 0-9 _ -`";

/// Of the conditions of certificates.
const CONDITION: &str = "\
C01
the inputs are not the tables' buses, once each in their order; or the outputs, or the labels likewise
no inputs: `refused C01 inputs`
write the names as the tables spell and order them

C02
the window is not one of 1 to 100,000 ticks
A's window 0: `refused C02 input A`
write a window that closes (C03): `dc429 find` writes the least

C03
the window does not close: more may come in it than is surely taken by its end, `a(window) > s(window - 1)`
A's window 2, by whose end 2 words may have come and 1 has surely been taken: `refused C03 input A`
a longer window; or, in the tables, more `steps` or a shorter `within`

C04
more words may wait than the backlog says: for some w up to the window `a(w) - s(w - 2)` is over it; the first w is named
A's backlog 1, where 2 words may come in tick 1 before any is taken: `refused C04 input A window 1`
a greater backlog, up to the `queue` of the bus

C05
the backlog is over the `queue` of the bus
`queue = 1` in the tables: `refused C05 input A`
a smaller backlog, where C04 lets it; else a longer `queue`, or more `steps` of the router and then a smaller backlog

C06
a word may wait longer than the delay says: for some w up to the window, what may have come by tick w has not all surely been taken `delay` ticks later, `a(w) > s(w - 1 + delay)`; the first w is named
A's delay 1, where 2 words may come in tick 1, and by tick 2 only 1 has surely been taken: `refused C06 input A window 1`
a greater delay: `dc429 find` writes the least that is enough

C07
the delay is over 100,000 ticks
A's delay 100001: `refused C07 input A`
a delay of at most 100,000: `dc429 find` writes the least that is enough

C08
two words of the label may leave too soon after one another: the least gap of its entries is below its output minimum (`min_us / tick_us` rounded up, and one more) + the output's delay
O's delay 5: a word may leave 5 ticks late and the next in time, 15 - 5 = 10 ticks apart, where 11 are wanted: `refused C08 label x`
`offsets` further apart, or a smaller delay of the output, where C06 lets it

C09
two words of the label may leave too late after one another: the greatest gap of its entries + the output's delay is over its output maximum (`max_us / tick_us` rounded down, less one)
`frame = 18` in the tables: a word may leave in time and the next 2 ticks late, 18 + 2 = 20 ticks apart, where 19 are allowed: `refused C09 label x`
`offsets` nearer together, as by more of them or a shorter `frame`, or a smaller delay of the output, where C06 lets it

C10
a word may leave that is older than the age says: the age is below `stale` + the greatest delay of its sources' buses
age 23, where a word may be 2 ticks in the queue and be sent 22 (`stale`) after it, 24 in all: `refused C10 label x`
a greater age, up to the `age` of the tables

C11
the age is over the label's limit, its `age` in the tables
age 31, where the tables allow 30: `refused C11 label x`
a smaller age, where C10 lets it; else a shorter `stale`, a quicker router of its sources' buses, or a greater `age` in the tables

C12
a source that keeps its interval could be passed over as silent: `stale` is below its bus's delay + its input maximum (`max_us / tick_us` rounded up)
`stale = 21` in the tables: two words may come 20 ticks apart and the second wait 2, 22 in all: `refused C12 label x`
a longer `stale`, with an `age` that lets it (C11), or a smaller delay of the bus, where C06 lets it";

/// Of what stands in the way of each certificate.
const FINDER: &str = "\
F1
no window of 1 to 100,000 ticks closes: it is never sure that all that came is taken, as where in the long run as much may come as is surely taken, or more
R1 with `within = 10`: 2 words may come in each 10 ticks, and 1 is surely taken: `refused F1 input A`
of an input: more `steps` of its router, a smaller `within`, more visits of the bus where the router visits others too, a greater `min_us` of its streams, or fewer of them; of an output: more `steps`, a smaller `within`, or fewer entries in its frame

F2
more words may wait in the receive queue of a bus than it holds
`queue = 1`, where 2 words may come in one tick before any is taken: `refused F2 input A`
a longer `queue`, a quicker router, or less jitter

F3
whatever is accepted of the inputs and outputs, a condition on the label fails: C08, C09 or C12, or C10 and C11 together, which is told as C11
`stale = 21`, where two words may come 20 ticks apart and the second wait 2: `refused F3 label x C12`
what the code behind the name asks for, as `dc429 explain C12`. Of C11: a greater `age`, a shorter `stale`, or a quicker router of its sources' buses";

/// Of the faults of a trace.
const TRACE: &str = "\
E1
a line has over 64 bytes, or the trace passes its limit
65 letters `A`: E1 at line 1
one event a line; a shorter trace: 1,073,741,824 bytes for `replay`, and 100,000 events for `audit`; or `--long`

E2
the first field is not A, R, S or T (an empty line too)
`t`: E2 at line 1
begin the line with A (a word comes), R (a router steps), S (an output sends) or T (the tick ends), in upper case; no empty lines and no comments

E3
the number of fields is not that of its kind
`A A`: E3 at line 1
`A <bus> <word>`, `R <router>`, `S <output>` or `T`, with one space between fields and none at the end

E4
the name is not in the tables
`R R2`: E4 at line 1
the name of a bus after A, of a router after R, of an output after S, as in the tables

E5
the word is not eight hexadecimal digits
`A A 600000C`: E5 at line 1
write the word as eight hexadecimal digits

E6
the input ends inside a line that has at least one byte
`T` without a line feed: E6 at line 1
end the last line with a line feed";

/// Of the replies of `replay`.
const REPLY: &str = "\
parity
the word that came has even parity: it is not queued, and it is lost
`A A 200000C1`: `0 A parity 200000C1`
mend the sender or the wire, or set the parity bit (bit 32) of the word in the trace so that it has an odd number of ones

undeclared
the word that came has a label and SDI of no stream of its bus: it is not queued, and it is lost
`A A E0000081`: `0 A undeclared E0000081`
declare a stream of this label and SDI on the bus, or leave it: no output copies such words

early
on a policed bus the word came sooner than the interval and the jitter of its stream let it: it is not queued, and it is lost
in policed.toml `A A 600000C1`, `A A 600000C1`: `0 A early 600000C1`
mend the source, or declare a smaller `min_us` or a greater `jitter_us` and judge a certificate for these tables

overrun
the receive queue of the bus is full: the word is lost, and after it the bus brings nothing more
`A A 600000C1`, `A A E0000021`, `A A 600000C1`: `0 A overrun 600000C1`
a longer `queue` or a quicker router, as an accepted certificate asks for; or mend the source that sends too soon

latched
the word came on a bus whose queue has overrun before: it is lost, and no output uses the bus as fresh
after the three lines of `overrun` a fourth, `A A 600000C1`: `0 A latched 600000C1`
find the first `overrun` of the bus, and mend that

queued
the word that came is in the receive queue, in which so many words wait now
`A A 600000C1`: `0 A queued 1`
nothing: this is as it should be

took
the router took this word from the queue of this bus
`A A 600000C1`, `R R1`: `0 R1 took A 600000C1`
nothing: this is as it should be

empty
the router came to this bus, and no word waited there
`R R1`: `0 R1 empty A`
nothing: this is as it should be

idle
no entry of the output was due that had not been sent
`S O`, `R R1`, `T`, `R R1`, `T`, `R R1`, `S O`: `2 O idle`
nothing: this is as it should be

tick
the tick ended, and this one began
`R R1`, `T`: `1 tick`
nothing: this is as it should be";

/// Of the steps that may not follow those before them.
const STEP: &str = "\
spent
the router has made its `most` steps in this tick
`R R1`, `R R1`, `R R1`: `refused spent R1 at line 3`
fewer steps a tick, or a greater `most`

early
the output's last send lies less than its gap back (its spacing in ticks, rounded up)
`S O`, `S O`: `refused early O at line 2`
sends further apart. This is no reply: no word is refused, but a step

owed
the tick cannot end: this router or output has made fewer than its `steps` in the last `within` ticks, the running one included. The first such one is reported, routers before outputs
`T`: `refused owed R1 at line 1`
more steps before the Tick, or smaller `steps` or a greater `within`

ticks
the tick would pass 2^40; reported before `owed`
none that fits in a trace of 1,099,511,627,776 bytes
a shorter trace";

/// Of the lines of `audit`.
const AUDIT: &str = "\
budgets
the event there is a step too many of a router in one tick, a send within the gap of its output, or a Tick before some router or output has made its `steps` in the last `within` ticks: an actor that runs ahead, or one that starves
`T` 21 times: `budgets fail at 1`
mend the schedule of that actor, or declare what it does (a greater `most` or `within`, smaller `steps`) and judge a certificate for these tables

sources
the word there comes sooner than the interval and jitter of its stream let it, or is more than the wire of its bus carries: a source that sends too soon
`A A 600000C1`, `A A E0000021`, `A A 600000C1`: `sources fail at 3`
mend the source, or declare what it does (a smaller `min_us`, a greater `jitter_us`, `speed`), or let the bus refuse such words (`police = true`), and judge a certificate for these tables

claim
the least claim that fails at the first event at which any does. 1: a receive queue overruns. 2: a word leaves that copies one older than the age of the certificate. 3: a live first source whose recent words are usable is left aside, or a word leaves that is not usable though the recent words of a live source are. 4: a label leaves too soon after its last time, or has not left for longer than its greatest interval
`T` 21 times: `claim 4 fails at 21`
see which of the two lines above fails, and mend that";

/// Of the faults of the lines that `report --observed` reads.
const OBSERVED: &str = "\
E1
the line has over 256 bytes, its line feed not counted; or the text has over 1,048,576, which is told at line 1
257 letters `A` as the first line: E1 at line 1
hand in what `observe` wrote and nothing else: it writes a line for each input, output and label

E2
the first field is not `input`, `output` or `label` (an empty line too)
`inputs` in the first line: E2 at line 1
hand in what `observe` wrote and nothing else: no heading, no comments, no empty lines. Where it wrote `refused`, `unreadable` or `failed` there is nothing to show: mend what that says first

E3
the fields are not those of the line's kind: their number is another, or a word between them
the second line ends behind `late 0`: E3 at line 2
write the line as `observe` does, with one space between fields and none at the end

E4
the kind or the name is not that of the row that is next in the tables: each input, then each output, then each label; or a line is missing, at the line behind the last, or is one too many
the first two lines exchanged: E4 at line 1
hand in all lines that `observe` wrote for these tables, in its order

E5
a number is not below 2^64 in decimal digits, without a sign and leading zeros (`-` is one of an age and of a least interval alone); or one behind `of` is not that of the certificate or of the tables
`late 0 of 3` in the second line, where the certificate's delay is 2: E5 at line 2
let `observe` read the run beside this certificate and these tables, and hand in what it writes then

E6
the text ends inside a line that has at least one byte
the last line without its line feed: E6 at line 3
end the last line with a line feed";

/// Of the lines of `bench`.
const BENCH: &str = "\
hub
with status 1, only where a step was refused, a seat's steps were not its actor's own, or a book of the hub did not close
none: the tests never see it
report it as a fault of the program, with the tables and the certificate";

/// Of the faults of a capture.
const CAPTURE: &str = "\
E1
the line has over 64 bytes, its line feed not counted, or the capture over 2^63 - 1
65 letters `A`: E1 at line 1
one word a line

E6
the input ends inside a line that has at least one byte
`1000 A 600000C1` without a line feed: E6 at line 1
end the last line with a line feed

E3
the line has not three fields (an empty line too)
`1000 A`: E3 at line 1
`<microseconds> <bus> <word>`, with one space between fields and none at the end; no heading, no comments

E7
the first field is no time: not decimal digits alone, or over 2^53
`1000.5 A 600000C1`: E7 at line 1
write whole microseconds, 0 to 9,007,199,254,740,992, in digits alone: no sign, no point, no exponent

E4
the second field is the name of no bus of the tables
`1000 B 600000C1`: E4 at line 1
the name of a bus as in the tables

E5
the third field is not eight hexadecimal digits
`1000 A 600000C`: E5 at line 1
write the word as eight hexadecimal digits and nothing else: no `0x`, no carriage return

E8
the time is less than that of the line before, or, of `trace`, than its `--from`
`1000 A 600000C1`, `999 A E0000021`: E8 at line 2
sort the lines by their times, as `sort -s -n` does";

/// Of the words of a line of `survey`.
const SURVEY: &str = "\
broken
the word at this line came less than the spacing of its wire after the one before it, 350 microseconds at high speed and 2,450 at low: the first one that did. The survey ends with status 1
`0 A 600000C1`, `349 A E0000021`: `bus A words 2 parity 0 undeclared 0 spacing 349 broken at 2`
look at the grain of the times first: an analyser that stamps whole milliseconds breaks each wire. Else mend the source, or the `speed`, or let the bus refuse such words (`police = true`), and judge a certificate for these tables

early
the word at this line came sooner than the `min_us` and the `jitter_us` of its stream let it, counted with all words of the stream before it: the first one that did. Where the bus is not policed the survey ends with status 1
`0 A 600000C1`, `9000 A 600000C1`: `stream A-203 words 2 least 9000 greatest 9000 jitter 1000 over 0 early at 2`
mend the source, or declare the jitter of this line, or a little more, as `jitter_us`, or a smaller `min_us`, and judge a certificate for these tables

silent
no word of the stream came
an empty capture: `stream A-203 words 0 least - greatest - jitter 0 over 0 silent`
nothing, where the source was off; else look at the words that are `undeclared` on its bus: the label or SDI of the stream may be another one";

/// Of the faults of a system.
const SYSTEM: &str = "\
N01
the text is over its limit, not UTF-8 or no TOML document
`version = 1` twice: N01 at top
mend the text: `--explain always` shows the place

N02
`version` is absent or not 1
`version = 2`: N02 at top
write `version = 1`

N03
a wanted key is absent
no `most_us` in the first link: N03 at link 0
add it: docs/formats.md, \"Systems\", has the keys of each table

N04
a key is unknown
`colour = 1` in the first link: N04 at link 0
mend its spelling, or take it out

N05
a value is not of its key's kind
the first link's `most_us = 2.0`: N05 at link 0
write a number, a text or a list, as docs/formats.md says of the key under \"Systems\"

N06
a number is outside its range
the first link's `most_us = 1000001`: N06 at link 0
write a number within the range of the key: docs/formats.md, \"Systems\"

N07
a text is not in its spelling
the first link's `from = \"FWD\"`: N07 at link 0
write the text as its key is spelled: docs/formats.md, \"Systems\"

N08
a list is outside its limits
`concentrator = []` in the place of its tables: N08 at top
write 1 to 64 concentrators and up to 1,024 links, or split the system

N09
the name of a concentrator is doubled
the second concentrator's `name = \"FWD\"`: N09 at concentrator 1
rename the later one

N10
a link leads from or to a concentrator that is not there
the first link's `to = \"MIDDLE.FROMFWD\"`: N10 at link 0
mend the name, or add the concentrator

N11
two links feed one bus
the second link's `to = \"MID.FROMFWD\"`: N11 at link 1
let the later one feed a bus of its own

N12
`least_us` over `most_us`
the first link's `least_us = 1000000`: N12 at link 0
exchange them

N13
links lead from a concentrator back to it: it is on a ring
the first link's `from = \"MID.TOAFT\"`, from MID to itself: N13 at concentrator 1
take out a link of the ring";

/// Of the faults of a link.
const LINK: &str = "\
N14
there is no such output, or no such bus
the first link's `to = \"MID.TOAFT\"`, an output of MID: `refused N14 link 0`
mend the name: `from` names an output, and `to` a bus, as in their tables

N15
the output and the bus have different speeds
in mid.toml `speed = \"low\"` of FROMFWD: `refused N15 link 0`
one speed for both

N16
two labels of the output feed one stream of the bus
in fwd.toml CAS with `label = \"203\"`, `sdi = 1`, `offsets = [10, 50]`: `refused N16 link 0 stream FWD-ALT`
part the stream by SDI

N17
the label that feeds a stream has another format
in mid.toml the first parameter's `format = \"bcd\"`: `refused N17 link 0 stream FWD-ALT`
one format for both

N18
words could come too soon: the stream's `min_us` + what its `jitter_us` does not cover of the link's `most_us - least_us` > the `min_us` of the label that feeds it
the first link's `most_us = 1000`: `refused N18 link 0 stream FWD-ALT`
a greater `jitter_us` or a smaller `min_us` of the stream, a greater `min_us` of the label, or a link that varies less

N19
words could come too late: the `max_us` of the label that feeds a stream + the link's `most_us - least_us` > the stream's `max_us`
the first link's `most_us = 800`: `refused N19 link 0 stream FWD-ALT`
a greater `max_us` of the stream, a smaller one of the label, or a link that varies less";
