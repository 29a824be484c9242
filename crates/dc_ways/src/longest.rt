//! The ways of all labels: how long a word may be under way, from the bus on which it comes in to the output that sends it.
ghost use Rattle.std.specs.Prelude.{◌≡◌, ℕ, ◌+◌, ◌*◌, ◌<◌, ◌≤◌, max, IfOk, OnOk, [], length, slice_index, slice_index_or, vec_len};
ghost use Rattle.dc_tables.specs.TableRows.{label_row};
ghost use Rattle.dc_network.specs.Networks.{AreWays, stay, way_over, way_to, way_of};
ghost use Rattle.dc_order.specs.declared.limits.TheConstants.{MOST_CONCENTRATORS};
ghost use Rattle.dc_ways.specs.Members.{AreBounded, AreConnections, ArePlaces, AreSmall, AreSoFar, AreWaysOf, concentrator, link_of, member_of, network_of, rows_of, way_by, way_from, ways_in};

use crate::connection::Connection;
use crate::feeding::feeds;
use crate::member::Member;
use crate::row::Ways;
use dc_order::MOST_CONCENTRATORS;
use dc_tables::Tables;
use std::alloc::{AllocError, Global};

/// The ways of all labels, concentrator by concentrator, where each link leads from an earlier of these places to a later
/// one.
///
/// # Errors
/// Where memory is out.
pub fn ways(
    alloc: Global,
    members: &[Member],
    connections: &[Connection],
    places: &[usize],
) -> Result<Vec<Ways>, AllocError>
    requires connections { AreConnections (length members.now) connections.now }
    requires places { ArePlaces members.now connections.now places.now }
    ensures { IfOk result (λ w. AreWays (network_of members.now connections.now) (ways_in w.items)) }
{
    let mut rows: Vec<Ways> = Vec::new(alloc);
    for _ in 0..members.len() {
        rows.push(Ways::new(alloc))?;
    }
    for level in 0..MOST_CONCENTRATORS + 1 {
        for i in 0..members.len() {
            step(alloc, members, connections, places, level, i, &mut rows)?;
        }
    }
    Ok(rows)
}

/// Takes one concentrator more, where it has this place.
fn step(
    alloc: Global,
    members: &[Member],
    connections: &[Connection],
    places: &[usize],
    level: usize,
    i: usize,
    rows: &mut Vec<Ways>,
) -> Result<(), AllocError>
    requires connections { AreConnections (length members.now) connections.now }
    requires places { ArePlaces members.now connections.now places.now }
    requires there { i < length members.now }
    requires so_far { AreSoFar members.now connections.now places.now level i rows.old.items }
    ensures { OnOk result (AreSoFar members.now connections.now places.now level (i + 1) rows.new.items) }
{
    if places[i] == level {
        return put(alloc, members, connections, places, level, i, rows);
    }
    Ok(())
}

/// Takes one concentrator more, which has this place.
fn put(
    alloc: Global,
    members: &[Member],
    connections: &[Connection],
    places: &[usize],
    level: usize,
    i: usize,
    rows: &mut Vec<Ways>,
) -> Result<(), AllocError>
    requires connections { AreConnections (length members.now) connections.now }
    requires places { ArePlaces members.now connections.now places.now }
    requires there { i < length members.now }
    requires place { slice_index places.now i ≡ level }
    requires so_far { AreSoFar members.now connections.now places.now level i rows.old.items }
    ensures { OnOk result (AreSoFar members.now connections.now places.now level (i + 1) rows.new.items) }
{
    let row = ways_of(alloc, members, connections, rows.as_slice(), i)?;
    rows[i] = row;
    Ok(())
}

/// The ways of one concentrator's labels from those before it.
fn ways_of(
    alloc: Global,
    members: &[Member],
    connections: &[Connection],
    rows: &[Ways],
    i: usize,
) -> Result<Ways, AllocError>
    requires connections { AreConnections (length members.now) connections.now }
    requires there { i < length members.now }
    requires each { length rows.now ≡ length members.now }
    requires small { AreSmall rows.now 2000000000000 }
    ensures ways { IfOk result (λ w. AreWaysOf members.now connections.now rows.now i w) }
    ensures size { IfOk result (λ w. length w ≡ length (rows_of members.now i).labels) }
    ensures bounded { IfOk result (λ w. AreBounded members.now connections.now rows.now i w) }
{
    let before = ways_to(alloc, members, connections, rows, i)?;
    let member = member(members, i);
    member.judged();
    let mut row = Ways::new(alloc);
    for label in 0..member.tables().label_count() {
        row.push(way_of(member, &before, label))?;
    }
    Ok(row)
}

/// The way of one label: the greatest over its sources of its stay and of their words' way before.
fn way_of(member: &Member, before: &[u64], label: usize) -> u64
    requires label { label < length member.now.written.tables.labels }
    requires each { length before.now ≡ length member.now.written.tables.streams }
    requires small { (s : ℕ) → slice_index before.now s ≤ 2000001000000 }
    ensures { result ≡ way_from (member_of member.now) (λ s. slice_index before.now s) label }
{
    let stay = stay(member, label);
    let mut most: u64 = 0;
    for source in sources_of(member, label) {
        most = most.max(stay + before[*source]);
    }
    most
}

/// A concentrator.
fn member(members: &[Member], i: usize) -> &Member
    requires { i < length members.now }
    ensures { result.now ≡ concentrator members.now i }
{
    &members[i]
}

/// The tables of a concentrator.
fn tables_of(members: &[Member], i: usize) -> &Tables
    requires { i < length members.now }
    ensures { result.now ≡ rows_of members.now i }
{
    members[i].tables()
}

/// The ways of a concentrator's labels.
fn row_of(rows: &[Ways], i: usize) -> &Ways
    requires { i < length rows.now }
    ensures { result.now ≡ slice_index_or rows.now i [] }
{
    &rows[i]
}

/// The sources of a label, which are streams of its tables.
fn sources_of(member: &Member, label: usize) -> &[usize]
    requires label { label < length member.now.written.tables.labels }
    ensures sources { result.now ≡ (label_row member.now.written.tables label).sources }
    ensures streams { (k : ℕ) → k < length result.now → slice_index result.now k < length member.now.written.tables.streams }
{
    let tables = member.tables();
    tables.valid();
    tables.label(label).sources.as_slice()
}

/// How long a word of the label may be in the concentrator.
fn stay(member: &Member, label: usize) -> u64
    ensures value { result ≡ stay (member_of member.now) label }
    ensures bound { result ≤ 20000010000 }
{
    member.judged();
    (u64::from(member.age(label)) + 1) * u64::from(member.tables().tick_us())
}

/// How long a word of each stream may be under way when it comes to the concentrator.
fn ways_to(
    alloc: Global,
    members: &[Member],
    connections: &[Connection],
    rows: &[Ways],
    i: usize,
) -> Result<Vec<u64>, AllocError>
    requires connections { AreConnections (length members.now) connections.now }
    requires there { i < length members.now }
    requires each { length rows.now ≡ length members.now }
    requires small { AreSmall rows.now 2000000000000 }
    ensures each { IfOk result (λ v. vec_len v ≡ length (rows_of members.now i).streams) }
    ensures value { IfOk result (λ v. (s : ℕ) → s < vec_len v → slice_index v.items s ≡ way_to (network_of members.now connections.now) (ways_in rows.now) i s) }
    ensures bound { IfOk result (λ v. (s : ℕ) → slice_index v.items s ≤ 2000001000000) }
{
    let mut before: Vec<u64> = vec![in alloc; 0; tables_of(members, i).stream_count()]?;
    for link in connections {
        take(members, link, rows, i, &mut before);
    }
    Ok(before)
}

/// Takes one link more, where it leads to the concentrator.
fn take(members: &[Member], link: &Connection, rows: &[Ways], i: usize, before: &mut [u64])
    requires from { link.now.from < length members.now }
    requires there { i < length members.now }
    requires rows { length rows.now ≡ length members.now }
    requires small { AreSmall rows.now 2000000000000 }
    requires each { length before.old ≡ length (rows_of members.now i).streams }
    ensures each { length before.new ≡ length before.old }
    ensures ways { (s : ℕ) → s < length before.old → slice_index before.new s ≡ max (slice_index before.old s) (way_by members.now link.now rows.now i s) }
{
    if link.to == i {
        take_over(
            tables_of(members, link.from),
            tables_of(members, i),
            link,
            row_of(rows, link.from),
            before,
        );
    }
}

/// Takes the ways over one link. Streams of other buses keep theirs.
fn take_over(from: &Tables, to: &Tables, link: &Connection, ways: &Ways, before: &mut [u64])
    requires small { (y : ℕ) → slice_index ways.now y ≤ 2000000000000 }
    requires each { length before.old ≡ length to.now.streams }
    ensures each { length before.new ≡ length before.old }
    ensures ways { (s : ℕ) → s < length before.old → slice_index before.new s ≡ max (slice_index before.old s) (way_over from.now to.now (link_of link.now) (λ y. slice_index ways.now y) s) }
{
    for stream in 0..to.stream_count() {
        let over = way_over(from, to, link, ways, stream);
        before[stream] = before[stream].max(over);
    }
}

/// How long a word of the stream may be under way when it comes over the link; 0 where the stream is of another bus.
fn way_over(from: &Tables, to: &Tables, link: &Connection, ways: &Ways, stream: usize) -> u64
    requires stream { stream < length to.now.streams }
    requires small { (y : ℕ) → slice_index ways.now y ≤ 2000000000000 }
    ensures { result ≡ way_over from.now to.now (link_of link.now) (λ y. slice_index ways.now y) stream }
{
    if to.stream(stream).bus != link.bus {
        return 0;
    }
    greatest_over(from, to, link, ways, stream)
}

/// The greatest over the labels that feed the stream.
fn greatest_over(from: &Tables, to: &Tables, link: &Connection, ways: &Ways, stream: usize) -> u64
    requires stream { stream < length to.now.streams }
    requires small { (y : ℕ) → slice_index ways.now y ≤ 2000000000000 }
    ensures { result ≡ way_over from.now to.now (link_of link.now) (λ y. slice_index ways.now y) stream }
{
    let mut most: u64 = 0;
    for label in 0..from.label_count() {
        if feeds(from, to, link, label, stream) {
            most = most.max(u64::from(link.most_us) + ways.of(label));
        }
    }
    most
}
