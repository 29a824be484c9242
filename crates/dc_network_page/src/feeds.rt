//! What brings the words of streams: links, and the labels before them.

ghost use Rattle.std.specs.Prelude.{◌<◌, ◌≤◌, length};

use crate::shown::Shown;
use dc_tables::Tables;
use dc_ways::{Connection, Ways, feeds};
use std::alloc::{AllocError, Global};

/// What brings the oldest words of a stream: a link, and the label whose words come over it.
#[derive(Clone, Copy)]
pub struct Feed {
    /// The link.
    pub link: usize,
    /// The greatest latency of the link, in microseconds.
    pub latency: u64,
    /// The concentrator from which the link leads.
    pub from: usize,
    /// The label of that concentrator.
    pub label: usize,
    /// For how long its words may be under way when they come, in microseconds.
    pub us: u64,
}

/// What brings the words of each stream of each concentrator.
#[derive(Drop)]
pub struct Feeds {
    /// Of each concentrator, where its streams begin among those of all.
    firsts: Vec<usize>,
    /// Of each stream of all concentrators; `None` where no link feeds it.
    items: Vec<Option<Feed>>,
}

/// A link with both of its concentrators.
#[derive(Clone, Copy)]
struct Over<'a> {
    number: usize,
    link: &'a Connection,
    from: &'a Tables,
    to: &'a Tables,
    ways: &'a Ways,
    /// Where the streams of the concentrator to which it leads begin among those of all.
    first: usize,
}

impl<'a> Over<'a> {
    /// What brings the words of a label over the link.
    fn feed(&self, label: usize) -> Feed {
        let latency = u64::from(self.link.most_us);
        Feed {
            link: self.number,
            latency,
            from: self.link.from,
            label,
            us: latency.saturating_add(self.ways.of(label)),
        }
    }
}

/// Where the streams of a bus begin and where they end among those of its tables.
fn streams_of(tables: &Tables, bus: usize) -> (usize, usize)
    ensures { result.1 ≤ length tables.now.streams }
{
    if bus >= tables.bus_count() {
        return (0, 0);
    }
    let row = tables.bus(bus);
    let end = row.first.saturating_add(row.streams);
    (row.first, end.min(tables.stream_count()))
}

/// Whether words that come by this are older than those that come by what is kept.
fn is_older(feed: Feed, kept: Option<Feed>) -> bool {
    match kept {
        None => true,
        Some(kept) => kept.us < feed.us,
    }
}

impl Feeds {
    /// Those of a network: of each stream the first that brings the oldest words.
    ///
    /// # Errors
    /// `AllocError` where an allocation failed.
    pub fn of(alloc: Global, shown: &Shown<'_>) -> Result<Feeds, AllocError> {
        let mut feeds = Feeds::none(alloc, shown)?;
        for number in 0..shown.connections.len() {
            feeds.take_link(shown, number);
        }
        Ok(feeds)
    }

    /// The streams of all concentrators, none of them fed yet.
    fn none(alloc: Global, shown: &Shown<'_>) -> Result<Feeds, AllocError> {
        let mut firsts = Vec::new(alloc);
        let mut count: usize = 0;
        for member in shown.members {
            firsts.push(count)?;
            count = count.saturating_add(member.tables().stream_count());
        }
        let nothing: Option<Feed> = None;
        let items = vec![in alloc; nothing; count]?;
        Ok(Feeds { firsts, items })
    }

    /// Takes in what comes over a link.
    fn take_link(&mut self, shown: &Shown<'_>, number: usize) {
        let Some(link) = shown.connections.get(number) else {
            return;
        };
        let Some(from) = shown.tables(link.from) else {
            return;
        };
        let Some(to) = shown.tables(link.to) else {
            return;
        };
        let Some(ways) = shown.ways.get(link.from) else {
            return;
        };
        let first = self.first(link.to);
        let over = Over {
            number,
            link,
            from,
            to,
            ways,
            first,
        };
        self.take_over(&over);
    }

    /// Takes in the words of the labels of the link's output.
    fn take_over(&mut self, over: &Over<'_>) {
        for label in 0..over.from.label_count() {
            if over.from.label(label).output == over.link.output {
                self.take_label(over, label);
            }
        }
    }

    /// Takes in the words of a label, which come to the streams of the link's bus that it feeds.
    fn take_label(&mut self, over: &Over<'_>, label: usize)
        requires { label < length over.now.from.now.labels }
    {
        let (begin, end) = streams_of(over.to, over.link.bus);
        for stream in begin..end {
            if feeds(over.from, over.to, over.link, label, stream) {
                self.keep(over.first.saturating_add(stream), over.feed(label));
            }
        }
    }

    /// Keeps what brings the words of the stream at this place among all, where these are the oldest so far.
    fn keep(&mut self, place: usize, feed: Feed) {
        if let Some(kept) = self.items.get_mut(place) {
            if is_older(feed, *kept) {
                *kept = Some(feed);
            }
        }
    }

    /// Where the streams of a concentrator begin among those of all.
    fn first(&self, concentrator: usize) -> usize {
        match self.firsts.get(concentrator) {
            Some(first) => *first,
            None => self.items.len(),
        }
    }

    /// What brings the words of a stream of a concentrator.
    pub fn to(&self, concentrator: usize, stream: usize) -> Option<Feed> {
        let place = self.first(concentrator).saturating_add(stream);
        match self.items.get(place) {
            Some(feed) => *feed,
            None => None,
        }
    }

    /// How many streams a link feeds, where no other one leads to its bus.
    pub fn fed_by(&self, shown: &Shown<'_>, number: usize) -> u64 {
        let mut count: u64 = 0;
        let Some(link) = shown.connections.get(number) else {
            return count;
        };
        let Some(to) = shown.tables(link.to) else {
            return count;
        };
        let (begin, end) = streams_of(to, link.bus);
        for stream in begin..end {
            if self.is_fed_by(link.to, stream, number) {
                count = count.saturating_add(1);
            }
        }
        count
    }

    /// Whether a stream is fed by this link.
    fn is_fed_by(&self, concentrator: usize, stream: usize, number: usize) -> bool {
        match self.to(concentrator, stream) {
            Some(feed) => feed.link == number,
            None => false,
        }
    }
}
