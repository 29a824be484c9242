//! The whole page.

use crate::bars::{MOST_BARS, push_bars};
use crate::drawing::push_drawing;
use crate::feeds::Feeds;
use crate::layout::Layout;
use crate::links::push_links;
use crate::parts::{Part, Parts, longest};
use crate::promise::PROMISE;
use crate::sections::push_sections;
use crate::shown::Shown;
use crate::style::{FOOT, HEAD};
use crate::verdict::push_verdict;
use dc_page_text::Html;
use std::alloc::{AllocError, Global};

/// Adds the verdict, the promise, the drawing and the bars, given the longest ways.
fn push_longest(
    alloc: Global,
    html: &mut Html,
    shown: &Shown<'_>,
    layout: &Layout,
    parts: &Parts,
    longest: &[Part],
) {
    push_verdict(html, shown, parts, longest);
    html.add(PROMISE);
    push_drawing(html, shown, layout);
    push_bars(alloc, html, shown, parts, longest)
}

/// Adds all before the table of links.
fn push_whole(alloc: Global, html: &mut Html, shown: &Shown<'_>, layout: &Layout, parts: &Parts) {
    html.add(HEAD);
    match longest(alloc, parts.all(), MOST_BARS) {
        Ok(longest) => push_longest(alloc, html, shown, layout, parts, longest.as_slice()),
        Err(error) => html.lose(error),
    }
}

/// The page, given what brings the words of streams, what ways are made of, and where boxes and links stand.
fn page_of(
    alloc: Global,
    shown: &Shown<'_>,
    feeds: &Feeds,
    parts: &Parts,
    layout: &Layout,
) -> Result<String, AllocError> {
    let mut html = Html::new(alloc);
    push_whole(alloc, &mut html, shown, layout, parts);
    push_links(&mut html, shown, feeds);
    push_sections(alloc, &mut html, shown, layout, parts);
    html.add(FOOT);
    html.end()
}

/// The page, given what brings the words of streams, and what ways are made of.
fn page_with(
    alloc: Global,
    shown: &Shown<'_>,
    feeds: &Feeds,
    parts: &Parts,
) -> Result<String, AllocError> {
    match Layout::of(alloc, shown) {
        Ok(layout) => page_of(alloc, shown, feeds, parts, &layout),
        Err(error) => Err(error),
    }
}

/// The page, given what brings the words of streams.
fn page_behind(alloc: Global, shown: &Shown<'_>, feeds: &Feeds) -> Result<String, AllocError> {
    match Parts::of(alloc, shown, feeds) {
        Ok(parts) => page_with(alloc, shown, feeds, &parts),
        Err(error) => Err(error),
    }
}

/// The page on a network that is accepted, as HTML, with no line feed behind its end. No clause says what stands in it:
/// it is tested.
///
/// # Errors
/// `AllocError` where an allocation failed.
pub fn network_page(alloc: Global, shown: &Shown<'_>) -> Result<String, AllocError> {
    match Feeds::of(alloc, shown) {
        Ok(feeds) => page_behind(alloc, shown, &feeds),
        Err(error) => Err(error),
    }
}
