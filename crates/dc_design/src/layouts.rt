//! Layouts of tables.
use crate::drafts::{Untabled, text_in};
use crate::laid_lines::{Layout, write_laid};
use dc_design_rows::{Document, Lines};
use dc_document::Parts;
use dc_plan::{Knobs, Unplanned, Waiting, plan_layout};
use std::alloc::Global;

/// The text of tables with a layout; or that it is too long.
fn text_of(alloc: Global, parts: &Parts, layout: &Layout<'_>) -> Result<String, Untabled> {
    let mut lines = Lines::new(alloc);
    write_laid(parts, layout, &mut lines);
    text_in(alloc, u64::from(parts.tick_us()), lines)
}

/// The text of tables that are as these but for their layout, which breaks no rule: what their readers refuse is wrong with all else.
///
/// # Errors
///
/// That the text is too long, or want of memory.
pub fn set_apart(alloc: Global, parts: &Parts) -> Result<String, Untabled> {
    text_of(alloc, parts, &Layout::Apart)
}

/// The text of tables that are as these but for their layout, which is planned for what waits on each bus; or what stands in the way.
/// They break no rule but those of layouts; nothing waits on a bus of which no window closes. What holds of the text is for its judges
/// to say.
///
/// # Errors
///
/// What stands in the way, or want of memory.
pub fn lay_out(
    alloc: Global,
    parts: &Parts,
    waiting: &[Option<Waiting>],
) -> Result<String, Untabled> {
    let Ok(document) = Document::of_tables(alloc, parts) else {
        return Err(Untabled::NoMemory);
    };
    let knobs = Knobs::new(u64::from(parts.tick_us()), None, false);
    match plan_layout(alloc, &document, waiting, &knobs) {
        Ok(plan) => text_of(alloc, parts, &Layout::Planned(&document, &plan)),
        Err(Unplanned::NoMemory) => Err(Untabled::NoMemory),
        Err(Unplanned::Obstacles(obstacles)) => Err(Untabled::Obstacles(obstacles)),
    }
}
