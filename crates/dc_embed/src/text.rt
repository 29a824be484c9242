//! Texts that are handed out in a buffer of the caller.
ghost use Rattle.dc_embed.specs.Slots.{Puts};

/// Puts a text to the front of another one, where there is room, and tells its length; else 0, and nothing is written.
pub(crate) fn put_text(text: &[u8], room: &mut [u8]) -> usize
    ensures { Puts text.now room.old room.new result }
{
    if text.len() > room.len() {
        return 0;
    }
    room[..text.len()].copy_from_slice(text);
    text.len()
}
