//! Names and numbers for C.
ghost use Rattle.std.specs.Prelude.{◌≡◌, Some};
ghost use Rattle.dc_embed.specs.Slots.{Finds, TellsText, list_at, text_in};

use crate::slot::{Slot, put, taken};
use crate::text::put_text;
use dc_engine::{Engine, NameList};
use std::alloc::Global;

/// The list of this number: 1 to 5.
fn list_of(number: u32) -> Option<NameList>
    ensures { result ≡ list_at number }
{
    match number {
        1 => Some(NameList::Buses),
        2 => Some(NameList::Streams),
        3 => Some(NameList::Routers),
        4 => Some(NameList::Outputs),
        5 => Some(NameList::Labels),
        _ => None,
    }
}

/// The number of the bus, stream, router, output or label with this name: true where the engine is open and there is
/// one.
#[unsafe(no_mangle)]
pub extern "C" fn dc429_number(
    alloc: Global,
    slot: &mut Slot,
    list: u32,
    name: &[u8],
    number: &mut usize,
) -> bool
    ensures kept { slot.new.handle.engine ≡ slot.old.handle.engine }
    ensures found { Finds slot.old.handle.engine (list_at list) name.now number.old number.new result }
{
    let Some(engine) = taken(alloc, slot) else {
        return false;
    };
    let found = match list_of(list) {
        None => None,
        Some(list) => engine.number_of(list, name),
    };
    put(slot, engine);
    match found {
        None => false,
        Some(place) => {
            *number = place;
            true
        }
    }
}

/// Puts the name of this list and number to the front of a text.
fn put_name(engine: &Engine, list: Option<NameList>, number: usize, text: &mut [u8]) -> usize
    ensures { TellsText (text_in (Some engine.now) list number) text.old text.new result }
{
    match list {
        None => 0,
        Some(list) => match engine.name_of(list, number) {
            None => 0,
            Some(name) => put_text(name.text(), text),
        },
    }
}

/// Copies the name of this list and number to the front of `text`, and tells its length: 0 where the engine is closed,
/// there is no such name or `text` is too short.
#[unsafe(no_mangle)]
pub extern "C" fn dc429_name(
    alloc: Global,
    slot: &mut Slot,
    list: u32,
    number: usize,
    text: &mut [u8],
) -> usize
    ensures kept { slot.new.handle.engine ≡ slot.old.handle.engine }
    ensures text { TellsText (text_in slot.old.handle.engine (list_at list) number) text.old text.new result }
{
    match taken(alloc, slot) {
        None => 0,
        Some(engine) => {
            let length = put_name(&engine, list_of(list), number, text);
            put(slot, engine);
            length
        }
    }
}
