//! A text read whole.
ghost use Rattle.std.specs.Prelude.{◌≡◌, ◌+◌, ◌<◌, ◌≤◌, ◌↔◌, length, IfOk, IfSome};
ghost use Rattle.dc_device.specs.Whole.{ReadsWhole, failed_in};
ghost use Rattle.dc_device.specs.States.{AsksUpTo, IsCountable};

use crate::device::Source;
use crate::reader::BLOCK;
use std::alloc::Global;

/// Why a text was not read whole.
#[derive(Clone, Copy, Debug, PartialEq, Eq)]
pub enum Unread {
    /// The source failed.
    Device,
    /// Memory was refused.
    Memory,
    /// The text has more bytes than it may have.
    TooLong,
}

/// All the bytes that the source still gives, where these are at most `limit`. It pulls at most once more than that,
/// and at most one pull gives no byte.
///
/// # Errors
/// `TooLong` where the source gives more bytes; `Device` where it failed; `Memory` where an allocation failed.
pub fn read_at_most<S: Source>(
    alloc: Global,
    source: &mut S,
    limit: usize,
) -> Result<Vec<u8>, Unread>
    requires { IsCountable (S.state source.old) }
    ensures bytes { IfSome (S.state source.old).remaining (λ text. ReadsWhole text limit result) }
    ensures count { (S.state source.new).failed ≡ (S.state source.old).failed + failed_in result }
    ensures asks { AsksUpTo limit (S.state source.old) (S.state source.new) }
    ensures within { IfOk result (λ bytes. length bytes.items ≤ limit) }
{
    let mut text = Vec::new(alloc);
    let mut block = [0; BLOCK];
    loop {
        let n = match source.pull(&mut block) {
            Ok(n) => n,
            Err(_) => return Err(Unread::Device),
        };
        if n == 0 {
            return Ok(text);
        }
        if n > limit - text.len() {
            return Err(Unread::TooLong);
        }
        match text.extend_from_slice(&block[..n]) {
            Ok(()) => {}
            Err(_) => return Err(Unread::Memory),
        }
    }
}
