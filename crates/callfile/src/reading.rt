// Records of 16 bytes: byte 0 is the call, bytes 1 to 3 are spare, then come three 32-bit numbers, low byte first.
ghost use Rattle.callfile.specs.Records.{word_at, unused, offending, reading};
ghost use Rattle.std.specs.Prelude.{◌≡◌, ◌+◌, ◌≤◌};

use crate::call::{Call, Kind};
use crate::fault::ReaderFault;

// The 32-bit number at this place.
fn word(bytes: &[u8; 16], at: usize) -> u32
    requires { at + 4 ≤ 16 }
    ensures { result ≡ word_at bytes.now at }
{
    u32::from_le_bytes([bytes[at], bytes[at + 1], bytes[at + 2], bytes[at + 3]])
}

// Whether the byte at this place is spare, or unused by a call that takes so many numbers.
fn unused(numbers: u32, place: u32) -> bool
    requires { numbers ≤ 3 }
    ensures { result ≡ unused numbers place }
{
    (place > 0 && place < 4) || place >= 4 + 4 * numbers
}

// The lowest place of a spare or unused byte that is not zero, in a record of a call that takes so many numbers.
fn offending(bytes: &[u8; 16], numbers: u32) -> Option<u32>
    requires { numbers ≤ 3 }
    ensures { result ≡ offending numbers 0 bytes.now }
{
    (0u32..16).find(|place| unused(numbers, *place) && bytes[*place as usize] != 0)
}

// The call of a record, or why it is none: an unknown call byte first, then a byte that should be zero.
pub fn read_call(bytes: &[u8; 16]) -> Result<Call, ReaderFault>
    ensures { result ≡ reading bytes.now }
{
    let kind = Kind::try_from(bytes[0])?;
    if let Some(place) = offending(bytes, kind.numbers()) {
        return Err(ReaderFault::NotZero(place));
    }
    Ok(kind.call(word(bytes, 4), word(bytes, 8), word(bytes, 12)))
}
