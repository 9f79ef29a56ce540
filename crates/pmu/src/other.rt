// The conversion of a session to its other form.
ghost use Rattle.std.specs.Prelude.{◌≡◌};
ghost use Rattle.conversion.specs.Call.{room, result_of, buffer_of};
ghost use Rattle.pmu.specs.Exports.{numbers_of};

use conversion::NotConverted;

// How many bytes the other form has, and the number of the refusal: one of them is 0. Both are where the buffer is too short.
#[repr(C)]
#[derive(Clone, Copy)]
pub struct Conversion {
    pub bytes: usize,
    pub refusal: usize,
}

// The bytes that a buffer must have for any session.
#[unsafe(no_mangle)]
pub extern "C" fn pmu_convert_room() -> usize
    ensures { result ≡ room }
{
    conversion::ROOM
}

// Writes the other form of a session to the front of the buffer. Where the session is refused, or the buffer is shorter than
// `pmu_convert_room`, the buffer is left alone.
#[tactic(auto, unfolding(crate::specs::Exports::numbers_of))]
#[unsafe(no_mangle)]
pub extern "C" fn pmu_convert(input: &[u8], out: &mut [u8]) -> Conversion
    ensures { (result ≡ numbers_of (result_of input.now out.old))
        × (out.new ≡ buffer_of input.now out.old) }
{
    let (bytes, refusal) = match conversion::convert(input, out) {
        Ok(n) => (n, 0),
        Err(NotConverted::Refused(r)) => (0, u8::from(r) as usize),
        Err(NotConverted::NoRoom) => (0, 0),
    };
    Conversion { bytes, refusal }
}
