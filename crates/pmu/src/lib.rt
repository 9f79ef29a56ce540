// The session function and the conversion for programs in C and Rust: the static library's exports, on numbers and byte slices.
// bindings/pmu.h declares them. They ask nothing of the bytes that they are given.
#![tactic(auto)]

pub mod other; // other.rt: the conversion

ghost use Rattle.std.specs.Prelude.{◌≡◌};
ghost use Rattle.transcript.specs.Session.{room, result_of, buffer_of};
ghost use Rattle.pmu.specs.Exports.{size_of};

// The bytes that a buffer must have for any session's output.
#[unsafe(no_mangle)]
pub extern "C" fn pmu_room() -> usize
    ensures { result ≡ room }
{
    transcript::ROOM
}

// Runs a session's bytes from the fresh record, and writes its lines to the front of the buffer. Returns how many bytes they
// have, or 0 where the buffer is shorter than `pmu_room`, which is then left alone.
#[tactic(auto, unfolding(crate::specs::Exports::size_of))]
#[unsafe(no_mangle)]
pub extern "C" fn pmu_session(input: &[u8], out: &mut [u8]) -> usize
    ensures { (result ≡ size_of (result_of input.now out.old))
        × (out.new ≡ buffer_of input.now out.old) }
{
    transcript::session(input, out).unwrap_or(0)
}
