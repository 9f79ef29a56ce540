// The flags of the external registers, counter enables and overflow flags alike: which of them are in reach, and how they are
// set and cleared.
#![tactic(auto)]

ghost use Rattle.std.specs.Prelude.{◌≡◌};
ghost use Rattle.bits.specs.Bits.{bit};
ghost use Rattle.rules.specs.External.{shown_of};
ghost use Rattle.rules.specs.Overflow.{raised, lowered};

use machine::Settings;

// The bits of x in reach: those of the event counters m < N, bit 31 where the register has the cycle counter's, and bit 32 with
// ICNTR.
pub fn shown_of(cycles: bool, s: Settings, x: u64) -> u64
    ensures { result ≡ shown_of cycles s x }
{
    let counters = bits::below(s.features.n, x % 0x80000000);
    let cycle = bits::pick(cycles, (x >> 31) % 2 * 0x80000000, 0);
    let instructions = bits::pick(s.features.icntr, (x >> 32) % 2 * 0x100000000, 0);
    counters + cycle + instructions
}

// The flags with those of the mask set.
pub fn raised(mask: u64, flags: u64) -> u64
    ensures { result ≡ raised (λ m. bit m mask) flags }
{
    (flags | mask) % 0x200000000
}

// The flags with those of the mask cleared.
pub fn lowered(mask: u64, flags: u64) -> u64
    ensures { result ≡ lowered (λ m. bit m mask) flags }
{
    (flags ^ (flags & mask)) % 0x200000000
}
