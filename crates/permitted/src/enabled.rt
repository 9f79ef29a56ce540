// Which event counters are enabled (MODEL G14), as a mask, by operations on whole numbers.
ghost use Rattle.std.specs.Prelude.{◌≡◌};
ghost use Rattle.bits.specs.Bits.{from_bits};
ghost use Rattle.rules.specs.Ranges.{counter_enabled};

use machine::Settings;

// The enable bits of the first range where E is 1, and those of the second where HPME is.
pub fn enabled_counters(s: Settings) -> u64
    ensures { result ≡ from_bits 31 (counter_enabled s) }
{
    let enables = s.cnten % 0x80000000;
    let first_range = bits::below_where(s.features.el2, s.mdcr2.hpmn, enables);
    let second_range = enables - first_range;
    bits::pick(s.pmcr.e, first_range, 0) + bits::pick(s.mdcr2.hpme, second_range, 0)
}
