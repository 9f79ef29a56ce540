// What a call leaves beside the event counters and the counter enables, stored to the words.
ghost use Rattle.std.specs.Prelude.{◌≡◌};
ghost use Rattle.words.specs.Put.{put_values};

use machine::Values;

// The overflow flags, the instruction counter, PMSICR_EL1 and the word at 0x838.
pub fn values(m: &mut [u64; 143], v: Values)
    ensures { m.new ≡ put_values v m.old }
{
    m[0x37] = v.ovs;
    m[0x7F] = v.instructions;
    m[0x8C] = v.pmsicr;
    m[0x8D] = v.nvmem;
}
