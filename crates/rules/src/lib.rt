// The types of the rules on accesses. The rules are definitions, in specs/, and what is proved of them stands in
// proofs/. The code that runs by them is in the crates above, whose contracts cite these definitions.
#![tactic(auto)]

pub mod external; // external.rt: what comes from outside, and how far it gets

use answer::{Answer, Cause, Level};

// The register that an instruction word names: PMEVCNTR<m>_EL0, PMSWINC_EL0, PMICNTR_EL0, PMSICR_EL1 or another.
#[derive(Clone, Copy)]
pub enum Register {
    Pmevcntr(u64),
    Pmswinc,
    Pmicntr,
    Pmsicr,
    Other,
}

// An instruction word taken apart: the register that it names, if any of ours, and for those whether it is a read (MRS), Rt,
// and the syndrome of a trap.
#[derive(Clone, Copy)]
pub struct Instruction {
    pub register: Register,
    pub read: bool,
    pub rt: u8,
    pub syndrome: u32,
}

// What the order of traps says of an access: it is permitted, undefined, or trapped to a level by a control.
#[derive(Clone, Copy)]
pub enum Stop {
    Pass,
    Undef,
    Trap(Level, Cause),
}

// What an access can read or write in the record: an event counter by its number, the instruction counter, the sampling interval
// counter PMSICR_EL1, or the word at 0x838, NVMem[0x838].
#[derive(Clone, Copy)]
pub enum Place {
    Counter(u64),
    Instructions,
    Interval,
    Nvmem,
}

// All that an access is to do: answer and change nothing; read one place into Rt; write one place; or add 1 to event counters
// by a mask, in which the bits that are ignored, and those of counters that are not enabled, are 0.
#[derive(Clone, Copy)]
pub enum Decision {
    Says(Answer),
    Read { place: Place, rt: u8 },
    Write { place: Place, value: u64 },
    Add { mask: u64 },
}
