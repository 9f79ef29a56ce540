// The table of registers: a code for each place, which is CRn's lowest bit (0 for 14, 1 for 9), CRm and op2. A code has op1 in
// bits 7:6 and the register's number in bits 5:0: 32 + m for event counter m, 1 for PMSWINC, 2 for PMICNTR, 3 for PMSICR. 0 is no
// register.
ghost use Rattle.std.specs.Prelude.{◌≡◌};
ghost use Rattle.word.specs.Codes.{code_at, codes, coded};

use rules::Register;

const REGISTERS: [u8; 256] = [
    // CRn 14, CRm 0
    0, 0, 0, 0, 0, 0, 0, 0,
    // CRn 14, CRm 1
    0, 0, 0, 0, 0, 0, 0, 0,
    // CRn 14, CRm 2
    0, 0, 0, 0, 0, 0, 0, 0,
    // CRn 14, CRm 3
    0, 0, 0, 0, 0, 0, 0, 0,
    // CRn 14, CRm 4
    0, 0, 0, 0, 0, 0, 0, 0,
    // CRn 14, CRm 5
    0, 0, 0, 0, 0, 0, 0, 0,
    // CRn 14, CRm 6
    0, 0, 0, 0, 0, 0, 0, 0,
    // CRn 14, CRm 7
    0, 0, 0, 0, 0, 0, 0, 0,
    // CRn 14, CRm 8: PMEVCNTR0_EL0 to PMEVCNTR7_EL0
    0xE0, 0xE1, 0xE2, 0xE3, 0xE4, 0xE5, 0xE6, 0xE7,
    // CRn 14, CRm 9: PMEVCNTR8_EL0 to PMEVCNTR15_EL0
    0xE8, 0xE9, 0xEA, 0xEB, 0xEC, 0xED, 0xEE, 0xEF,
    // CRn 14, CRm 10: PMEVCNTR16_EL0 to PMEVCNTR23_EL0
    0xF0, 0xF1, 0xF2, 0xF3, 0xF4, 0xF5, 0xF6, 0xF7,
    // CRn 14, CRm 11: PMEVCNTR24_EL0 to PMEVCNTR31_EL0
    0xF8, 0xF9, 0xFA, 0xFB, 0xFC, 0xFD, 0xFE, 0xFF,
    // CRn 14, CRm 12
    0, 0, 0, 0, 0, 0, 0, 0,
    // CRn 14, CRm 13
    0, 0, 0, 0, 0, 0, 0, 0,
    // CRn 14, CRm 14
    0, 0, 0, 0, 0, 0, 0, 0,
    // CRn 14, CRm 15
    0, 0, 0, 0, 0, 0, 0, 0,
    // CRn 9, CRm 0
    0, 0, 0, 0, 0, 0, 0, 0,
    // CRn 9, CRm 1
    0, 0, 0, 0, 0, 0, 0, 0,
    // CRn 9, CRm 2
    0, 0, 0, 0, 0, 0, 0, 0,
    // CRn 9, CRm 3
    0, 0, 0, 0, 0, 0, 0, 0,
    // CRn 9, CRm 4
    0xC2, // PMICNTR_EL0
    0, 0, 0, 0, 0, 0, 0,
    // CRn 9, CRm 5
    0, 0, 0, 0, 0, 0, 0, 0,
    // CRn 9, CRm 6
    0, 0, 0, 0, 0, 0, 0, 0,
    // CRn 9, CRm 7
    0, 0, 0, 0, 0, 0, 0, 0,
    // CRn 9, CRm 8
    0, 0, 0, 0, 0, 0, 0, 0,
    // CRn 9, CRm 9
    0, 0, 0x03, // PMSICR_EL1
    0, 0, 0, 0, 0,
    // CRn 9, CRm 10
    0, 0, 0, 0, 0, 0, 0, 0,
    // CRn 9, CRm 11
    0, 0, 0, 0, 0, 0, 0, 0,
    // CRn 9, CRm 12
    0, 0, 0, 0, 0xC1, // PMSWINC_EL0
    0, 0, 0,
    // CRn 9, CRm 13
    0, // PMCCNTR_EL0, which the model leaves out
    0, 0, 0, 0, 0, 0, 0,
    // CRn 9, CRm 14
    0, 0, 0, 0, 0, 0, 0, 0,
    // CRn 9, CRm 15
    0, 0, 0, 0, 0, 0, 0, 0,
];

// The whole table, where it stands: no call copies it.
#[tactic(auto, unfolding(rules::specs::Word::named, crate::specs::Codes::code_at, crate::specs::Codes::codes))]
pub fn registers() -> &'static [u8; 256]
    ensures { result.now ≡ codes }
{
    &REGISTERS
}

// The code at a place.
#[tactic(auto, using(crate::proofs::Tabulate::entry))]
pub fn code(place: u8) -> u8
    ensures { result ≡ code_at place }
{
    registers()[place as usize]
}

// The register that a code stands for in words with this op1.
#[tactic(auto, unfolding(crate::specs::Codes::coded))]
pub fn coded(code: u8, op1: u8) -> Register
    ensures { result ≡ coded code op1 }
{
    // op1 taken off the code's bits 7:6: with another op1 more is left than a number of 6 bits
    let number = (code as u32).wrapping_sub(op1 as u32 * 64);
    if number >= 64 {
        return Register::Other;
    }
    if number >= 32 {
        return Register::Pmevcntr((number % 32) as u64);
    }
    match number {
        1 => Register::Pmswinc,
        2 => Register::Pmicntr,
        3 => Register::Pmsicr,
        _ => Register::Other,
    }
}
