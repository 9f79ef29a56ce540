// An instruction word taken apart, once: the register that it names, its direction and Rt, and the syndrome; and what a
// write stores.
#![tactic(auto)]

ghost use Rattle.std.specs.Prelude.{◌≡◌};
ghost use Rattle.rules.specs.Word.{is_read, rt, register, syndrome, decode, written};
ghost use Rattle.word.specs.Codes.{has_place, place_of};

pub mod table; // table.rt: the table of registers

use rules::{Instruction, Register};

// The word has a place in the table of registers: it moves a system register, with op0 3 and CRn 9 or 14.
fn has_place(w: u32) -> bool
    ensures { result ≡ has_place w }
{
    let is_move = ((w >> 22) % 1024 == 0x354) & ((w >> 20) % 2 == 1);
    is_move && (w >> 19) % 2 + 2 == 3 && matches!((w >> 12) % 16, 9 | 14)
}

// The place of a word in the table: the lowest bit of CRn, then CRm, then op2.
fn place(w: u32) -> u8
    ensures { result ≡ place_of w }
{
    ((w >> 5) % 256) as u8
}

// The register that a word names: `Other` for every word that names none of the model's.
#[tactic(auto, using(crate::proofs::Found::found, crate::proofs::Found::missed))]
fn register(w: u32) -> Register
    ensures { result ≡ register w }
{
    if has_place(w) {
        return table::coded(table::code(place(w)), ((w >> 16) % 8) as u8);
    }
    Register::Other
}

// The syndrome of a trapped access.
#[tactic(auto, unfolding(rules::specs::Word::syndrome))]
fn syndrome(w: u32) -> u32
    ensures { result ≡ syndrome w }
{
    0x18 * 0x4000000
        + 0x2000000
        + ((w >> 19) % 2 + 2) * 0x100000
        + (w >> 5) % 8 * 0x20000
        + (w >> 16) % 8 * 0x4000
        + (w >> 12) % 16 * 0x400
        + w % 32 * 0x20
        + (w >> 8) % 16 * 2
        + (w >> 21) % 2
}

// A word taken apart, given its register.
fn with_register(register: Register, w: u32) -> Instruction
    ensures { result ≡ record { register = register; read = is_read w; rt = rt w; syndrome = syndrome w } }
{
    Instruction {
        register: register,
        read: (w >> 21) % 2 == 1,
        rt: (w % 32) as u8,
        syndrome: syndrome(w),
    }
}

// A word taken apart.
#[tactic(auto, unfolding(rules::specs::Word::decode))]
pub fn decode(w: u32) -> Instruction
    ensures { result ≡ decode w }
{
    with_register(register(w), w)
}

// What a write stores: with Rt 31 the operand is 0.
#[tactic(auto, unfolding(rules::specs::Word::written))]
pub fn written(i: Instruction, operand: u64) -> u64
    ensures { result ≡ written i operand }
{
    if i.rt == 31 { 0 } else { operand }
}
