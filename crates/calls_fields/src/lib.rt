// What sets fields in the words of a caller's: the fresh record, the set and level commands, and what takes a command back. None
// of these tests the record.
#![tactic(auto)]

pub mod back; // back.rt: what was kept of a command, put back

ghost use Rattle.std.specs.Prelude.{◌≡◌, replicate};
ghost use Rattle.fields.specs.Set.{pmsicr_after, set, set_level};
ghost use Rattle.words.specs.Words.{record_of, word_count};
ghost use Rattle.calls_fields.specs.Fields.{Made, words_set, words_levelled};

use answer::{Answer, Refusal};
use words::decode;

// Every word 0: the fresh record.
pub fn fresh(m: &mut [u64; 143])
    ensures { m.new ≡ replicate word_count 0 }
{
    *m = [0; 143];
}

// PMSICR_EL1 after v is stored to field f, from the words before it: where that turns profiling on, with SPE, profiling begins.
fn pmsicr_after(m: &[u64; 143], f: u8, v: u64) -> u64
    ensures { result ≡ pmsicr_after f v (record_of m.now) }
{
    let turns_on = (f == 0x83) & (v == 1) & !decode::on(m, 0x83) & decode::on(m, 0x80);
    let begun = pmsicr::started(decode::on(m, 0x81), m[0x8B], m[0x8C]);
    bits::pick(turns_on, begun, bits::pick(f == 0x8C, v, m[0x8C]))
}

// The set command: v to the field with number f. Refused with 3 where there is none, with 4 where v exceeds its largest value.
pub fn set(m: &mut [u64; 143], f: u8, v: u64) -> Answer
    ensures { Made (set f v (record_of m.old)) (words_set f v) m.old result m.new }
{
    let Some(most) = fields::largest::largest(f) else {
        return Answer::Refused(Refusal::UnknownField);
    };
    if ((f == 0x37) & ((v >> 31) % 2 == 1)) | (most < v) {
        return Answer::Refused(Refusal::ValueTooLarge);
    }
    let pmsicr = pmsicr_after(m, f, v);
    m[f as usize] = v;
    m[0x8C] = pmsicr;
    Answer::Ok
}

// The level command. Refused with 5 where l exceeds 3.
pub fn level(m: &mut [u64; 143], l: u8) -> Answer
    ensures { Made (set_level l (record_of m.old)) words_levelled m.old result m.new }
{
    if fields::largest::LEVEL < l {
        return Answer::Refused(Refusal::LevelTooLarge);
    }
    m[0x8E] = l as u64;
    Answer::Ok
}
