// What a permitted access is to do (MODEL G), decided without a counter.
#![tactic(auto)]

pub mod enabled; // enabled.rt: which event counters are enabled

ghost use Rattle.std.specs.Prelude.{◌≡◌};
ghost use Rattle.rules.specs.Permitted.{place_access, pmuacr_binds, pmsicr_place, add_mask};
ghost use Rattle.rules.specs.Step.{permitted};

use answer::Answer;
use rules::{Decision, Instruction, Place, Register};
use state::View;

// A permitted access of a place that may be denied to EL0, or only read.
#[tactic(auto, unfolding(rules::specs::Permitted::place_access))]
fn place_access(
    is_denied: bool,
    is_read_only: bool,
    place: Place,
    i: Instruction,
    x: u64,
) -> Decision
    ensures { result ≡ place_access is_denied is_read_only place i x }
{
    if i.read {
        if is_denied {
            return Decision::Says(Answer::Mrs { value: 0, rt: i.rt });
        }
        return Decision::Read { place, rt: i.rt };
    }
    if is_denied | is_read_only {
        return Decision::Says(Answer::Ok);
    }
    Decision::Write {
        place,
        value: word::written(i, x),
    }
}

// PMUACR binds the event counters.
fn pmuacr_binds(v: View) -> bool
    ensures { result ≡ pmuacr_binds v }
{
    let s = v.settings;
    (v.level == 0) & s.features.p9 & s.pmuserenr.uen
}

// The bits of PMSWINC's operand x that are not ignored and whose counters are enabled.
fn add_mask(v: View, x: u64) -> u64
    ensures { result ≡ add_mask v x }
{
    let s = v.settings;
    let implemented = bits::below(s.features.n, enabled::enabled_counters(s) & x);
    let accessible = bits::below_where(v.below_el2(), s.mdcr2.hpmn, implemented);
    let holds_back = pmuacr_binds(v) & !s.pmuserenr.sw;
    bits::pick(holds_back, accessible & s.pmuacr.p, accessible)
}

// Where an access of PMSICR goes: to the word at 0x838 at EL1, with EL2 enabled and NV and NV2 both 1, else to the register.
fn pmsicr_place(v: View) -> Place
    ensures { result ≡ pmsicr_place v }
{
    let s = v.settings;
    if s.execution.el2enabled & (v.level == 1) & s.hcr.nv & s.hcr.nv2 {
        return Place::Nvmem;
    }
    Place::Interval
}

// A permitted access of a register.
pub fn permitted(v: View, r: Register, i: Instruction, x: u64) -> Decision
    ensures { result ≡ permitted v r i x }
{
    let s = v.settings;
    match r {
        Register::Pmevcntr(m) => {
            let binds = pmuacr_binds(v);
            place_access(
                binds & !bits::bit(m, s.pmuacr.p),
                binds & s.pmuserenr.er,
                Place::Counter(m),
                i,
                x,
            )
        }
        Register::Pmswinc => Decision::Add {
            mask: add_mask(v, word::written(i, x)),
        },
        Register::Pmicntr => place_access(
            (v.level == 0) & !s.pmuacr.f0,
            (v.level == 0) & s.pmuserenr.ir,
            Place::Instructions,
            i,
            x,
        ),
        Register::Pmsicr => place_access(false, false, pmsicr_place(v), i, x),
        Register::Other => Decision::Says(Answer::Other),
    }
}
