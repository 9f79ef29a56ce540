// The decision about an access: the state refusal, then what is undefined at once, then the order of traps, then what a
// permitted access does. No counter is among what it is given.
#![tactic(auto)]

ghost use Rattle.std.specs.Prelude.{◌≡◌};
ghost use Rattle.rules.specs.Traps.{stop_of};
ghost use Rattle.rules.specs.Step.{undefined_at_once, decide_register, decide_decoded, decide};

use answer::{Answer, Trap};
use rules::{Decision, Instruction, Register, Stop};
use state::View;

// The access is undefined whatever the controls say.
fn undefined_at_once(v: View, r: Register, read: bool) -> bool
    ensures { result ≡ undefined_at_once v r read }
{
    let has = v.settings.features;
    match r {
        Register::Pmevcntr(m) => !has.pmuv3 | (has.n <= m),
        Register::Pmswinc => !has.pmuv3 | read,
        Register::Pmicntr => !has.icntr,
        Register::Pmsicr => !has.spe | (v.level == 0),
        Register::Other => false,
    }
}

// What the order of traps says of a register and a direction.
#[tactic(auto, unfolding(rules::specs::Traps::stop_of, rules::specs::Traps::rules_of))]
fn stop_of(v: View, r: Register, read: bool) -> Stop
    ensures { result ≡ stop_of v r read }
{
    match r {
        Register::Pmevcntr(m) => order_counters::pmevcntr_stop(v, read, m),
        Register::Pmswinc => order_counters::pmswinc_stop(v),
        Register::Pmicntr => order_icntr::pmicntr_stop(v, read),
        Register::Pmsicr => order_sicr::pmsicr_stop(v, read),
        Register::Other => Stop::Pass,
    }
}

// The decision about an instruction of a consistent record.
#[tactic(auto, unfolding(rules::specs::Step::decide_register))]
fn decide_register(v: View, i: Instruction, x: u64) -> Decision
    ensures { result ≡ decide_register v i.register i x }
{
    let r = i.register;
    if undefined_at_once(v, r, i.read) {
        return Decision::Says(Answer::Undef);
    }
    match stop_of(v, r, i.read) {
        Stop::Pass => permitted::permitted(v, r, i, x),
        Stop::Undef => Decision::Says(Answer::Undef),
        Stop::Trap(target, cause) => Decision::Says(Answer::Trap(Trap {
            target,
            cause,
            syndrome: i.syndrome,
        })),
    }
}

// The decision about the access with instruction i, a word taken apart, and operand x.
pub fn decide_decoded(v: View, i: Instruction, x: u64) -> Decision
    ensures { result ≡ decide_decoded v i x }
{
    match state::verdict_of(v) {
        Ok(()) => decide_register(v, i, x),
        Err(r) => Decision::Says(Answer::Refused(r)),
    }
}

// The decision about the access with word w and operand x.
#[tactic(auto, unfolding(rules::specs::Step::decide))]
pub fn decide(v: View, w: u32, x: u64) -> Decision
    ensures { result ≡ decide v w x }
{
    decide_decoded(v, word::decode(w), x)
}
