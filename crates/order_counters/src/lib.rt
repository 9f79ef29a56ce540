// The order of traps of PMEVCNTR and PMSWINC (MODEL T): each rule's test, and the first that applies, with its cause. `rule3` is
// T3, and so on.
#![tactic(auto)]

ghost use Rattle.std.specs.Prelude.{false, ◌≡◌};
ghost use Rattle.rules.specs.declared.Register.TheVariants.{Pmevcntr, Pmswinc};
ghost use Rattle.rules.specs.Traps.{disabled_target, stop_at_el3, counter_order, stop_of};

use answer::{Cause, Level};
use rules::Stop;
use state::View;

// The target of MODEL T2.
#[tactic(auto, unfolding(rules::specs::Traps::disabled_target))]
fn disabled_target(v: View) -> Level
    ensures { result ≡ disabled_target v }
{
    if v.settings.execution.el2enabled & v.settings.hcr.tge {
        return Level::El2;
    }
    Level::El1
}

// A stop at EL3 by a control, of PMICNTR too.
#[tactic(auto, unfolding(rules::specs::Traps::stop_at_el3))]
pub fn stop_at_el3(v: View, cause: Cause) -> Stop
    ensures { result ≡ stop_at_el3 v cause }
{
    if v.halted_sdd() {
        return Stop::Undef;
    }
    Stop::Trap(Level::El3, cause)
}

// The order for PMEVCNTR and PMSWINC, from whether PMUSERENR has disabled it at EL0, the fine-grained bit, and T5's test,
// whether the counter is inaccessible: MODEL T1 to T6.
#[tactic(auto, unfolding(rules::specs::Traps::counter_order, rules::specs::Traps::counter_rules))]
fn counter_order(v: View, disabled: bool, trap_bit: bool, rule5: bool) -> Stop
    ensures { result ≡ counter_order v disabled trap_bit rule5 }
{
    let s = v.settings;
    let has = s.features;
    let rule1 = v.below_el3() & v.halted_sdd() & has.el3prio & s.mdcr3.tpm;
    let rule2 = (v.level == 0) & disabled;
    let rule3 = v.below_el2() & v.not_host_el0() & has.fgt & (!has.el3 | s.scr.fgten) & trap_bit;
    let rule4 = v.below_el2() & s.mdcr2.tpm;
    let rule6 = v.below_el3() & s.mdcr3.tpm;
    if rule1 {
        return Stop::Undef;
    }
    if rule2 {
        return Stop::Trap(disabled_target(v), Cause::Pmuserenr);
    }
    if rule3 {
        return Stop::Trap(Level::El2, Cause::FineGrained);
    }
    if rule4 {
        return Stop::Trap(Level::El2, Cause::Mdcr2Tpm);
    }
    if rule5 {
        return Stop::Trap(Level::El2, Cause::Hpmn);
    }
    if rule6 {
        return stop_at_el3(v, Cause::Mdcr3Tpm);
    }
    Stop::Pass
}

// The order of traps for PMEVCNTR<m>.
#[tactic(auto, unfolding(rules::specs::Traps::stop_of, rules::specs::Traps::rules_of, rules::specs::Traps::counter_order))]
pub fn pmevcntr_stop(v: View, read: bool, m: u64) -> Stop
    ensures { result ≡ stop_of v (Pmevcntr m) read }
{
    let s = v.settings;
    let disabled = bits::pick(read, !s.pmuserenr.en & !s.pmuserenr.er, !s.pmuserenr.en);
    let trap_bit = bits::pick(read, s.hdfgrtr.pmevcntrn, s.hdfgwtr.pmevcntrn);
    let inaccessible = v.below_el2() & (s.mdcr2.hpmn <= m);
    counter_order(v, disabled, trap_bit, inaccessible)
}

// The order of traps for PMSWINC, that of MSR. (MRS of it is undefined at once.)
#[tactic(auto, unfolding(rules::specs::Traps::stop_of, rules::specs::Traps::rules_of, rules::specs::Traps::counter_order))]
pub fn pmswinc_stop(v: View) -> Stop
    ensures { result ≡ stop_of v Pmswinc false }
{
    let s = v.settings;
    counter_order(
        v,
        !s.pmuserenr.en & !s.pmuserenr.sw,
        s.hdfgwtr.pmswinc,
        false,
    )
}
