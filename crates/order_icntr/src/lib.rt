// The order of traps of PMICNTR (MODEL I): each rule's test, and the first that applies, with its cause. `rule3` is I3, and so
// on.
#![tactic(auto)]

ghost use Rattle.std.specs.Prelude.{◌≡◌};
ghost use Rattle.rules.specs.declared.Register.TheVariants.{Pmicntr};
ghost use Rattle.rules.specs.Traps.{icntr_order, stop_of};

use answer::{Cause, Level};
use rules::Stop;
use state::View;

// The order for PMICNTR, from the fine-grained bit of the direction, by which the access is allowed.
#[tactic(auto, unfolding(rules::specs::Traps::icntr_order, rules::specs::Traps::icntr_rules))]
fn icntr_order(v: View, allowed: bool) -> Stop
    ensures { result ≡ icntr_order v allowed }
{
    let s = v.settings;
    let has = s.features;
    let enpm2 = s.mdcr3.enpm2;
    let tpm = s.mdcr3.tpm;
    let rule1 = v.below_el3() & v.halted_sdd() & has.el3prio & (!enpm2 | tpm);
    let rule2 = v.below_el2() & v.not_host_el0() & has.fgt2 & has.el3 & !s.scr.fgten2;
    let rule3 = v.below_el2() & v.not_host_el0() & has.fgt2 & !allowed;
    let rule4 = v.below_el2() & s.mdcr2.tpm;
    let rule5 = v.below_el3() & !enpm2;
    let rule6 = v.below_el3() & tpm;
    if rule1 {
        return Stop::Undef;
    }
    if rule2 {
        return Stop::Trap(Level::El2, Cause::FgtEn2);
    }
    if rule3 {
        return Stop::Trap(Level::El2, Cause::FineGrained);
    }
    if rule4 {
        return Stop::Trap(Level::El2, Cause::Mdcr2Tpm);
    }
    if rule5 {
        return order_counters::stop_at_el3(v, Cause::EnPm2);
    }
    if rule6 {
        return order_counters::stop_at_el3(v, Cause::Mdcr3Tpm);
    }
    Stop::Pass
}

// The order of traps for PMICNTR.
#[tactic(auto, unfolding(rules::specs::Traps::stop_of, rules::specs::Traps::rules_of, rules::specs::Traps::icntr_order))]
pub fn pmicntr_stop(v: View, read: bool) -> Stop
    ensures { result ≡ stop_of v Pmicntr read }
{
    let s = v.settings;
    let allowed = bits::pick(read, s.hdfgrtr.npmicntr, s.hdfgwtr.npmicntr);
    icntr_order(v, allowed)
}
