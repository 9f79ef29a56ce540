// The order of traps of PMSICR (MODEL N): each rule's test, and the first that applies, with its cause. `rule3` is N3, and so on.
#![tactic(auto)]

ghost use Rattle.std.specs.Prelude.{◌≡◌};
ghost use Rattle.rules.specs.declared.Register.TheVariants.{Pmsicr};
ghost use Rattle.rules.specs.Traps.{nspb_bars, stop_of};

use answer::{Cause, Level};
use rules::Stop;
use state::View;

// NSPB keeps the access from the register: its bit 0 is 0, or its bit 1 differs from NS.
fn nspb_bars(v: View) -> bool
    ensures { result ≡ nspb_bars v }
{
    let s = v.settings;
    let nspb = s.mdcr3.nspb;
    !bits::bit(0, nspb) | (bits::bit(1, nspb) != s.scr.ns)
}

// The order of traps for PMSICR.
#[tactic(auto, unfolding(rules::specs::Traps::stop_of, rules::specs::Traps::rules_of, rules::specs::Traps::pmsicr_rules))]
pub fn pmsicr_stop(v: View, read: bool) -> Stop
    ensures { result ≡ stop_of v Pmsicr read }
{
    let s = v.settings;
    let has = s.features;
    let bars = nspb_bars(v);
    let trap_bit = bits::pick(read, s.hdfgrtr.pmsicr, s.hdfgwtr.pmsicr);
    let rule1 = v.below_el3() & v.halted_sdd() & has.el3prio & bars;
    let rule2 = v.below_el2() & has.fgt & (!has.el3 | s.scr.fgten) & trap_bit;
    let rule3 = v.below_el2() & s.mdcr2.tpms;
    let rule4 = v.below_el3() & bars;
    if rule1 {
        return Stop::Undef;
    }
    if rule2 {
        return Stop::Trap(Level::El2, Cause::FineGrained);
    }
    if rule3 {
        return Stop::Trap(Level::El2, Cause::Tpms);
    }
    if rule4 {
        return order_counters::stop_at_el3(v, Cause::Nspb);
    }
    Stop::Pass
}
