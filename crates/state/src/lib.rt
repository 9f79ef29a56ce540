// What a decision about an access may look at, and the state test: refusals 10 to 17, lowest number first.
#![tactic(auto)]

ghost use Rattle.std.specs.Prelude.{not, ◌&&◌, leb, eqb, ◌≡◌};
ghost use Rattle.state.specs.State.{any_wide, too_large, view_at, view_of, verdict_of};

use answer::Refusal;
use fields::largest;
use machine::{Machine, Settings};

// What a decision about an access may look at: of the counters only refusal 15's test, `wide`, and of the overflow flags only
// that of refusal 10, `ovslarge`.
#[derive(Clone, Copy)]
pub struct View {
    pub level: u8,
    pub settings: Settings,
    pub wide: bool,
    pub ovslarge: bool,
}

impl View {
    // EL2 is enabled and the level is below it, so that controls of EL2's may stop an access.
    pub fn below_el2(self) -> bool
        ensures { result ≡ (self.settings.execution.el2enabled && leb self.level 1) }
    {
        self.settings.execution.el2enabled & (self.level <= 1)
    }

    // EL3 is implemented and the level is below it, so that controls of EL3's may stop an access.
    pub fn below_el3(self) -> bool
        ensures { result ≡ (self.settings.features.el3 && leb self.level 2) }
    {
        self.settings.features.el3 & (self.level <= 2)
    }

    // Halted and SDD are both 1 (MODEL T10).
    pub fn halted_sdd(self) -> bool
        ensures { result ≡ (self.settings.execution.halted && self.settings.execution.sdd) }
    {
        self.settings.execution.halted & self.settings.execution.sdd
    }

    // The level is not EL0 under a host, with E2H and TGE both 1 (MODEL T9).
    pub fn not_host_el0(self) -> bool
        ensures { result ≡ not (eqb self.level 0 && self.settings.hcr.e2h && self.settings.hcr.tge) }
    {
        !((self.level == 0) & self.settings.hcr.e2h & self.settings.hcr.tge)
    }
}

// Refusal 10: some field, or the level, is above its largest.
#[tactic(auto, unfolding(crate::specs::State::too_large, fields::specs::Largest::largest))]
fn too_large(v: View) -> bool
    ensures { result ≡ too_large v }
{
    let s = v.settings;
    (31 < s.features.n)
        | (31 < s.mdcr2.hpmn)
        | (0x7FFFFFFF < s.pmuacr.p)
        | (0x1FFFFFFFF < s.cnten)
        | (3 < s.mdcr3.nspb)
        | (0xFFFFFFFF < s.sampling.reload)
        | v.ovslarge
        | (largest::LEVEL < v.level)
}

// The state test, on what a decision may look at: the record is consistent, or refused with the lowest number that applies, by
// the first test that holds, in the order of `refusals`.
#[tactic(auto, unfolding(crate::specs::State::verdict_of, crate::specs::State::refusals))]
pub fn verdict_of(v: View) -> Result<(), Refusal>
    ensures { result ≡ verdict_of v }
{
    let level = v.level;
    let s = v.settings;
    let has = s.features;
    let el2enabled = s.execution.el2enabled;
    let hpmn = s.mdcr2.hpmn;
    let too_large = too_large(v);
    let level_unavailable = ((level == 3) & !has.el3) | ((level == 2) & !el2enabled);
    let el2_unimplemented = el2enabled & !has.el2;
    let hpmn_above_n = has.el2 & (has.n < hpmn);
    let hpmn_zero = has.el2 & (hpmn == 0) & !has.hpmn0;
    let tge_at_el1 = (level == 1) & el2enabled & s.hcr.tge;
    let feature_missing = ((has.p5 | has.p9 | has.icntr) & !has.pmuv3) | (has.p9 & !has.p5);
    if too_large {
        return Err(Refusal::FieldTooLarge);
    }
    if level_unavailable {
        return Err(Refusal::LevelUnavailable);
    }
    if el2_unimplemented {
        return Err(Refusal::El2Unimplemented);
    }
    if hpmn_above_n {
        return Err(Refusal::HpmnAboveN);
    }
    if hpmn_zero {
        return Err(Refusal::HpmnZero);
    }
    if v.wide {
        return Err(Refusal::CounterTooWide);
    }
    if tge_at_el1 {
        return Err(Refusal::TgeAtEl1);
    }
    if feature_missing {
        return Err(Refusal::FeatureMissing);
    }
    Ok(())
}

// Some counter is 2^32 or more. No branch leaves the loop, so that it compiles to a few instructions for all counters.
fn any_wide(counters: &[u64]) -> bool
    ensures { result ≡ any_wide counters.now }
{
    let mut found = false;
    for x in counters {
        found |= 0x100000000 <= *x;
    }
    found
}

// What a decision may look at, of a record with these parts. The counters are read only where p5 is missing.
#[tactic(auto, unfolding(fields::specs::Largest::largest))]
pub fn view_at(level: u8, s: Settings, counters: &[u64], ovs: u64) -> View
    ensures { result ≡ view_at level s counters.now ovs }
{
    View {
        level,
        settings: s,
        wide: !s.features.p5 && any_wide(counters),
        ovslarge: ((ovs >> 31) % 2 == 1) | (0x17FFFFFFF < ovs),
    }
}

// What a decision may look at.
#[tactic(auto, unfolding(crate::specs::State::view_of))]
pub fn view_of(m: Machine) -> View
    ensures { result ≡ view_of m }
{
    view_at(m.level, m.settings, &m.counters, m.values.ovs)
}
