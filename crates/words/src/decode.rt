// The record that the words hold, taken from them group by group. The definitions are in specs/Words.antt.
ghost use Rattle.std.specs.Prelude.{◌≡◌, ◌<◌};
ghost use Rattle.words.specs.Words.{features_of, execution_of, pmcr_of, pmuserenr_of, hcr_of, mdcr2_of, mdcr3_of, scr_of};
ghost use Rattle.words.specs.Words.{hdfgrtr_of, hdfgwtr_of, pmuacr_of, sampling_of, external_of};
ghost use Rattle.words.specs.Words.{settings_of, values_of, events_of, level_of, word, on, word_count};

use machine::{
    Execution, External, Features, Hcr, Hdfgrtr, Hdfgwtr, Mdcr2, Mdcr3, Pmcr, Pmuacr, Pmuserenr,
    Sampling, Scr, Settings, Values,
};

// The field of one bit with this number: the lowest bit of its word.
#[inline]
pub fn on(m: &[u64; 143], k: usize) -> bool
    requires { k < word_count }
    ensures { result ≡ on k (word m.now) }
{
    m[k] % 2 == 1
}

fn features(m: &[u64; 143]) -> Features
    ensures { result ≡ features_of (word m.now) }
{
    Features {
        pmuv3: on(m, 0x00),
        p5: on(m, 0x01),
        p9: on(m, 0x02),
        icntr: on(m, 0x03),
        fgt: on(m, 0x04),
        fgt2: on(m, 0x05),
        hpmn0: on(m, 0x06),
        ext32: on(m, 0x07),
        ext64: on(m, 0x08),
        el2: on(m, 0x09),
        el3: on(m, 0x0A),
        el3prio: on(m, 0x0B),
        spe: on(m, 0x80),
        ernd: on(m, 0x81),
        n: m[0x0C],
    }
}

fn execution(m: &[u64; 143]) -> Execution
    ensures { result ≡ execution_of (word m.now) }
{
    Execution {
        el2enabled: on(m, 0x10),
        halted: on(m, 0x11),
        sdd: on(m, 0x12),
    }
}

fn pmcr(m: &[u64; 143]) -> Pmcr
    ensures { result ≡ pmcr_of (word m.now) }
{
    Pmcr {
        e: on(m, 0x3D),
        lp: on(m, 0x35),
    }
}

fn pmuserenr(m: &[u64; 143]) -> Pmuserenr
    ensures { result ≡ pmuserenr_of (word m.now) }
{
    Pmuserenr {
        en: on(m, 0x20),
        sw: on(m, 0x21),
        er: on(m, 0x22),
        uen: on(m, 0x23),
        ir: on(m, 0x31),
    }
}

fn hcr(m: &[u64; 143]) -> Hcr
    ensures { result ≡ hcr_of (word m.now) }
{
    Hcr {
        e2h: on(m, 0x24),
        tge: on(m, 0x25),
        nv: on(m, 0x84),
        nv2: on(m, 0x85),
    }
}

fn mdcr2(m: &[u64; 143]) -> Mdcr2
    ensures { result ≡ mdcr2_of (word m.now) }
{
    Mdcr2 {
        tpm: on(m, 0x26),
        hpme: on(m, 0x3E),
        hlp: on(m, 0x36),
        tpms: on(m, 0x86),
        hpmn: m[0x27],
    }
}

fn mdcr3(m: &[u64; 143]) -> Mdcr3
    ensures { result ≡ mdcr3_of (word m.now) }
{
    Mdcr3 {
        tpm: on(m, 0x28),
        enpm2: on(m, 0x29),
        nspb: m[0x88],
    }
}

fn scr(m: &[u64; 143]) -> Scr
    ensures { result ≡ scr_of (word m.now) }
{
    Scr {
        fgten: on(m, 0x2A),
        fgten2: on(m, 0x2B),
        ns: on(m, 0x87),
    }
}

fn hdfgrtr(m: &[u64; 143]) -> Hdfgrtr
    ensures { result ≡ hdfgrtr_of (word m.now) }
{
    Hdfgrtr {
        pmevcntrn: on(m, 0x2C),
        pmsicr: on(m, 0x89),
        npmicntr: on(m, 0x2F),
    }
}

fn hdfgwtr(m: &[u64; 143]) -> Hdfgwtr
    ensures { result ≡ hdfgwtr_of (word m.now) }
{
    Hdfgwtr {
        pmevcntrn: on(m, 0x2D),
        pmswinc: on(m, 0x2E),
        pmsicr: on(m, 0x8A),
        npmicntr: on(m, 0x30),
    }
}

fn pmuacr(m: &[u64; 143]) -> Pmuacr
    ensures { result ≡ pmuacr_of (word m.now) }
{
    Pmuacr {
        p: m[0x32],
        f0: on(m, 0x33),
    }
}

fn sampling(m: &[u64; 143]) -> Sampling
    ensures { result ≡ sampling_of (word m.now) }
{
    Sampling {
        rnd: on(m, 0x82),
        profiling: on(m, 0x83),
        reload: m[0x8B],
    }
}

fn external(m: &[u64; 143]) -> External
    ensures { result ≡ external_of (word m.now) }
{
    External {
        powered: on(m, 0x38),
        doublelock: on(m, 0x39),
        oslock: on(m, 0x3A),
        allowed: on(m, 0x3B),
        softwarelock: on(m, 0x3C),
    }
}

// The settings.
#[tactic(auto, unfolding(crate::specs::Words::settings_of))]
pub fn settings(m: &[u64; 143]) -> Settings
    ensures { result ≡ settings_of (word m.now) }
{
    Settings {
        features: features(m),
        execution: execution(m),
        pmcr: pmcr(m),
        pmuserenr: pmuserenr(m),
        hcr: hcr(m),
        mdcr2: mdcr2(m),
        mdcr3: mdcr3(m),
        scr: scr(m),
        hdfgrtr: hdfgrtr(m),
        hdfgwtr: hdfgwtr(m),
        pmuacr: pmuacr(m),
        sampling: sampling(m),
        cnten: m[0x34],
        external: external(m),
    }
}

// What accesses, ticks and members change beside the event counters and the counter enables.
pub fn values(m: &[u64; 143]) -> Values
    ensures { result ≡ values_of (word m.now) }
{
    Values {
        instructions: m[0x7F],
        ovs: m[0x37],
        pmsicr: m[0x8C],
        nvmem: m[0x8D],
    }
}

// The level: the lowest 8 bits of its word.
#[inline]
pub fn level(m: &[u64; 143]) -> u8
    ensures { result ≡ level_of (word m.now) }
{
    (m[0x8E] % 0x100) as u8
}

// The event numbers.
pub fn events(m: &[u64; 143]) -> [u16; 31]
    ensures { result ≡ events_of m.now }
{
    let mut events = [0u16; 31];
    for i in 0..31 {
        events[i] = (m[0x40 + i] % 0x10000) as u16;
    }
    events
}
