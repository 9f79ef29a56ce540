// The record with one field stored, by the field's number: each part is made anew, in which the field with that number takes
// the value and every other one stays. Nothing is tested here: the set command is in the crate `fields`. The number and the
// value stand as two arguments, as in the definitions: a pair of them would be taken apart in each line.
#![tactic(auto)]

ghost use Rattle.std.specs.Prelude.{◌≡◌, ◌%◌};
ghost use Rattle.store.specs.Store.{store_features, store_execution, store_pmcr, store_pmuserenr, store_hcr, store_mdcr2};
ghost use Rattle.store.specs.Store.{store_mdcr3, store_scr, store_hdfgrtr, store_hdfgwtr, store_pmuacr, store_external};
ghost use Rattle.store.specs.Store.{store_sampling, store_settings, store_list, store_values};

use machine::{
    Execution, External, Features, Hcr, Hdfgrtr, Hdfgwtr, Mdcr2, Mdcr3, Pmcr, Pmuacr, Pmuserenr,
    Sampling, Scr, Settings, Values,
};

#[tactic(auto, unfolding(crate::specs::Store::store_features))]
fn features(s: Features, f: u8, v: u64) -> Features
    ensures { result ≡ store_features f v s }
{
    let on = v == 1;
    Features {
        pmuv3: bits::pick(f == 0x00, on, s.pmuv3),
        p5: bits::pick(f == 0x01, on, s.p5),
        p9: bits::pick(f == 0x02, on, s.p9),
        icntr: bits::pick(f == 0x03, on, s.icntr),
        fgt: bits::pick(f == 0x04, on, s.fgt),
        fgt2: bits::pick(f == 0x05, on, s.fgt2),
        hpmn0: bits::pick(f == 0x06, on, s.hpmn0),
        ext32: bits::pick(f == 0x07, on, s.ext32),
        ext64: bits::pick(f == 0x08, on, s.ext64),
        el2: bits::pick(f == 0x09, on, s.el2),
        el3: bits::pick(f == 0x0A, on, s.el3),
        el3prio: bits::pick(f == 0x0B, on, s.el3prio),
        spe: bits::pick(f == 0x80, on, s.spe),
        ernd: bits::pick(f == 0x81, on, s.ernd),
        n: bits::pick(f == 0x0C, v, s.n),
    }
}

fn execution(s: Execution, f: u8, v: u64) -> Execution
    ensures { result ≡ store_execution f v s }
{
    let on = v == 1;
    Execution {
        el2enabled: bits::pick(f == 0x10, on, s.el2enabled),
        halted: bits::pick(f == 0x11, on, s.halted),
        sdd: bits::pick(f == 0x12, on, s.sdd),
    }
}

fn pmcr(s: Pmcr, f: u8, v: u64) -> Pmcr
    ensures { result ≡ store_pmcr f v s }
{
    let on = v == 1;
    Pmcr {
        e: bits::pick(f == 0x3D, on, s.e),
        lp: bits::pick(f == 0x35, on, s.lp),
    }
}

fn pmuserenr(s: Pmuserenr, f: u8, v: u64) -> Pmuserenr
    ensures { result ≡ store_pmuserenr f v s }
{
    let on = v == 1;
    Pmuserenr {
        en: bits::pick(f == 0x20, on, s.en),
        sw: bits::pick(f == 0x21, on, s.sw),
        er: bits::pick(f == 0x22, on, s.er),
        uen: bits::pick(f == 0x23, on, s.uen),
        ir: bits::pick(f == 0x31, on, s.ir),
    }
}

fn hcr(s: Hcr, f: u8, v: u64) -> Hcr
    ensures { result ≡ store_hcr f v s }
{
    let on = v == 1;
    Hcr {
        e2h: bits::pick(f == 0x24, on, s.e2h),
        tge: bits::pick(f == 0x25, on, s.tge),
        nv: bits::pick(f == 0x84, on, s.nv),
        nv2: bits::pick(f == 0x85, on, s.nv2),
    }
}

#[tactic(auto, unfolding(crate::specs::Store::store_mdcr2))]
fn mdcr2(s: Mdcr2, f: u8, v: u64) -> Mdcr2
    ensures { result ≡ store_mdcr2 f v s }
{
    let on = v == 1;
    Mdcr2 {
        tpm: bits::pick(f == 0x26, on, s.tpm),
        hpme: bits::pick(f == 0x3E, on, s.hpme),
        hlp: bits::pick(f == 0x36, on, s.hlp),
        tpms: bits::pick(f == 0x86, on, s.tpms),
        hpmn: bits::pick(f == 0x27, v, s.hpmn),
    }
}

#[tactic(auto, unfolding(crate::specs::Store::store_mdcr3))]
fn mdcr3(s: Mdcr3, f: u8, v: u64) -> Mdcr3
    ensures { result ≡ store_mdcr3 f v s }
{
    let on = v == 1;
    Mdcr3 {
        tpm: bits::pick(f == 0x28, on, s.tpm),
        enpm2: bits::pick(f == 0x29, on, s.enpm2),
        nspb: bits::pick(f == 0x88, v, s.nspb),
    }
}

fn scr(s: Scr, f: u8, v: u64) -> Scr
    ensures { result ≡ store_scr f v s }
{
    let on = v == 1;
    Scr {
        fgten: bits::pick(f == 0x2A, on, s.fgten),
        fgten2: bits::pick(f == 0x2B, on, s.fgten2),
        ns: bits::pick(f == 0x87, on, s.ns),
    }
}

fn hdfgrtr(s: Hdfgrtr, f: u8, v: u64) -> Hdfgrtr
    ensures { result ≡ store_hdfgrtr f v s }
{
    let on = v == 1;
    Hdfgrtr {
        pmevcntrn: bits::pick(f == 0x2C, on, s.pmevcntrn),
        pmsicr: bits::pick(f == 0x89, on, s.pmsicr),
        npmicntr: bits::pick(f == 0x2F, on, s.npmicntr),
    }
}

fn hdfgwtr(s: Hdfgwtr, f: u8, v: u64) -> Hdfgwtr
    ensures { result ≡ store_hdfgwtr f v s }
{
    let on = v == 1;
    Hdfgwtr {
        pmevcntrn: bits::pick(f == 0x2D, on, s.pmevcntrn),
        pmswinc: bits::pick(f == 0x2E, on, s.pmswinc),
        pmsicr: bits::pick(f == 0x8A, on, s.pmsicr),
        npmicntr: bits::pick(f == 0x30, on, s.npmicntr),
    }
}

#[tactic(auto, unfolding(crate::specs::Store::store_pmuacr))]
fn pmuacr(s: Pmuacr, f: u8, v: u64) -> Pmuacr
    ensures { result ≡ store_pmuacr f v s }
{
    let on = v == 1;
    Pmuacr {
        p: bits::pick(f == 0x32, v, s.p),
        f0: bits::pick(f == 0x33, on, s.f0),
    }
}

#[tactic(auto, unfolding(crate::specs::Store::store_sampling))]
fn sampling(s: Sampling, f: u8, v: u64) -> Sampling
    ensures { result ≡ store_sampling f v s }
{
    let on = v == 1;
    Sampling {
        rnd: bits::pick(f == 0x82, on, s.rnd),
        profiling: bits::pick(f == 0x83, on, s.profiling),
        reload: bits::pick(f == 0x8B, v, s.reload),
    }
}

fn external(s: External, f: u8, v: u64) -> External
    ensures { result ≡ store_external f v s }
{
    let on = v == 1;
    External {
        powered: bits::pick(f == 0x38, on, s.powered),
        doublelock: bits::pick(f == 0x39, on, s.doublelock),
        oslock: bits::pick(f == 0x3A, on, s.oslock),
        allowed: bits::pick(f == 0x3B, on, s.allowed),
        softwarelock: bits::pick(f == 0x3C, on, s.softwarelock),
    }
}

#[tactic(auto, unfolding(crate::specs::Store::store_settings))]
pub fn settings(s: Settings, f: u8, v: u64) -> Settings
    ensures { result ≡ store_settings f v s }
{
    Settings {
        features: features(s.features, f, v),
        execution: execution(s.execution, f, v),
        pmcr: pmcr(s.pmcr, f, v),
        pmuserenr: pmuserenr(s.pmuserenr, f, v),
        hcr: hcr(s.hcr, f, v),
        mdcr2: mdcr2(s.mdcr2, f, v),
        mdcr3: mdcr3(s.mdcr3, f, v),
        scr: scr(s.scr, f, v),
        hdfgrtr: hdfgrtr(s.hdfgrtr, f, v),
        hdfgwtr: hdfgwtr(s.hdfgwtr, f, v),
        pmuacr: pmuacr(s.pmuacr, f, v),
        sampling: sampling(s.sampling, f, v),
        cnten: bits::pick(f == 0x34, v, s.cnten),
        external: external(s.external, f, v),
    }
}

// 31 fields of one type, the first of which has the number `first`: where f is among their numbers, that field takes v.
fn list<T: Copy>(first: u8, f: u8, v: T, l: [T; 31]) -> [T; 31]
    ensures { result ≡ store_list first f v l }
{
    match f.checked_sub(first) {
        Some(at) if at < 31 => {
            let mut next = l;
            next[at as usize] = v;
            next
        }
        _ => l,
    }
}

pub fn events(e: [u16; 31], f: u8, v: u64) -> [u16; 31]
    ensures { result ≡ store_list 0x40 f (v % 65536) e }
{
    list(0x40, f, (v % 65536) as u16, e)
}

pub fn counters(c: [u64; 31], f: u8, v: u64) -> [u64; 31]
    ensures { result ≡ store_list 0x60 f v c }
{
    list(0x60, f, v, c)
}

pub fn values(s: Values, f: u8, v: u64) -> Values
    ensures { result ≡ store_values f v s }
{
    Values {
        instructions: bits::pick(f == 0x7F, v, s.instructions),
        ovs: bits::pick(f == 0x37, v, s.ovs),
        pmsicr: bits::pick(f == 0x8C, v, s.pmsicr),
        nvmem: bits::pick(f == 0x8D, v, s.nvmem),
    }
}
