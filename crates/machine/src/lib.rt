// The machine record (MODEL F): one struct for each register or group of fields. The crate `fields` has the number and the
// largest value of each field.
#![tactic(auto)]

pub mod fresh; // fresh.rt: the fresh record

use answer::Answer;

// What the processor implements: FEAT_PMUv3, PMUv3p5, PMUv3p9, PMUv3_ICNTR, FGT, FGT2, HPMN0, PMUv3_EXT32 and
// PMUv3_EXT64, EL2 and EL3, the choice "EL3 trap priority when SDD == '1'", FEAT_SPE, PMSIDR_EL1.ERnd, and N, the number of
// event counters.
#[derive(Clone, Copy, Default)]
pub struct Features {
    pub pmuv3: bool,
    pub p5: bool,
    pub p9: bool,
    pub icntr: bool,
    pub fgt: bool,
    pub fgt2: bool,
    pub hpmn0: bool,
    pub ext32: bool,
    pub ext64: bool,
    pub el2: bool,
    pub el3: bool,
    pub el3prio: bool,
    pub spe: bool,
    pub ernd: bool,
    pub n: u64,
}

// EL2Enabled(), Halted() and EDSCR.SDD.
#[derive(Clone, Copy, Default)]
pub struct Execution {
    pub el2enabled: bool,
    pub halted: bool,
    pub sdd: bool,
}

// PMUSERENR_EL0.
#[derive(Clone, Copy, Default)]
pub struct Pmuserenr {
    pub en: bool,
    pub sw: bool,
    pub er: bool,
    pub uen: bool,
    pub ir: bool,
}

// HCR_EL2.
#[derive(Clone, Copy, Default)]
pub struct Hcr {
    pub e2h: bool,
    pub tge: bool,
    pub nv: bool,
    pub nv2: bool,
}

// PMCR_EL0.
#[derive(Clone, Copy, Default)]
pub struct Pmcr {
    pub e: bool,
    pub lp: bool,
}

// MDCR_EL2.
#[derive(Clone, Copy, Default)]
pub struct Mdcr2 {
    pub tpm: bool,
    pub hpme: bool,
    pub hlp: bool,
    pub tpms: bool,
    pub hpmn: u64,
}

// MDCR_EL3; NSPB is a number of two bits.
#[derive(Clone, Copy, Default)]
pub struct Mdcr3 {
    pub tpm: bool,
    pub enpm2: bool,
    pub nspb: u64,
}

// SCR_EL3.
#[derive(Clone, Copy, Default)]
pub struct Scr {
    pub fgten: bool,
    pub fgten2: bool,
    pub ns: bool,
}

// The fine-grained trap bits of reads: HDFGRTR_EL2.PMEVCNTRn_EL0 and .PMSICR_EL1, and HDFGRTR2_EL2.nPMICNTR_EL0.
#[derive(Clone, Copy, Default)]
pub struct Hdfgrtr {
    pub pmevcntrn: bool,
    pub pmsicr: bool,
    pub npmicntr: bool,
}

// The fine-grained trap bits of writes: HDFGWTR_EL2.PMEVCNTRn_EL0, .PMSWINC_EL0 and .PMSICR_EL1, and
// HDFGWTR2_EL2.nPMICNTR_EL0.
#[derive(Clone, Copy, Default)]
pub struct Hdfgwtr {
    pub pmevcntrn: bool,
    pub pmswinc: bool,
    pub pmsicr: bool,
    pub npmicntr: bool,
}

// PMUACR_EL1: the bits P<m> as one number, and F0.
#[derive(Clone, Copy, Default)]
pub struct Pmuacr {
    pub p: u64,
    pub f0: bool,
}

// What decides about external accesses: IsCorePowered(), DoubleLockStatus(), OSLockStatus(),
// AllowExternalPMUAccess() and SoftwareLockStatus().
#[derive(Clone, Copy, Default)]
pub struct External {
    pub powered: bool,
    pub doublelock: bool,
    pub oslock: bool,
    pub allowed: bool,
    pub softwarelock: bool,
}

// What decides about members of the sample population: PMSIRR_EL1.RND, whether profiling is enabled, and the value with which
// the primary counter is reloaded.
#[derive(Clone, Copy, Default)]
pub struct Sampling {
    pub rnd: bool,
    pub profiling: bool,
    pub reload: u64,
}

// All that a decision about an access may look at, besides the level, refusal 15's test, and that of refusal 10 on the overflow
// flags. `cnten` holds the counter enables of PMCNTENSET_EL0. The groups of bools stand together, and the level behind the
// event numbers, so that little padding is copied with a record.
#[derive(Clone, Copy, Default)]
pub struct Settings {
    pub features: Features,
    pub execution: Execution,
    pub pmcr: Pmcr,
    pub pmuserenr: Pmuserenr,
    pub hcr: Hcr,
    pub scr: Scr,
    pub hdfgrtr: Hdfgrtr,
    pub hdfgwtr: Hdfgwtr,
    pub external: External,
    pub mdcr2: Mdcr2,
    pub mdcr3: Mdcr3,
    pub pmuacr: Pmuacr,
    pub sampling: Sampling,
    pub cnten: u64,
}

// What accesses, from inside and outside, ticks and members of the sample population change beside the event counters, but for
// the counter enables, which are a setting:
// PMICNTR_EL0, the overflow flags of PMOVSSET_EL0 and PMOVSCLR_EL0, PMSICR_EL1, and the word at 0x838, NVMem[0x838].
#[derive(Clone, Copy, Default)]
pub struct Values {
    pub instructions: u64,
    pub ovs: u64,
    pub pmsicr: u64,
    pub nvmem: u64,
}

// The machine record: the settings, the event number of each event counter, the exception level, the value of each event
// counter, and the other values that commands change.
#[derive(Clone, Copy, Default)]
pub struct Machine {
    pub settings: Settings,
    pub events: [u16; 31],
    pub level: u8,
    pub counters: [u64; 31],
    pub values: Values,
}

// What a command answers, and the record after it.
#[derive(Clone, Copy)]
pub struct Outcome {
    pub answer: Answer,
    pub machine: Machine,
}
