// What a command can answer: the refusals, the levels that a trap goes to and the controls behind it, and the answers of a
// session's lines.
#![tactic(auto)]

ghost use Rattle.std.specs.Prelude.{◌≡◌};
ghost use Rattle.answer.specs.Numbers.{refusal_number, level_number, cause_number};
ghost use Rattle.answer.specs.Refused.{is_refused};

// Why an input or a record is refused (MODEL R), with the number of each (MODEL R0).
#[derive(Clone, Copy)]
pub enum Refusal {
    UnknownCommand = 1,
    Truncated = 2,
    UnknownField = 3,
    ValueTooLarge = 4,
    LevelTooLarge = 5,
    SessionTooLong = 6,
    FieldTooLarge = 10,
    LevelUnavailable = 11,
    El2Unimplemented = 12,
    HpmnAboveN = 13,
    HpmnZero = 14,
    CounterTooWide = 15,
    TgeAtEl1 = 16,
    FeatureMissing = 17,
    NothingToUndo = 18,
    SetTooWide = 19,
    LongFormTooLong = 20,
}

// The exception level that takes a trap, as a number (MODEL L4).
#[derive(Clone, Copy)]
pub enum Level {
    El1 = 1,
    El2 = 2,
    El3 = 3,
}

// The control behind a trap (MODEL D): PMUSERENR_EL0, the fine-grained bit of the register and the direction, MDCR_EL2.TPM,
// MDCR_EL2.HPMN, MDCR_EL3.TPM, MDCR_EL3.EnPM2, SCR_EL3.FGTEn2, MDCR_EL2.TPMS or MDCR_EL3.NSPB. Each has its number (MODEL D0).
#[derive(Clone, Copy)]
pub enum Cause {
    Pmuserenr = 1,
    FineGrained = 2,
    Mdcr2Tpm = 3,
    Hpmn = 4,
    Mdcr3Tpm = 5,
    EnPm2 = 6,
    FgtEn2 = 7,
    Tpms = 8,
    Nspb = 9,
}

// Where an access is trapped to, by which control, and the 32 bits of its syndrome.
#[derive(Clone, Copy)]
pub struct Trap {
    pub target: Level,
    pub cause: Cause,
    pub syndrome: u32,
}

// All that a session's line shows behind its position. `Sampled` is that of a member of the sample population that is selected,
// `Mrs` the value of an access with its Rt, `Value` that of an external read.
#[derive(Clone, Copy)]
pub enum Answer {
    Ok,
    Sampled,
    End,
    Undef,
    Other,
    Error,
    Trap(Trap),
    Value(u64),
    Mrs { value: u64, rt: u8 },
    Refused(Refusal),
}

// MODEL R0: the number of a refusal, that of the table in specs/Numbers.antt.
impl From<Refusal> for u8 {
    ghost from_gives = { λ r n. n ≡ refusal_number r };

    fn from(r: Refusal) -> u8 {
        r as u8
    }
}

// MODEL L4: the level as a number.
impl From<Level> for u8 {
    ghost from_gives = { λ l n. n ≡ level_number l };

    fn from(l: Level) -> u8 {
        l as u8
    }
}

// MODEL D0: the number of a cause.
impl From<Cause> for u8 {
    ghost from_gives = { λ c n. n ≡ cause_number c };

    fn from(c: Cause) -> u8 {
        c as u8
    }
}

impl Answer {
    // The command was refused.
    pub fn is_refused(self) -> bool
        ensures { result ≡ is_refused self }
    {
        matches!(self, Answer::Refused(_))
    }
}
