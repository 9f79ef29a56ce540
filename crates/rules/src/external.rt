// What comes from outside, how far an external access gets, and what is then done.
use answer::Answer;

// An external read or write at an offset, a tick, while counting is prohibited or not, or a member of the sample population, with
// a draw.
#[derive(Clone, Copy)]
pub enum Request {
    Read(u16),
    Write { offset: u16, value: u64 },
    Tick(bool),
    Member(u8),
}

// How far an external access gets: no register has its offset; it reads 0 or its write is ignored; it is an error; or it
// reaches a register, of which there is a case for each.
#[derive(Clone, Copy)]
pub enum Reach {
    Other,
    Ignored,
    Error,
    Pmcntenset,
    Pmovsclr,
    Pmovsset,
}

// What a request is to do. `Says` answers and changes nothing; `ReadOvs` answers the overflow flags in reach; the others answer
// `ok` and put the counter enables, clear or set overflow flags by a mask, in which the bits out of reach are 0, or count one
// instruction. `Sample` counts a member of the sample population, and answers whether it is selected.
#[derive(Clone, Copy)]
pub enum Effect {
    Says(Answer),
    Enables(u64),
    ReadOvs,
    ClearOvs { mask: u64 },
    SetOvs { mask: u64 },
    Count,
    Sample(u8),
}
