// What takes a command back: the one field of the record that it may have changed, with what the field held, beside the level
// and the overflow flags. The definitions are in specs/Undo.antt.
#![tactic(auto)]

ghost use Rattle.std.specs.Prelude.{◌≡◌};
ghost use Rattle.undo.specs.Undo.{increments, held, field_of, ValueAt, HeldAt, settings_before, counters_before, undone};
ghost use Rattle.undo.specs.Undo.{Typed};

use machine::{Machine, Settings, Values};
use rules::Place;

// A field of the record by its number, and what it held; `NOTHING` where no field was changed, and `INCREMENTS` where 1 was added
// to event counters, of which the mask is kept. The number stays a number: an undo list may be any words (MODEL H9), `entry_at`
// says which `Change` each of them is, and of a number that no command keeps it has both parts too.
#[derive(Clone, Copy)]
pub struct Change {
    pub field: u8,
    pub old: u64,
}

// What the record held before a command: the field that the command may have changed, the level, and the overflow flags.
#[derive(Clone, Copy)]
pub struct Undo {
    pub change: Change,
    pub level: u8,
    pub ovs: u64,
}

// The number that stands for no field.
pub const NOTHING: u8 = 0xFF;

// The number that stands for the event counters that a mask names.
pub const INCREMENTS: u8 = 0xFE;

// No field was changed.
pub const UNCHANGED: Change = Change {
    field: NOTHING,
    old: 0,
};

// The field that is a place; none where there is no such event counter.
fn field_of(place: Place) -> u8
    ensures { result ≡ field_of place }
{
    match place {
        Place::Counter(m) if m < 31 => 0x60 + m as u8,
        Place::Counter(_) => NOTHING,
        Place::Instructions => 0x7F,
        Place::Interval => 0x8C,
        Place::Nvmem => 0x8D,
    }
}

// What a place holds.
fn value_at(counters: &[u64], v: Values, place: Place) -> u64
    ensures { ValueAt place counters.now v result }
{
    match place {
        Place::Counter(m) => counters::read(counters, m),
        Place::Instructions => v.instructions,
        Place::Interval => v.pmsicr,
        Place::Nvmem => v.nvmem,
    }
}

// What is kept of a write to a place: its field, and what it holds before.
pub fn of_place(counters: &[u64], v: Values, place: Place) -> Change
    ensures { HeldAt place counters.now v result }
{
    Change {
        field: field_of(place),
        old: value_at(counters, v, place),
    }
}

// What is kept of increments by a mask.
pub fn of_increments(mask: u64) -> Change
    ensures { result ≡ held increments mask }
{
    Change {
        field: INCREMENTS,
        old: mask,
    }
}

// The counters' type, as a fact for the caller's proof: each has 64 bits. The first is read, and nothing is done with it.
pub fn typed(counters: &[u64])
    ensures { Typed counters.now }
{
    counters::read(counters, 0);
}

// The settings with the counter enables put back, where they were kept.
fn settings_before(c: Change, mut s: Settings) -> Settings
    ensures { result ≡ settings_before c s }
{
    if c.field == 0x34 {
        s.cnten = c.old;
    }
    s
}

// The event counters with what was kept of them put back. The one counter is stored here, and not by `store::counters`, by which
// a step back in a session takes 41 instructions more.
fn counters_before(c: Change, p5: bool, events: &[u16; 31], mut counters: [u64; 31]) -> [u64; 31]
    ensures { result ≡ counters_before c p5 events.now counters }
{
    match c.field {
        INCREMENTS => counters::decrement(&mut counters, events, p5, c.old),
        0x60..=0x7E => counters[(c.field - 0x60) as usize] = c.old,
        _ => {}
    }
    counters
}

// What is kept of a command: a field and what it held, the level and the overflow flags.
pub fn kept(field: u8, old: u64, level: u8, ovs: u64) -> Undo
    ensures { result ≡ record { change = held field old; level = level; ovs = ovs } }
{
    Undo {
        change: Change { field, old },
        level,
        ovs,
    }
}

// The record with what was kept of a command put back. Its parts stand in locals, and what changes one is given it to change: a
// step back in a session took nearly a third more instructions where parts were taken from the record in their places and made
// anew (docs/PERFORMANCE.md, "With today's kit").
#[tactic(auto, unfolding(crate::specs::Undo::undone))]
pub fn undone(u: Undo, r: Machine) -> Machine
    ensures { result ≡ undone u r }
{
    let c = u.change;
    let settings = r.settings;
    let events = r.events;
    let counters = r.counters;
    let values = r.values;
    Machine {
        level: u.level,
        settings: settings_before(c, settings),
        events,
        counters: counters_before(c, settings.features.p5, &events, counters),
        values: Values {
            ovs: u.ovs,
            ..store::values(values, c.field, c.old)
        },
    }
}
