// One place of a record in parts, its event counters lent: what MRS answers of it, and what MSR stores to it.
#![tactic(auto)]

ghost use Rattle.places.specs.Places.{Shown, Put};

use machine::{Settings, Values};
use rules::Place;

// What MRS answers of a place.
pub fn shown(counters: &[u64], s: Settings, v: Values, place: Place) -> u64
    ensures { Shown place s counters.now v result }
{
    match place {
        Place::Counter(m) => counters::read(counters, m),
        Place::Instructions => v.instructions,
        Place::Interval => pmsicr::implemented(s.features.ernd, v.pmsicr),
        Place::Nvmem => v.nvmem,
    }
}

// A number written to a place. The event counters are lent, the other values are returned.
pub fn put(counters: &mut [u64], s: Settings, v: Values, place: Place, x: u64) -> Values
    ensures { Put place x s counters.old v counters.new result }
{
    let mut values = v;
    match place {
        Place::Counter(m) => counters::store(counters, s.features.p5, m, x),
        Place::Instructions => values.instructions = x,
        Place::Interval => values.pmsicr = pmsicr::implemented(s.features.ernd, x),
        Place::Nvmem => values.nvmem = x,
    }
    values
}
