// The event counters, passed by reference: read, store, software increment with its overflow flags, and that taken back. A
// counter has 64 bits with p5, else 32.
#![tactic(auto)]

ghost use Rattle.std.specs.Prelude.{◌≡◌, ◌+◌, ◌%◌, ◌^◌, ◌&&◌, set, if◌then◌else◌, ◌==◌, nat_lt, slice_index, slice_set};
ghost use Rattle.rules.specs.Ranges.{long_bit};
ghost use Rattle.rules.specs.Overflow.{width, carries, overflow_width, raised};
ghost use Rattle.rules.specs.Apply.{map_from, incremented, overflows};
ghost use Rattle.counters.specs.Decremented.{decremented};

use machine::Settings;

// Counter m, and 0 past the last.
pub fn read(counters: &[u64], m: u64) -> u64
    ensures { result ≡ slice_index counters.now m }
{
    counters.get(m as usize).copied().unwrap_or(0)
}

// The bits of x that a counter holds.
fn held(p5: bool, x: u64) -> u64
    ensures { result ≡ x % 2 ^ width p5 }
{
    if p5 { x } else { x % 0x100000000 }
}

// A store to counter m.
pub fn store(counters: &mut [u64], p5: bool, m: u64, x: u64)
    ensures { counters.new ≡ slice_set counters.old m (x % 2 ^ width p5) }
{
    let at = m as usize;
    if at < counters.len() {
        counters[at] = held(p5, x);
    }
}

// Counter i takes an increment: the lowest of the bits that are left is 1, and its event number, 0 past the last, is 0.
fn taken(rest: u64, events: &[u16], i: usize) -> bool
    ensures { result ≡ (rest % 2 == 1) && (slice_index events.now i == 0) }
{
    (rest % 2 == 1) & (events.get(i).copied().unwrap_or(0) == 0)
}

// A counter that takes an increment, or one taken back: `by` more, wrapping at the counter's width. Every other stays.
fn stepped(p5: bool, on: bool, by: u64, y: u64) -> u64
    ensures { result ≡ (if on then (y + by) % 2 ^ width p5 else y) }
{
    if on { held(p5, y.wrapping_add(by)) } else { y }
}

// Event counter i overflows at 64 bits, by its long bit, and not at 32.
fn long_at(s: Settings, i: usize) -> bool
    ensures { result ≡ s.features.p5 && long_bit s i }
{
    if s.features.el2 & (s.mdcr2.hpmn <= i as u64) {
        return s.features.p5 & s.mdcr2.hlp;
    }
    s.features.p5 & s.pmcr.lp
}

// One more carries out of the lowest 64 bits of y, or out of the lowest 32: they are all 1.
fn carries(long: bool, y: u64) -> bool
    ensures { result ≡ carries (width long) y }
{
    if long {
        y == u64::MAX
    } else {
        y % 0x100000000 == 0xFFFFFFFF
    }
}

// The overflow flags with that of event counter i set, where it overflows.
fn with_flag(ovs: u64, i: usize, on: bool) -> u64
    ensures { result ≡ raised (λ m. (m == i) && (on && nat_lt i 31)) ovs }
{
    if on & (i < 31) {
        return (ovs | (1 << i)) % 0x200000000;
    }
    ovs % 0x200000000
}

// The overflow flags after event counter i, which held y, took an increment or did not. Few increments carry out of the lower
// half, and the others are soon done.
fn flagged(ovs: u64, s: Settings, i: usize, on: bool, y: u64) -> u64
    ensures { result ≡ raised (λ m. (m == i) && ((on && carries (overflow_width s i) y) && nat_lt i 31)) ovs }
{
    if on & (y % 0x100000000 == 0xFFFFFFFF) {
        return with_flag(ovs, i, carries(long_at(s, i), y));
    }
    ovs % 0x200000000
}

// The software increment, which returns the overflow flags. Bits of the mask are taken from the lowest on, until none is left.
pub fn increment(counters: &mut [u64], events: &[u16], s: Settings, mask: u64, ovs: u64) -> u64
    ensures { (result ≡ raised (λ m. overflows s events.now mask m (slice_index counters.old m)) ovs)
        × (counters.new
        ≡ map_from (incremented s.features.p5 events.now mask) 0 counters.old) }
{
    let mut flags = ovs % 0x200000000;
    let mut rest = mask;
    for i in 0..counters.len() {
        if rest == 0 {
            break;
        }
        let y = counters[i];
        let on = taken(rest, events, i);
        counters[i] = stepped(s.features.p5, on, 1, y);
        flags = flagged(flags, s, i, on, y);
        rest /= 2;
    }
    flags
}

// The software increment taken back: 1 less in each counter that took one.
pub fn decrement(counters: &mut [u64], events: &[u16], p5: bool, mask: u64)
    ensures { counters.new ≡ map_from (decremented p5 events.now mask) 0 counters.old }
{
    let mut rest = mask;
    for i in 0..counters.len() {
        if rest == 0 {
            break;
        }
        let took = taken(rest, events, i);
        counters[i] = stepped(p5, took, u64::MAX, counters[i]);
        rest /= 2;
    }
}
