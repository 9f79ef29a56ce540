// PMSICR_EL1 as a number: its two counters, which of its bits are implemented, and what becomes of it when profiling begins and
// for a member of the sample population (MODEL J).
#![tactic(auto)]

ghost use Rattle.std.specs.Prelude.{◌≡◌};
ghost use Rattle.pmsicr.specs.Pmsicr.{secondary, implemented, with_primary, with_secondary, started};
ghost use Rattle.pmsicr.specs.Pmsicr.{secondary_counts, primary_counts, counted};

// The register after a member of the sample population, and whether the member is selected. What decides about it stays apart:
// ERnd is one of the features, RND and the reload value are of Sampling, so a struct of them would be made to be taken apart.
#[derive(Clone, Copy)]
pub struct Member {
    pub selected: bool,
    pub pmsicr: u64,
}

// The secondary counter: 0 without ERnd.
fn secondary(ernd: bool, x: u64) -> u64
    ensures { result ≡ secondary ernd x }
{
    bits::pick(ernd, (x >> 56) % 256, 0)
}

// The implemented bits of x: the reserved ones are 0.
#[tactic(auto, unfolding(crate::specs::Pmsicr::implemented))]
pub fn implemented(ernd: bool, x: u64) -> u64
    ensures { result ≡ implemented ernd x }
{
    if ernd {
        return (x >> 56) % 256 * 0x100000000000000 + x % 0x100000000;
    }
    x % 0x100000000
}

// The register with its primary counter put to n.
#[tactic(auto, unfolding(crate::specs::Pmsicr::with_primary))]
fn with_primary(n: u64, x: u64) -> u64
    ensures { result ≡ with_primary n x }
{
    (x >> 32) * 0x100000000 + n % 0x100000000
}

// The register with its secondary counter put to n.
#[tactic(auto, unfolding(crate::specs::Pmsicr::with_secondary))]
fn with_secondary(n: u64, x: u64) -> u64
    ensures { result ≡ with_secondary n x }
{
    n % 256 * 0x100000000000000 + x % 0x100000000000000
}

// The register when profiling begins: where it is zero, its primary counter is reloaded.
#[tactic(auto, unfolding(crate::specs::Pmsicr::started))]
pub fn started(ernd: bool, reload: u64, x: u64) -> u64
    ensures { result ≡ started ernd reload x }
{
    if implemented(ernd, x) == 0 {
        return with_primary(reload, x);
    }
    x
}

// The secondary counter's part in a member.
#[tactic(auto, unfolding(crate::specs::Pmsicr::secondary_counts))]
fn secondary_counts(ernd: bool, x: u64) -> Member
    ensures { result ≡ secondary_counts ernd x }
{
    let n = secondary(ernd, x);
    if n == 0 {
        return Member {
            selected: false,
            pmsicr: x,
        };
    }
    Member {
        selected: n == 1,
        pmsicr: with_secondary(n - 1, x),
    }
}

// The primary counter's part, behind that of the secondary one.
#[tactic(auto, unfolding(crate::specs::Pmsicr::primary_counts))]
fn primary_counts(ernd: bool, rnd: bool, reload: u64, draw: u64, x: u64) -> Member
    ensures { result ≡ primary_counts ernd rnd reload draw x }
{
    let n = x % 0x100000000;
    if n == 0 {
        return Member {
            selected: false,
            pmsicr: x,
        };
    }
    if n != 1 {
        return Member {
            selected: false,
            pmsicr: with_primary(n - 1, x),
        };
    }
    let reloaded = with_primary(reload, x);
    if ernd & rnd {
        return Member {
            selected: draw == 0,
            pmsicr: with_secondary(draw, reloaded),
        };
    }
    Member {
        selected: true,
        pmsicr: reloaded,
    }
}

// A member of the sample population, with a draw, while profiling is enabled.
#[tactic(auto, unfolding(crate::specs::Pmsicr::counted))]
pub fn counted(ernd: bool, rnd: bool, reload: u64, draw: u64, x: u64) -> Member
    ensures { result ≡ counted ernd rnd reload draw x }
{
    let s = secondary_counts(ernd, x);
    let p = primary_counts(ernd, rnd, reload, draw, s.pmsicr);
    Member {
        selected: s.selected | p.selected,
        pmsicr: p.pmsicr,
    }
}
