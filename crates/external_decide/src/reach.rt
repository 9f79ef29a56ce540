// How far an external access at an offset gets. Each test stands here, once, for reads and writes of every register.
ghost use Rattle.std.specs.Prelude.{◌≡◌};
ghost use Rattle.machine.specs.First.{first};
ghost use Rattle.rules.specs.External.{obstacles, reach};

use machine::Settings;
use rules::external::Reach;

// The register, unless something keeps the access from it: it is missing, out of reach, or locked by software.
fn unless_barred(writes: bool, s: Settings, register: Reach) -> Reach
    ensures { result ≡ first (obstacles writes s) register }
{
    let e = s.external;
    let absent = !(s.features.ext32 | s.features.ext64);
    let unreachable = e.doublelock | !e.powered | e.oslock | !e.allowed;
    let locked = writes & e.softwarelock;
    if absent {
        return Reach::Ignored;
    }
    if unreachable {
        return Reach::Error;
    }
    if locked {
        return Reach::Ignored;
    }
    register
}

// The register at the offset, as far as it can be reached.
#[tactic(auto, unfolding(rules::specs::External::reach))]
pub fn reach(writes: bool, offset: u16, s: Settings) -> Reach
    ensures { result ≡ reach writes offset s }
{
    match offset {
        0xC00 => unless_barred(writes, s, Reach::Pmcntenset),
        0xC80 => unless_barred(writes, s, Reach::Pmovsclr),
        0xCC0 => unless_barred(writes, s, Reach::Pmovsset),
        _ => Reach::Other,
    }
}
