// The fresh record.
ghost use Rattle.std.specs.Prelude.{◌≡◌};
ghost use Rattle.machine.specs.Machine.{fresh};

use crate::Machine;

// Everything 0.
pub fn fresh() -> Machine
    ensures { result ≡ fresh }
{
    Machine::default()
}
