// A command run on the record and on the undo list, whose words are lent.
#![tactic(auto)]

ghost use Rattle.std.specs.Prelude.{false, ◌≡◌};
ghost use Rattle.command.specs.Command.{is_access};
ghost use Rattle.machine.specs.Machine.{machine_of};
ghost use Rattle.execute.specs.Execute.{tick_command};
ghost use Rattle.execute.specs.Words.{Accessed, Executed};

use access::Said;
use answer::{Answer, Refusal};
use command::Command;
use machine::{Machine, Outcome, Settings, Values};
use rules::Instruction;
use undo::Undo;

// The access with instruction i, a word taken apart, and operand x to the record with these parts, its counters lent; it is
// listed unless it is refused.
pub fn access_decoded(
    counters: &mut [u64; 31],
    events: &[u16; 31],
    s: Settings,
    level: u8,
    v: Values,
    i: Instruction,
    x: u64,
    list: &mut [u64; 194],
) -> Said
    ensures { Accessed i x
        (machine_of level s events.now counters.old v)
        result
        counters.new
        list.old
        list.new }
{
    undo::typed(counters);
    let said = access::in_parts_decoded(counters, events, s, level, v, i, x);
    let a = said.answer;
    let change = said.change;
    let u = Undo {
        change: change,
        level: level,
        ovs: v.ovs,
    };
    undo_list::note(a, u, 0, list);
    said
}

// A tick command: a tick, or refused with 4 where its flag exceeds 1.
fn tick_command(p: u8, r: Machine) -> Outcome
    ensures { result ≡ tick_command p r }
{
    if 1 < p {
        return Outcome {
            answer: Answer::Refused(Refusal::ValueTooLarge),
            machine: r,
        };
    }
    external_apply::tick(p == 1, r)
}

// What a command other than an access, or the refusal that was met in reading one, answers and does to the record and the list.
pub fn other(c: Result<Command, Refusal>, r: Machine, list: &mut [u64; 194]) -> Outcome
    requires { is_access c ≡ false }
    ensures { Executed c r result list.old list.new }
{
    let at = r.level;
    let ovs = r.values.ovs;
    let instructions = r.values.instructions;
    let pmsicr = r.values.pmsicr;
    let cnten = r.settings.cnten;
    match c {
        Ok(Command::End) => Outcome {
            answer: Answer::End,
            machine: r,
        },
        Ok(Command::Set { field, value }) => {
            let o = fields::set::set(field, value, r);
            undo_list::forget(o.answer, list);
            o
        }
        Ok(Command::Level { level }) => {
            let u = undo::kept(undo::NOTHING, 0, at, ovs);
            undo_list::listed(fields::set::set_level(level, r), u, list)
        }
        Ok(Command::Read { offset }) => external_apply::read(offset, r),
        Ok(Command::Write { offset, value }) => {
            let u = undo::kept(0x34, cnten, at, ovs);
            undo_list::listed(external_apply::write(offset, value, r), u, list)
        }
        Ok(Command::Tick { prohibited }) => {
            let u = undo::kept(0x7F, instructions, at, ovs);
            undo_list::listed(tick_command(prohibited, r), u, list)
        }
        Ok(Command::Back) => undo_list::back(r, list),
        Ok(Command::Member { draw }) => {
            let u = undo::kept(0x8C, pmsicr, at, ovs);
            undo_list::listed(external_apply::member(draw, r), u, list)
        }
        Ok(Command::Access { .. }) => unreachable!(),
        Err(n) => Outcome {
            answer: Answer::Refused(n),
            machine: r,
        },
    }
}
