#![tactic(auto)]
// The live machine: a shell makes it from a configuration, holds it, and lends it to the two calls here (rules 7.1 and F.8).
ghost use Rattle.std.specs.Prelude.{◌≡◌, length};
ghost use Rattle.numbers.specs.Put.{put_bytes};
ghost use Rattle.replay.specs.Replay.{machine_of};
ghost use Rattle.machine.specs.Steps.{input_step};
ghost use Rattle.bodies.specs.Told.{input_of, beside_of, told_by};
ghost use Rattle.live.specs.Live.{taken, fed_with, fed_of, called_bytes, called_of};

use answers::writer::{output_ech, output_name, put_output};
use bodies::{Event, beside_of, input_of, read_event};
use configuration::{Setup, fill_configuration};
use numbers::refusal::{Refusal, refusal_number};
use state::{Machine, made};

pub mod lent;

// What becomes of a body: 0 or a refusal's number, and the machine after it.
#[derive(Clone, Copy)]
pub struct Fed {
    pub number: u8,
    pub machine: Machine,
}

// How much of an answer was written, and the machine after the call.
#[derive(Clone, Copy)]
pub struct Called {
    pub wrote: Result<usize, Refusal>,
    pub machine: Machine,
}

// The machine of a configuration that was read. One that is refused has no `Setup`, so it makes none.
#[tactic(auto, unfolding(replay::specs::Replay::machine_of))]
pub fn machine_of(body: &[u8], setup: Setup) -> Machine
    ensures { result ≡ machine_of body.now setup }
{
    let c = fill_configuration(body, setup);
    made(setup.rules, setup.timing, c.alts, c.names)
}

// An input that was read.
fn input_fed(m: Machine, moment: u64, body: &[u8], e: Event) -> Fed
    ensures { result ≡ taken (input_step m moment (input_of e) (beside_of body.now e)) }
{
    let input = input_of(e);
    let beside = beside_of(body, e);
    let step = machine::calls::process_input(m, moment, input, beside);
    let number = match step.taken {
        Ok(()) => 0,
        Err(e) => refusal_number(e),
    };
    Fed {
        number,
        machine: step.machine,
    }
}

// An event that was read. A call belongs on tapes and is no input.
fn event_fed(m: Machine, moment: u64, body: &[u8], e: Event) -> Fed
    ensures { result ≡ fed_with m moment (told_by body.now e) }
{
    match e {
        Event::Call => Fed {
            number: refusal_number(Refusal::OutOfRange),
            machine: m,
        },
        _ => input_fed(m, moment, body, e),
    }
}

// An input's body, fed to a machine that goes in by value and comes back.
pub fn feed(m: Machine, moment: u64, body: &[u8]) -> Fed
    ensures { result ≡ fed_of m moment body.now }
{
    match read_event(body) {
        Err(f) => Fed {
            number: refusal_number(f.refusal),
            machine: m,
        },
        Ok((e, _)) => event_fed(m, moment, body, e),
    }
}

// A call, answered at the front of `out`. Where the answer does not fit, no call was made.
pub fn call(m: Machine, moment: u64, out: &mut [u8]) -> Called
    ensures { (result ≡ called_of m moment (length out.old)) × (out.new ≡ put_bytes out.old 0 (called_bytes m moment)) }
{
    let step = machine::calls::process_output(m, moment);
    let output = step.output;
    let machine = step.machine;
    let np = output_name(output);
    let ep = output_ech(output);
    let names = m.names;
    let echs = m.echs;
    let origin = names.list[0];
    let name = names.list[np];
    let ech = echs.list[ep];
    let wrote = put_output(out, 0, output, origin, name, ech);
    match wrote {
        Err(_) => Called { wrote, machine: m },
        Ok(_) => Called { wrote, machine },
    }
}

// An input's body, fed to the machine that is lent: 0, or the refusal's number, and then the machine is as it was.
pub fn process_input(m: &mut Machine, moment: u64, body: &[u8]) -> u8
    ensures { (result ≡ (fed_of m.old moment body.now).number) × (m.new ≡ (fed_of m.old moment body.now).machine) }
{
    let after = feed(*m, moment, body);
    *m = after.machine;
    after.number
}

// A call to the machine that is lent: how many bytes of `out` its answer takes; or 13, and then the machine and `out` are as they were.
pub fn process_output(m: &mut Machine, moment: u64, out: &mut [u8]) -> Result<usize, Refusal>
    ensures { (result ≡ (called_of m.old moment (length out.old)).wrote) × (m.new ≡ (called_of m.old moment (length out.old)).machine) × (out.new ≡ put_bytes out.old 0 (called_bytes m.old moment)) }
{
    let after = call(*m, moment, out);
    *m = after.machine;
    after.wrote
}
