// The live calls over a machine that is lent for the call alone: it goes in by value and comes back, for a caller that holds it by value.
ghost use Rattle.std.specs.Prelude.{◌≡◌, length};
ghost use Rattle.numbers.specs.Put.{put_bytes};
ghost use Rattle.live.specs.Live.{fed_of, called_bytes, called_of};

use super::{Called, Fed, process_input, process_output};
use state::Machine;

pub fn input_lent(m: Machine, moment: u64, body: &[u8]) -> Fed
    ensures { result ≡ fed_of m moment body.now }
{
    let mut live = m;
    let number = process_input(&mut live, moment, body);
    Fed {
        number,
        machine: live,
    }
}

pub fn output_lent(m: Machine, moment: u64, out: &mut [u8]) -> Called
    ensures { (result ≡ called_of m moment (length out.old)) × (out.new ≡ put_bytes out.old 0 (called_bytes m moment)) }
{
    let mut live = m;
    let wrote = process_output(&mut live, moment, out);
    Called {
        wrote,
        machine: live,
    }
}
