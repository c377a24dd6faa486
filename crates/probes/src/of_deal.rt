// Entries over `deal`.
ghost use Rattle.std.specs.Prelude.{◌≡◌, length};
ghost use Rattle.deal.specs.Answer.{dealing_number, deal_answer, deal_out};

use deal::Dealing;

fn dealing_number(d: Dealing) -> u8
    ensures { result ≡ dealing_number d }
{
    d as u8
}

#[unsafe(no_mangle)]
pub extern "C" fn probe_deal(groups: &[u8], out: &mut [u16]) -> u8
    ensures answer { result ≡ deal_answer groups.now (length out.old) }
    ensures room { out.new ≡ deal_out groups.now out.old }
{
    let d = deal::deal(groups, out);
    dealing_number(d)
}
