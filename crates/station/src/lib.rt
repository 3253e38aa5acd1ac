#![tactic(auto)]
// A station's step, on a lent state and lent output.
ghost use Rattle.std.specs.Prelude.{◌≡◌, length};
ghost use Rattle.station_answer.specs.Did.{outcome};
ghost use Rattle.station_owner.specs.Owner.{called};
ghost use Rattle.station.specs.Station.{check_step_b, station_step_b};
ghost use Rattle.station_state.specs.Layout.{state_length};
ghost use Rattle.refusals.specs.Refusals.{code};

use refusals::Refusal;
use station_answer::Said;

// Why a message is turned back at this state: by its bytes alone, or since nothing waits for it.
fn check_step(m: &[u8], s: &[u8]) -> Result<(), Refusal>
    requires { length s.now ≡ state_length }
    ensures { code result ≡ check_step_b m.now s.now }
{
    message::down_check(u32::from(station_state::station(s)), m)?;
    if message::station(m) != station_state::station(s) {
        return Err(Refusal::Unexpected);
    }
    if !station_delivery::fits(m, s) {
        return Err(Refusal::Unexpected);
    }
    Ok(())
}

// The station's step on a message from the server.
pub fn step(m: &[u8], s: &mut [u8], o: &mut [u8], c: &mut [u8]) -> Said
    ensures { outcome s.new o.new c.new result ≡ called s.old o.old c.old (station_step_b m.now s.old) }
{
    if !station_owner::ready(s, o, c) {
        return station_owner::refuse(Refusal::Buffer as u32);
    }
    if let Err(why) = check_step(m, s) {
        return station_owner::refuse(why.number());
    }
    station_delivery::on_down(s, m, o)
}
