// What a user control message wants. Bytes past those of the event are not looked at.
ghost use Rattle.std.specs.Prelude.{◌≡◌};
ghost use Rattle.wishes.specs.Control.{control_wish, event_wish, ping_wish};

use crate::outcome::Refusal;
use crate::wish::{LONGEST_BODY, Wish};
use numbers::{u16_at, u32_at};

#[tactic(auto, unfolding(crate::specs::Control::ping_wish))]
fn ping_wish(body: &[u8], ping: Wish) -> Result<Wish, Refusal>
    ensures { result ≡ ping_wish body.now ping }
{
    if body.len() < 6 {
        return Err(Refusal::NotAmf0);
    }
    Ok(ping)
}

// The event is the wire's number, told apart here alone.
#[tactic(auto, unfolding(crate::specs::Control::event_wish))]
fn event_wish(body: &[u8], event: u16) -> Result<Wish, Refusal>
    ensures { result ≡ event_wish body.now event }
{
    let number = u32_at(body, 2);
    match event {
        6 => ping_wish(body, Wish::PingRequest(number)),
        7 => ping_wish(body, Wish::PingResponse(number)),
        _ => Ok(Wish::Nothing),
    }
}

#[tactic(auto, unfolding(crate::specs::Control::control_wish))]
pub fn control_wish(body: &[u8]) -> Result<Wish, Refusal>
    ensures { result ≡ control_wish body.now }
{
    if LONGEST_BODY < body.len() {
        return Err(Refusal::BodyTooLong);
    }
    if body.len() < 2 {
        return Err(Refusal::NotAmf0);
    }
    event_wish(body, u16_at(body, 0))
}
