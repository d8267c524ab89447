// The timestamp of a record, from the clock readings of the session's start and of the call.
ghost use Rattle.std.specs.Prelude.{◌≡◌};
ghost use Rattle.record.specs.Clock.{time_of};

#[tactic(auto, unfolding(crate::specs::Clock::time_of))]
pub fn time_of(start: u64, clock: u64) -> u32
    ensures { result ≡ time_of start clock }
{
    (clock.saturating_sub(start) % 4294967296) as u32
}
