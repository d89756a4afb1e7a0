//! The pseudo-random numbers that determine the records of a load.
ghost use Rattle.std.specs.Prelude.{◌≡◌, ◌<◌};
ghost use Rattle.load_make.specs.NumberSequence as sequence;

/// Returns the number that follows this one.
pub(crate) fn following(number: u64) -> u64
    ensures { result ≡ sequence.following number }
{
    number
        .wrapping_mul(6364136223846793005)
        .wrapping_add(1442695040888963407)
}

/// Returns the connection that a number selects.
#[tactic(auto, unfolding(crate::specs::NumberSequence::flow_of))]
pub(crate) fn flow_of(number: u64) -> u8
    ensures exact { result ≡ sequence.flow_of number }
    ensures small { result < 64 }
{
    (number / (1 << 33) % 64) as u8
}

/// Returns the action that a number selects.
#[tactic(auto, unfolding(crate::specs::NumberSequence::action_of))]
pub(crate) fn action_of(number: u64) -> u8
    ensures { result ≡ sequence.action_of number }
{
    (number / (1 << 40) % 8) as u8
}
