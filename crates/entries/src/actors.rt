//! Comparing actors.

ghost use Rattle.std.specs.Prelude.{◌≡◌};
ghost use Rattle.entries.specs.Parts.{is_before, is_same};

use model::Actor;

/// Returns whether two actors are the same.
#[tactic(auto, unfolding(crate::specs::Parts::is_same))]
pub fn is_same(left: Actor, right: Actor) -> bool
    ensures { result ≡ is_same left right }
{
    match (left, right) {
        (Actor::Thread(m), Actor::Thread(n)) => m == n,
        (Actor::Worker(m), Actor::Worker(n)) => m == n,
        _ => false,
    }
}

/// Returns whether an actor comes before another one: threads come before workers, each in the order of their
/// numbers.
#[tactic(auto, unfolding(crate::specs::Parts::is_before))]
pub fn is_before(left: Actor, right: Actor) -> bool
    ensures { result ≡ is_before left right }
{
    match (left, right) {
        (Actor::Thread(m), Actor::Thread(n)) => m < n,
        (Actor::Worker(m), Actor::Worker(n)) => m < n,
        (Actor::Thread(_), Actor::Worker(_)) => true,
        (Actor::Worker(_), Actor::Thread(_)) => false,
    }
}
