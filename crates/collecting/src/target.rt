//! How many frames a heap may use until it is collected, by how many it used after its last collection.

ghost use Rattle.std.specs.Prelude.{◌≡◌, ◌-◌};
ghost use Rattle.collecting.specs.Targets.{followed, grown, is_behind, larger};

use crate::policy::Policy;

/// How many frames a heap may use until it is collected: those that it used after its last collection, and `growth`
/// percent more. So its memory follows its live objects, and not its greatest size.
#[derive(Clone, Copy, Debug, PartialEq, Eq)]
pub struct Target {
    /// The frames that it may use in any case.
    least: u32,
    /// How many it may use in addition, for each hundred that it used after its last collection.
    growth: u32,
    /// How many it may use.
    frames: u32,
    /// How many it used at the last call of `follow`.
    used: u32,
}

/// Returns the larger of two numbers.
fn larger(one: u32, other: u32) -> u32
    ensures { result ≡ larger one other }
{
    if one < other { other } else { one }
}

/// Returns how many frames may be used if `used` are used after a collection: `growth` percent more, at least one
/// more, and at least `least` in all.
fn grown(least: u32, growth: u32, used: u32) -> u32
    ensures { result ≡ grown least growth used }
{
    let more = u64::from(used) * u64::from(growth) / 100;
    let more = if more == 0 { 1 } else { more };
    let all = u64::from(used) + more;
    if all > u64::from(u32::MAX) {
        u32::MAX
    } else {
        larger(least, all as u32)
    }
}

impl Target {
    /// Makes a target by which a heap may use `least` frames, and after a collection `growth` percent more than it
    /// uses then: 100 lets it double.
    pub fn new(least: u32, growth: u32) -> Target
        ensures { result.frames ≡ least }
    {
        Target {
            least,
            growth,
            frames: least,
            used: 0,
        }
    }

    /// Returns how many frames the heap may use until it is collected.
    pub fn frames(&self) -> u32
        ensures { result ≡ self.now.frames }
    {
        self.frames
    }

    /// Returns at how many free frames a heap of `most` frames is collected if a policy has `free`: at more if it
    /// uses as many frames as this target allows then.
    pub fn free(&self, free: u32, most: u32) -> u32
        ensures { result ≡ larger free (most - self.now.frames) }
    {
        larger(free, most.saturating_sub(self.frames))
    }

    /// Returns the policy by which a heap of `most` frames is also collected if it uses as many frames as this
    /// target allows.
    pub fn policy(&self, policy: Policy, most: u32) -> Policy
        ensures words { result.words ≡ policy.words }
        ensures percent { result.percent ≡ policy.percent }
        ensures free { result.free ≡ larger policy.free (most - self.now.frames) }
    {
        Policy {
            words: policy.words,
            free: self.free(policy.free, most),
            percent: policy.percent,
        }
    }

    /// Records how many frames are used now. If they are fewer than they were, or more than they may be, the heap
    /// was collected: the target is set then, by those that are used. Returns whether it was.
    pub fn follow(&mut self, used: u32) -> bool
        ensures set { result ≡ is_behind self.old.used self.old.frames used }
        ensures frames { self.new.frames ≡ followed self.old.least self.old.growth self.old.used self.old.frames used }
        ensures used { self.new.used ≡ used }
        ensures least { self.new.least ≡ self.old.least }
        ensures growth { self.new.growth ≡ self.old.growth }
    {
        let collected = used < self.used || used > self.frames;
        self.used = used;
        if collected {
            self.frames = grown(self.least, self.growth, used);
        }
        collected
    }
}
