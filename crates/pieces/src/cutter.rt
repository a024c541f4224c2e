//! Cutting words into pieces, each of which is written on its own.

ghost use Rattle.std.specs.Prelude.{◌≡◌, ◌++◌, take, drop, length, is_some, nat_le, IfSome, IfNone};
ghost use Rattle.std.specs.Borrow.{sem, LendsBothIf, Array, u64};

use std::marker::Model;

/// Words that are handed out piece by piece, from the first on. A contract sees those that are left.
#[derive(Drop)]
pub struct Cutter<'a> {
    rest: &'a mut [u64],
}

impl<'a> Model for Cutter<'a> {
    ghost use Rattle.std.specs.Prelude.{ℕ, List};

    ghost Value = { List ℕ };

    ghost view = { λ c. c.rest.now };
}

impl<'a> Cutter<'a> {
    /// Returns a cutter of all these words.
    pub fn new(words: &'a mut [u64]) -> Cutter<'a>
        ensures { result ≡ words.old }
    {
        Cutter { rest: words }
    }

    /// Cuts off the next `n` words. Returns `None` exactly if fewer are left; none is cut then. The pieces in their
    /// order, followed by what is left, are the words.
    pub fn cut(&mut self, n: usize) -> Option<&'a mut [u64]>
        ensures none { is_some result ≡ nat_le n (length self.old) }
        ensures len { IfSome result (λ piece. length piece.now ≡ n) }
        ensures parts { IfSome result (λ piece. piece.now ++ self.new ≡ self.old) }
        ensures kept { IfNone result (self.new ≡ self.old) }
    {
        if n > self.rest.len() {
            return None;
        }
        let all = std::mem::take(&mut self.rest);
        let (piece, rest) = all.split_at_mut(n);
        self.rest = rest;
        Some(piece)
    }
}

/// Returns the first `n` words, and the rest. Returns `None` exactly if there are fewer. When the borrows end, the
/// words are the concatenation of both parts.
#[inline(always)]
pub fn cut_off(words: &mut [u64], n: usize) -> Option<(&mut [u64], &mut [u64])>
    ensures none { is_some result ≡ nat_le n (length words.old) }
    ensures piece { IfSome result (λ p. p.0.now ≡ take n words.old) }
    ensures rest { IfSome result (λ p. p.1.now ≡ drop n words.old) }
    ensures* after { sem 𝓛 (LendsBothIf (Array u64 0) (Array u64 0) (Array u64 0) words.entry result ◌++◌ words.old) }
{
    if n > words.len() {
        return None;
    }
    Some(words.split_at_mut(n))
}
