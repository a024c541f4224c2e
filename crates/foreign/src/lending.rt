//! Borrows of the heap that a handle owns.

ghost use Rattle.std.specs.Prelude.{◌≡◌, true, Some};
ghost use Rattle.std.specs.Borrow.{sem};
ghost use Rattle.foreign.specs.Holding.{is_held};
ghost use Rattle.foreign.specs.Lending.{LendsHeld, LendsIfHeld, lent_in};

use crate::handle::{Handle, MARK};
use crate::held::Held;
use crate::slot::Slot;

impl Slot {
    /// Borrows the heap that the pointer leads to.
    #[inline(always)]
    pub fn lend(&mut self) -> &mut Held
        requires { is_held self.old.held ≡ true }
        ensures* after { sem 𝓛 (LendsHeld self.entry result) }
        ensures value { Some result.now ≡ self.old.held }
    {
        unsafe { &mut *(self.at as *mut Held) }
    }
}

impl Handle {
    /// Borrows the heap, if there is one.
    #[inline(always)]
    pub(crate) fn lend(&mut self) -> Option<&mut Held>
        ensures lent { lent_in result ≡ self.old.slot.held }
        ensures* after { sem 𝓛 (LendsIfHeld self.entry result) }
    {
        if self.mark == MARK {
            Some(self.slot.lend())
        } else {
            None
        }
    }
}
