//! Layouts, and the table of a heap's layouts.

ghost use Rattle.std.specs.Prelude.{◌≡◌, ◌==◌, ◌<◌, ◌^◌, length, slice_get};
ghost use Rattle.layout.specs.Objects.{size_of};

use std::marker::Model;

/// The numbers of an object's references and data: in a heap 0 to 1,023 each.
#[derive(Clone, Copy, Debug, PartialEq, Eq)]
pub struct Layout {
    /// The number of references.
    pub refs: u16,
    /// The number of data words.
    pub nums: u16,
}

impl Layout {
    /// Returns the number of words of an object, including its header: in a heap 1 to 2,047.
    pub fn size(&self) -> u32
        ensures value { result ≡ size_of self.now }
        ensures range { result < 2 ^ 17 }
    {
        1 + u32::from(self.refs) + u32::from(self.nums)
    }
}

/// The layouts of a heap, by number from 0. A contract sees the list of them.
#[derive(Debug, Drop)]
pub struct Layouts {
    items: Vec<Layout>,
}

impl Model for Layouts {
    ghost use Rattle.std.specs.Prelude.{List};
    ghost use Rattle.layout.specs.declared.shape.Layout.{Layout};

    ghost Value = { List Layout };

    ghost view = { λ t. t.items.items };
}

impl Layouts {
    /// Returns the table of these layouts.
    pub fn new(items: Vec<Layout>) -> Layouts
        ensures { result ≡ items.items }
    {
        Layouts { items }
    }

    /// Returns the layout of this number, or `None` if there is no such layout.
    pub fn get(&self, number: u32) -> Option<Layout>
        ensures { result ≡ slice_get self.now number }
    {
        self.items.get(number as usize).copied()
    }

    /// Returns the number of layouts.
    pub fn len(&self) -> usize
        ensures { result ≡ length self.now }
    {
        self.items.len()
    }

    /// Returns whether there are none.
    pub fn is_empty(&self) -> bool
        ensures { result ≡ (length self.now == 0) }
    {
        self.items.is_empty()
    }

    /// Returns the layouts in order.
    pub fn as_slice(&self) -> &[Layout]
        ensures { result.now ≡ self.now }
    {
        &self.items
    }

    /// Returns the layouts as the vector from which the table was made.
    pub fn into_vec(self) -> Vec<Layout>
        ensures { result.items ≡ self }
    {
        let Layouts { items } = self;
        items
    }
}
