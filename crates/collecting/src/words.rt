//! The words of live objects, as a collection in parts measures them.

ghost use Rattle.std.specs.Prelude.{◌≡◌};
ghost use Rattle.collecting.specs.Stages.{no_words, with_live};

/// How many words live objects have.
#[derive(Clone, Copy, Debug, PartialEq, Eq)]
pub(crate) struct LiveWords {
    /// Those on the pages that were measured.
    pub all: u64,
    /// Those on the pages that were chosen, which are copied.
    pub copied: u64,
}

impl LiveWords {
    /// Returns the words before any page is measured.
    pub(crate) fn none() -> LiveWords
        ensures { result ≡ no_words }
    {
        LiveWords { all: 0, copied: 0 }
    }

    /// Adds the live words of a page that was measured.
    pub(crate) fn add(&mut self, live: u64)
        ensures { self.new ≡ with_live live self.old }
    {
        self.all = self.all.saturating_add(live);
    }
}
