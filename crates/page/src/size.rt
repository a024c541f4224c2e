//! How many words a page has.

ghost use Rattle.std.specs.Prelude.{◌≡◌, ◌/◌, ◌%◌, true};
ghost use Rattle.model.specs.Configs.{is_page_size};

use std::marker::Model;

/// The number of words of a page, a power of two, as its exponent and a mask: an address is divided into page and
/// offset by a shift and a mask, without a division. A contract sees the number of words.
#[derive(Debug, Drop)]
pub struct PageSize {
    shift: u32,
    /// One less than the words of a page: the bits of an offset.
    mask: u64,
}

impl Model for PageSize {
    ghost use Rattle.std.specs.Prelude.{ℕ};
    ghost use Rattle.page.specs.Sizes.{size_of, IsSize};

    ghost Value = { ℕ };

    ghost view = { size_of };

    ghost invariant = { IsSize };
}

impl PageSize {
    /// Returns the size of a number of words: 16 to 32,768, a power of two.
    pub fn of(words: u32) -> PageSize
        requires { is_page_size words ≡ true }
        ensures { result ≡ words }
    {
        let shift = match words {
            16 => 4,
            32 => 5,
            64 => 6,
            128 => 7,
            256 => 8,
            512 => 9,
            1024 => 10,
            2048 => 11,
            4096 => 12,
            8192 => 13,
            16384 => 14,
            _ => 15,
        };
        PageSize {
            shift,
            mask: (1 << shift) - 1,
        }
    }

    /// Returns the number of the page that an address is in.
    pub fn page_of(&self, address: u64) -> u64
        ensures { result ≡ address / self.now }
    {
        address >> self.shift
    }

    /// Returns the offset of an address in its page, in words.
    pub fn offset_of(&self, address: u64) -> u64
        ensures { result ≡ address % self.now }
    {
        address & self.mask
    }
}
