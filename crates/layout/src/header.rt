//! The first word of an object.

ghost use Rattle.std.specs.Prelude.{◌≡◌, ◌<◌, ◌^◌};
ghost use Rattle.layout.specs.Objects.{IsHeader, birth_of, header_bits, header_of, layout_of};
ghost use Rattle.layout.specs.declared.header.Header.{Header};

/// An object's birth number, and its layout.
///
/// In memory bits 0 to 31 are the lower bits of the birth number, bits 32 to 39 the layout's number, and bits 40 to
/// 63 the upper bits of the birth number.
#[derive(Clone, Copy, Debug, PartialEq, Eq)]
pub struct Header {
    /// The birth number: how many objects were born before this one, below 2^56.
    pub birth: u64,
    /// The number of its layout in the heap's table, from 0.
    pub layout: u8,
}

impl Header {
    /// Returns its 64 bits.
    pub fn write(self) -> u64
        requires { self.birth < 2 ^ 56 }
        ensures { result ≡ header_bits self }
    {
        let low = self.birth % 4_294_967_296;
        let high = self.birth / 4_294_967_296;
        low + (u64::from(self.layout) << 32) + (high << 40)
    }

    /// Returns the header with these bits. Any 64 bits are those of a header.
    pub fn read(bits: u64) -> Header
        ensures value { result ≡ header_of bits }
        ensures range { IsHeader result }
        ensures bits { header_bits result ≡ bits }
        ensures all { (h : Header) → IsHeader h → header_bits h ≡ bits → result ≡ h }
    {
        Header {
            birth: birth_of(bits),
            layout: layout_of(bits) as u8,
        }
    }
}

/// Returns the birth number in the bits of a header: below 2^56.
#[inline(always)]
pub fn birth_of(bits: u64) -> u64
    ensures { result ≡ birth_of bits }
{
    bits % 4_294_967_296 + ((bits >> 40) << 32)
}

/// Returns the number of the layout in the bits of a header: at most 255.
#[inline(always)]
pub fn layout_of(bits: u64) -> u32
    ensures { result ≡ layout_of bits }
{
    ((bits >> 32) % 256) as u32
}
