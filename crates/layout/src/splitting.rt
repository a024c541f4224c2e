//! Splitting an object's words into parts that are borrowed at once.

ghost use Rattle.std.specs.Prelude.{◌≡◌, ◌≢◌, ◌+◌, ◌∷◌, ◌++◌, ◌↔◌, ◌<◌, length, IfSome, IsNone};
ghost use Rattle.std.specs.Borrow.{sem, LendsBothIf, Array, u64};
ghost use Rattle.layout.specs.Objects.{size_of};

use crate::parts::Split;
use crate::shape::Layout;

/// Returns the header, the references and the data of an object, without copying. Returns `None` exactly if the
/// number of words isn't the layout's size.
pub fn split<'a>(part: &'a mut [u64], layout: &Layout) -> Option<Split<'a>>
    ensures none { IsNone result ↔ (length part.old ≢ size_of layout.now) }
    ensures whole { IfSome result (λ s. s.header.now ∷ s.refs.now ++ s.data.now ≡ part.old) }
    ensures refs { IfSome result (λ s. length s.refs.now ≡ layout.now.refs) }
    ensures data { IfSome result (λ s. length s.data.now ≡ layout.now.nums) }
{
    if part.len() != layout.size() as usize {
        return None;
    }
    let (header, body) = part.split_first_mut()?;
    let (refs, data) = body.split_at_mut(layout.refs as usize);
    Some(Split { header, refs, data })
}

/// Returns the header and the words after it; `None` if there are no words. When the borrow ends, the words are the
/// header followed by the rest.
pub fn split_header(part: &mut [u64]) -> Option<(&mut u64, &mut [u64])>
    ensures none { IsNone result ↔ (length part.old ≡ 0) }
    ensures whole { IfSome result (λ s. s.0.now ∷ s.1.now ≡ part.old) }
    ensures* after { sem 𝓛 (LendsBothIf (Array u64 0) u64 (Array u64 0) part.entry result ◌∷◌ part.old) }
{
    part.split_first_mut()
}

/// Splits the words after a header into the references and the words after them. Returns `None` exactly if there are
/// fewer words than references. When the borrow ends, the words are the concatenation of the two.
pub fn split_parts<'a>(
    body: &'a mut [u64],
    layout: Layout,
) -> Option<(&'a mut [u64], &'a mut [u64])>
    ensures none { IsNone result ↔ (length body.old < layout.refs) }
    ensures whole { IfSome result (λ s. s.0.now ++ s.1.now ≡ body.old) }
    ensures refs { IfSome result (λ s. length s.0.now ≡ layout.refs) }
    ensures* after { sem 𝓛 (LendsBothIf (Array u64 0) (Array u64 0) (Array u64 0) body.entry result ◌++◌ body.old) }
{
    body.split_at_mut_checked(usize::from(layout.refs))
}
