//! New objects.

ghost use Rattle.std.specs.Prelude.{◌≡◌, ◌≤◌, ◌<◌, ◌+◌, ◌-◌, ◌*◌, ◌∷◌, ◌++◌, length, drop, replicate, slice_get, slice_set, Some};
ghost use Rattle.std.specs.Prelude.{true};
ghost use Rattle.layout.specs.Objects.{size_of};
ghost use Rattle.model.specs.Stores.{overlay, with_words};
ghost use Rattle.model.specs.Owning.{LiesIn};
ghost use Rattle.model.specs.Refusing.{Does};
ghost use Rattle.model.specs.Saying.{said};
ghost use Rattle.model.specs.Outcome.{Passes};
ghost use Rattle.model.specs.declared.steps.Step.TheVariants as steps;
ghost use Rattle.model.specs.declared.steps.Answer.TheVariants as answers;
ghost use Rattle.model.specs.States.{change_at};
ghost use Rattle.model.specs.Bits.{put_bit};
ghost use Rattle.model.specs.Births.{place_object, new_outcome, hand_object};
ghost use Rattle.model.specs.Phases.{is_marking, is_mark_crossing};

use crate::heap::Heap;
use layout::{Header, Layout};
use markbits::{IndexedRows, Rows};
use model::{Buffer, Phase, Refusal};
use page::Store;
use refword::{Addr, Word};

/// Writes a zero at an index, if it is in range.
#[inline(always)]
fn clear_at(words: &mut [u64], index: usize)
    ensures { words.new ≡ slice_set words.old index 0 }
{
    if index < words.len() {
        words[index] = 0;
    }
}

/// Writes zeros over at most 7 words, one by one: a call of C's `memset` would take longer.
#[inline(always)]
#[tactic(auto, using(crate::proofs::Births::few_cleared))]
fn clear_few(words: &mut [u64])
    requires { length words.old ≤ 7 }
    ensures { words.new ≡ replicate (length words.old) 0 }
{
    clear_at(words, 0);
    clear_at(words, 1);
    clear_at(words, 2);
    clear_at(words, 3);
    clear_at(words, 4);
    clear_at(words, 5);
    clear_at(words, 6);
}

/// Writes zeros over all words.
#[inline(always)]
fn clear_words(words: &mut [u64])
    ensures { words.new ≡ replicate (length words.old) 0 }
{
    if words.len() > 7 {
        words.fill(0);
    } else {
        clear_few(words);
    }
}

/// Writes an object's header, and zeros after it.
#[inline(always)]
fn write_object(part: &mut [u64], header: u64, others: usize)
    requires { others < length part.old }
    ensures { part.new ≡ (header ∷ replicate others 0) ++ drop (1 + others) part.old }
{
    let object = &mut part[..1 + others];
    clear_words(object);
    object[0] = header;
}

/// Writes a new object at the head of a buffer's free rest.
#[inline(always)]
fn write_new(store: &mut Store, buffer: Buffer, header: u64, others: u32)
    requires lies { LiesIn store.old buffer }
    requires room { others < buffer.end - buffer.next }
    ensures { store.new ≡ with_words store.old buffer.page
        (λ ws. overlay ws buffer.next (header ∷ replicate others 0)) }
{
    store.law();
    let part = store.part_mut(&buffer);
    write_object(part, header, others as usize);
}

/// Notes that an object starts at the head of a buffer. While a mark runs, it is marked at once, and grey while
/// threads have still to cross. While none runs, mostly no bit of a mark is set on the page, and then none is
/// cleared.
#[inline(always)]
#[tactic(auto, using(crate::proofs::Births::not_crossing))]
fn note_start(
    starts: &mut Rows,
    mark: &mut Rows,
    todo: &mut IndexedRows,
    phase: Phase,
    buffer: Buffer,
)
    ensures starts { starts.new ≡ change_at starts.old (buffer.page - 1) (put_bit buffer.next true) }
    ensures mark { mark.new ≡ change_at mark.old (buffer.page - 1) (put_bit buffer.next (is_marking phase)) }
    ensures todo { todo.new ≡ change_at todo.old (buffer.page - 1) (put_bit buffer.next (is_mark_crossing phase)) }
{
    let index = buffer.page.saturating_sub(1) as usize;
    let offset = buffer.next as usize;
    starts.set(index, offset);
    if phase.is_marking() {
        mark.put(index, offset, true);
        todo.put(index, offset, phase.is_mark_crossing());
    } else {
        mark.unset(index, offset);
        todo.unset(index, offset);
    }
}

impl Heap {
    /// Makes an object in a thread's buffer, with null references and data of 0, and writes its word, which is marked
    /// through, to a register. Returns its birth number.
    ///
    /// Fails with `NoRoom` if there is no buffer, or it has fewer words left than the object; `BadIndex` if there is
    /// no such layout; `Births` if no more objects may be born.
    #[inline(always)]
    #[tactic(auto, unfolding(model::specs::Births::new_outcome))]
    pub fn new_row(&mut self, thread: u32, target: u32, number: u32) -> Result<u64, Refusal>
        requires { Passes self.old thread (steps.New target number) }
        ensures { Does self.old (said answers.Birth result) self.new (new_outcome self.old thread target number) }
    {
        let Some(buffer) = self.buffer(thread) else {
            return Err(Refusal::NoRoom);
        };
        let Some(layout) = self.config.layouts.get(number) else {
            return Err(Refusal::BadIndex);
        };
        if buffer.end - buffer.next < layout.size() {
            return Err(Refusal::NoRoom);
        }
        if self.births >= self.config.births {
            return Err(Refusal::Births);
        }
        let birth = self.births;
        self.place(thread, target, number, layout, buffer);
        Ok(birth)
    }

    /// Makes an object in a buffer that has space for it. Its words are written last: so less is kept across the call
    /// that lends them.
    #[inline(always)]
    #[tactic(auto, unfolding(model::specs::Births::place_object))]
    fn place(&mut self, thread: u32, target: u32, number: u32, layout: Layout, buffer: Buffer)
        requires there { slice_get self.old.config.layouts number ≡ Some layout }
        requires lies { LiesIn self.old.store buffer }
        requires room { size_of layout ≤ buffer.end - buffer.next }
        requires births { self.old.births < self.old.config.births }
        ensures { self.new ≡ place_object self.old thread target number layout buffer }
    {
        let header = Header {
            birth: self.births,
            layout: number as u8,
        };
        let size = layout.size();
        let word = Word::of(self.buffer_address(buffer), self.nmt);
        let rest = Buffer {
            page: buffer.page,
            next: buffer.next + size,
            end: buffer.end,
        };
        self.hand_over(thread, target, word, rest);
        note_start(
            &mut self.starts,
            &mut self.mark,
            &mut self.todo,
            self.phase,
            buffer,
        );
        self.births += 1;
        write_new(&mut self.store, buffer, header.write(), size - 1);
    }

    /// Writes a new object's word to a thread's register, and leaves the thread the rest of its buffer.
    #[inline(always)]
    #[tactic(auto, using(crate::proofs::Keeping::thread_keeps))]
    fn hand_over(&mut self, thread: u32, target: u32, word: Word, rest: Buffer)
        requires { LiesIn self.old.store rest }
        ensures { self.new ≡ record self.old {
          threads = change_at self.old.threads thread
              (hand_object target word rest);
        } }
    {
        self.threads.hand_object(thread, target, word, rest);
    }

    /// Returns the address at which the next object of a buffer starts.
    #[inline(always)]
    fn buffer_address(&self, buffer: Buffer) -> Addr
        requires lies { LiesIn self.now.store buffer }
        requires room { buffer.next < buffer.end }
        ensures { result ≡ buffer.page * self.now.store.words + buffer.next }
    {
        self.store.law();
        let page = u64::from(buffer.page);
        let words = u64::from(self.store.page_words());
        Addr::new(page * words + u64::from(buffer.next)).unwrap()
    }
}
