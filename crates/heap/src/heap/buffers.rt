//! Allocation buffers of threads.

ghost use Rattle.std.specs.Prelude.{◌≡◌, ◌≤◌, ◌<◌, length, slice_get, Some, None, true, IfOk, IfSome};
ghost use Rattle.model.specs.Owning.{LiesIn};
ghost use Rattle.model.specs.Buffers.{buffer_of_thread, with_buffer};
ghost use Rattle.page_rows.specs.Opening.{AreClear};
ghost use Rattle.heap.specs.Taking.{refusal_of};
ghost use Rattle.page.specs.Records.{begins_page};
ghost use Rattle.model.specs.Buffers.{take_outcome, give_back_outcome};
ghost use Rattle.model.specs.Refusing.{Does, DoesOrLacks};
ghost use Rattle.model.specs.Saying.{said, done, lent};
ghost use Rattle.model.specs.Outcome.{Passes};
ghost use Rattle.model.specs.declared.steps.Step.TheVariants as steps;

use crate::heap::Heap;
use model::{Buffer, Refusal, Room};
use page_rows::{PageRows, open_rows};
use std::alloc::AllocError;

/// Returns why a thread gets no buffer.
fn refusal_of(room: Room) -> Refusal
    ensures { result ≡ refusal_of room }
{
    match room {
        Room::NoFrames => Refusal::NoFrames { need: 1, free: 0 },
        Room::NoPages => Refusal::NoPages,
        Room::NoMemory => Refusal::Memory,
    }
}

impl Heap {
    /// Returns the buffer of a thread, by its number from 0, or `None`.
    pub fn buffer(&self, thread: u32) -> Option<Buffer>
        ensures value { result ≡ buffer_of_thread self.now thread }
        ensures lies { IfSome result (LiesIn self.now.store) }
    {
        self.threads.buffer(thread)
    }

    /// Returns bitmaps for the page of a buffer of `words` words that is to be taken, if that page has to open. Fails
    /// only if out of memory.
    fn rows_ahead(&self, words: u32) -> Result<PageRows, AllocError>
        requires { 0 < words }
        ensures { IfOk result (λ rows. begins_page self.now.store words ≡ true → AreClear self.now.store.words rows) }
    {
        if self.store.begins_page(words) {
            PageRows::new(self.allocator(), self.store.page_words())
        } else {
            Ok(PageRows::empty(self.allocator()))
        }
    }

    /// Takes a buffer of 1 to the words of a page for a thread, in the lowest open page with space, else in a fresh
    /// page. Returns the buffer, which is then the thread's.
    ///
    /// Fails with `HasBuffer` if the thread has one; `NoFrames` if no page has space and no frame is free; `NoPages`
    /// if no page number is unused; `Memory` if out of memory for a fresh page.
    ///
    /// It also frees some forwarding tables that a mark's end cleared.
    pub fn take_row(&mut self, thread: u32, words: u32) -> Result<Buffer, Refusal>
        requires { Passes self.old thread (steps.Take words) }
        ensures does { DoesOrLacks self.old (said lent result) self.new (take_outcome self.old thread words) }
        ensures buffer { IfOk result (λ buffer. buffer_of_thread self.new thread ≡ Some buffer) }
    {
        self.tidy();
        self.take_tidied(thread, words)
    }

    /// Does what `take_row` does, but frees nothing.
    #[tactic(auto, unfolding(model::specs::Buffers::take_outcome, model::specs::Buffers::lend_buffer), using(model::proofs::Passing::take_low, model::proofs::Passing::take_high, crate::proofs::TakenBuffers::thread_there))]
    fn take_tidied(&mut self, thread: u32, words: u32) -> Result<Buffer, Refusal>
        requires { Passes self.old thread (steps.Take words) }
        ensures does { DoesOrLacks self.old (said lent result) self.new (take_outcome self.old thread words) }
        ensures buffer { IfOk result (λ buffer. buffer_of_thread self.new thread ≡ Some buffer) }
    {
        if self.buffer(thread).is_some() {
            return Err(Refusal::HasBuffer);
        }
        let Ok(rows) = self.rows_ahead(words) else {
            return Err(Refusal::Memory);
        };
        let buffer = match self.store.take(words) {
            Ok(buffer) => buffer,
            Err(room) => return Err(refusal_of(room)),
        };
        open_rows(
            &mut self.starts,
            &mut self.live,
            &mut self.mark,
            &mut self.todo,
            buffer,
            rows,
        );
        self.threads.set_buffer(thread, Some(buffer));
        Ok(buffer)
    }

    /// Gives a thread's buffer back; the rest of it is lost. Fails with `NoRoom` if the thread has none.
    #[tactic(auto, unfolding(model::specs::Buffers::give_back_outcome, model::specs::Buffers::with_buffer), using(crate::proofs::Keeping::thread_keeps))]
    pub fn give_back_row(&mut self, thread: u32) -> Result<(), Refusal>
        requires { Passes self.old thread steps.GiveBack }
        ensures { Does self.old (said done result) self.new (give_back_outcome self.old thread) }
    {
        let Some(buffer) = self.buffer(thread) else {
            return Err(Refusal::NoRoom);
        };
        self.store.give_back(buffer);
        self.threads.set_buffer(thread, None);
        Ok(())
    }
}
