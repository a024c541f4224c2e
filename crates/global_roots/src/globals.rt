//! The globals of a heap, with a count of the grey ones: those still to be marked.

ghost use Rattle.std.specs.Prelude.{◌≡◌, ◌<◌, map, replicate, position, length, None, false, IfOk, IfSome};
ghost use Rattle.model.specs.Cycles.{set_todo_of};
ghost use Rattle.model.specs.References.{set_word_of};
ghost use Rattle.model.specs.Scans.{set_marked_of};
ghost use Rattle.model.specs.States.{change_at};
ghost use Rattle.global_roots.specs.Globals.{is_todo, counted_todo};

use model::Global;
use refword::Word;
use std::alloc::{AllocError, Global as Memory};
use std::marker::Model;

/// The globals, by number from 0. A contract sees the list of them.
///
/// It counts the grey ones, those still to be marked, so that none is searched for if none is left.
#[derive(Drop)]
pub struct Globals {
    list: Vec<Global>,
    /// How many are grey.
    left: usize,
}

impl Model for Globals {
    ghost use Rattle.std.specs.Prelude.{◌≡◌, List};
    ghost use Rattle.model.specs.declared.records.Global.{Global};
    ghost use Rattle.global_roots.specs.Globals.{todo_count};

    ghost Value = { List Global };

    ghost view = { λ g. g.list.items };

    ghost invariant = { λ g. g.left ≡ todo_count g.list.items };
}

/// Makes all globals grey.
#[tactic(auto, using(thread_records::proofs::Looping::mapped_none, thread_records::proofs::Looping::mapped_more, thread_records::proofs::Looping::mapped_all))]
fn set_each_todo(globals: &mut [Global])
    ensures { globals.new ≡ map set_todo_of globals.old }
{
    for global in globals.iter_mut() {
        global.todo = true;
    }
}

/// Returns how much a global adds to the count of grey ones.
fn counted_todo(global: &Global) -> usize
    ensures { result ≡ counted_todo global.now }
{
    if global.todo { 1 } else { 0 }
}

impl Globals {
    /// Returns `count` globals, all null and none grey. Fails only if out of memory.
    #[tactic(auto, using(crate::proofs::Counting::none_todo))]
    pub fn new(alloc: Memory, count: u32) -> Result<Globals, AllocError>
        ensures { IfOk result (λ g. g ≡ replicate count (record { word = None; todo = false })) }
    {
        let global = Global {
            word: Word::null(),
            todo: false,
        };
        let list = vec![in alloc; global; count as usize]?;
        Ok(Globals { list, left: 0 })
    }

    /// Returns the globals, by number from 0.
    pub fn as_slice(&self) -> &[Global]
        ensures { result.now ≡ self.now }
    {
        &self.list
    }

    /// Returns the number, from 0, of the first grey global, or `None`.
    #[tactic(auto, using(crate::proofs::Counting::none_found))]
    pub fn first_todo(&self) -> Option<usize>
        ensures place { result ≡ position is_todo self.now }
        ensures there { IfSome result (λ i. i < length self.now) }
    {
        if self.left == 0 {
            return None;
        }
        self.list.iter().position(|global| global.todo)
    }

    /// Writes the word of a global, if it exists.
    #[tactic(auto, using(crate::proofs::Counting::still_todo))]
    pub fn set_word(&mut self, number: u32, word: Word)
        ensures { self.new ≡ change_at self.old number (set_word_of word) }
    {
        if (number as usize) < self.list.len() {
            let global = &mut self.list[number as usize];
            global.word = word;
        }
    }

    /// Writes the marked word of a global, if it exists: the global is no longer grey.
    #[tactic(auto, using(crate::proofs::Counting::counted, crate::proofs::Counting::one_less))]
    pub fn set_marked(&mut self, number: u32, word: Word)
        ensures { self.new ≡ change_at self.old number (set_marked_of word) }
    {
        if (number as usize) < self.list.len() {
            let global = &mut self.list[number as usize];
            let counted = counted_todo(global);
            global.word = word;
            global.todo = false;
            self.left -= counted;
        }
    }

    /// Makes all globals grey.
    #[tactic(auto, using(crate::proofs::Counting::all_todo_back))]
    pub fn set_all_todo(&mut self)
        ensures { self.new ≡ map set_todo_of self.old }
    {
        let count = self.list.len();
        set_each_todo(&mut self.list);
        self.left = count;
    }
}
