//! Complete loads: the steps of one load through the read barrier, up to its end or its first error.

ghost use Rattle.std.specs.Prelude.{◌≡◌, ◌++◌, ◌∷◌, [], false, IfOk, OnErr, OnOk};
ghost use Rattle.model.specs.declared.steps.Actor.TheVariants.{Thread};
ghost use Rattle.cycle.specs.Beginnings.{IsBeginning, NotMemory};
ghost use Rattle.cycle.specs.Books.{act_outcome};
ghost use Rattle.cycle.specs.Loads.{EndsIn, Leaves, LoadsWhole, Says, ThreeTrapsServe};
ghost use Rattle.cycle.specs.Loads.{finish_load, heal_load, is_clear, heal_is_due, waits_for_heal};
ghost use Rattle.cycle.specs.Loads.{trap_load, end_load, whole_load};

use crate::book::Book;
use crate::running::add;
use barrier::may_finish;
use heap::Heap;
use model::{Actor, Answer, Barrier, Refusal, Reply, Step};
use std::alloc::AllocError;

/// The greatest number of traps of one load. After one that corrects the reference and one that marks it, none is
/// due, so the third is clear.
pub const MOST_TRAPS: u32 = 3;

/// No load of a recorded heap needs more than three traps. It does nothing: its contract is the law.
pub fn three_traps()
    ensures { ThreeTrapsServe }
{}

/// Returns whether an answer to a trap is that none was due.
pub fn is_clear(answer: Answer) -> bool
    ensures { result ≡ is_clear answer }
{
    matches!(answer, Answer::Clear)
}

/// Returns whether the reference of an open load was corrected, and its place isn't healed yet.
fn waits_for_heal(barrier: Option<Barrier>) -> bool
    ensures { result ≡ waits_for_heal barrier }
{
    match barrier {
        Some(barrier) => !may_finish(&barrier),
        None => false,
    }
}

/// Returns whether a thread's load is after a trap that was due, and before its heal. Threads count from 0; false if
/// there is no such thread.
pub fn heal_is_due(heap: &Heap, thread: u32) -> bool
    ensures { result ≡ heal_is_due heap.now (Thread thread) }
{
    waits_for_heal(heap.barrier(thread))
}

/// Returns whether an actor's load is after a trap that was due, and before its heal.
fn is_due_for(heap: &Heap, actor: Actor) -> bool
    ensures { result ≡ heal_is_due heap.now actor }
{
    match actor {
        Actor::Thread(thread) => heal_is_due(heap, thread),
        Actor::Worker(_) => false,
    }
}

impl Book {
    /// Does one step, as `act` does, and appends its reply. Fails if out of memory, for the reply or in the step;
    /// then recorded heap and replies are as they were. So the reply is never `Memory`.
    pub fn act_into(
        &mut self,
        actor: Actor,
        step: Step,
        replies: &mut Vec<Reply>,
    ) -> Result<Reply, AllocError>
        ensures says { IfOk result (λ reply. Says self.old reply self.new (act_outcome self.old actor step)) }
        ensures replies { IfOk result (λ reply. replies.new.items ≡ replies.old.items ++ reply ∷ []) }
        ensures refused { IfOk result NotMemory }
        ensures same_book { OnErr result (self.new ≡ self.old) }
        ensures same_replies { OnErr result (replies.new.items ≡ replies.old.items) }
    {
        replies.reserve(1)?;
        let reply = self.act(actor, step);
        if let Err(Refusal::Memory) = reply {
            return Err(AllocError);
        }
        add(replies, reply);
        Ok(reply)
    }

    /// Ends the load.
    fn finish_load(&mut self, actor: Actor, replies: &mut Vec<Reply>) -> Result<Reply, AllocError>
        ensures steps { OnOk result (Leaves (finish_load self.old actor) replies.old.items self.new replies.new.items) }
        ensures last { IfOk result (EndsIn replies.new.items) }
        ensures refused { IfOk result NotMemory }
        ensures memory { OnErr result
            (IsBeginning (finish_load self.old actor).book self.old replies.old.items self.new replies.new.items) }
    {
        self.act_into(actor, Step::Finish, replies)
    }

    /// Heals the place of the load, if a trap was due, and ends the load.
    fn heal_load(
        &mut self,
        actor: Actor,
        due: bool,
        replies: &mut Vec<Reply>,
    ) -> Result<Reply, AllocError>
        ensures steps { OnOk result (Leaves (heal_load due self.old actor) replies.old.items self.new
            replies.new.items) }
        ensures last { IfOk result (EndsIn replies.new.items) }
        ensures refused { IfOk result NotMemory }
        ensures memory { OnErr result
            (IsBeginning (heal_load due self.old actor).book self.old replies.old.items self.new replies.new.items) }
    {
        if due {
            match self.act_into(actor, Step::Heal, replies)? {
                Ok(_) => self.finish_load(actor, replies),
                Err(refusal) => Ok(Err(refusal)),
            }
        } else {
            self.finish_load(actor, replies)
        }
    }

    /// Traps until one is clear, heals the place if a trap was due, and finishes.
    fn trap_load(
        &mut self,
        actor: Actor,
        mut due: bool,
        replies: &mut Vec<Reply>,
    ) -> Result<Reply, AllocError>
        ensures steps { OnOk result (Leaves (trap_load 3 due self.old actor) replies.old.items self.new
            replies.new.items) }
        ensures last { IfOk result (EndsIn replies.new.items) }
        ensures refused { IfOk result NotMemory }
        ensures memory { OnErr result
            (IsBeginning (trap_load 3 due self.old actor).book self.old replies.old.items self.new replies.new.items) }
    {
        for _ in 0..MOST_TRAPS {
            match self.act_into(actor, Step::Trap, replies)? {
                Err(refusal) => return Ok(Err(refusal)),
                Ok(answer) => {
                    if is_clear(answer) {
                        return self.heal_load(actor, due, replies);
                    }
                    due = true;
                }
            }
        }
        self.heal_load(actor, due, replies)
    }

    /// Continues a load that has begun, to its end: traps until one is clear, heals the place if a trap was due, and
    /// finishes. An error ends it. Returns the reply of its last step, and appends all.
    ///
    /// Fails only if out of memory. A beginning of these steps is done then, each of them accepted, and their replies
    /// are appended. The call may be repeated, and continues from there: if a trap was due before, the place is
    /// healed.
    pub fn end_load(&mut self, actor: Actor, replies: &mut Vec<Reply>) -> Result<Reply, AllocError>
        ensures steps { OnOk result (Leaves (end_load self.old actor) replies.old.items self.new replies.new.items) }
        ensures last { IfOk result (EndsIn replies.new.items) }
        ensures refused { IfOk result NotMemory }
        ensures memory { OnErr result
            (IsBeginning (end_load self.old actor).book self.old replies.old.items self.new replies.new.items) }
    {
        let due = is_due_for(self.heap(), actor);
        self.trap_load(actor, due, replies)
    }

    fn begin_and_end_load(
        &mut self,
        actor: Actor,
        load: Step,
        replies: &mut Vec<Reply>,
    ) -> Result<Reply, AllocError>
        ensures steps { OnOk result (Leaves (whole_load self.old actor load) replies.old.items self.new
            replies.new.items) }
        ensures last { IfOk result (EndsIn replies.new.items) }
        ensures refused { IfOk result NotMemory }
        ensures memory { OnErr result
            (IsBeginning (whole_load self.old actor load).book self.old replies.old.items self.new replies.new.items) }
    {
        match self.act_into(actor, load, replies)? {
            Ok(_) => self.trap_load(actor, false, replies),
            Err(refusal) => Ok(Err(refusal)),
        }
    }

    /// Does a complete load, as one call: the step that begins it, which is `Load` or `LoadGlobal`, then all that
    /// `end_load` does. Returns `Ok` if the register has the reference, else the first error, which is `Memory` if
    /// out of memory. The steps' replies are appended to `replies`.
    ///
    /// After `Memory` a beginning of these steps is done, each of them accepted, and their replies are appended. If
    /// the load had begun, `end_load` continues it.
    pub fn whole_load(
        &mut self,
        actor: Actor,
        load: Step,
        replies: &mut Vec<Reply>,
    ) -> Result<(), Refusal>
        ensures { LoadsWhole result self.old replies.old.items self.new replies.new.items
            (whole_load self.old actor load) }
    {
        match self.begin_and_end_load(actor, load, replies) {
            Ok(Ok(_)) => Ok(()),
            Ok(Err(refusal)) => Err(refusal),
            Err(_) => Err(Refusal::Memory),
        }
    }
}
