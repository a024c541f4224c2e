//! Runs of a list of steps.

ghost use Rattle.std.specs.Prelude.{◌≡◌, ◌<◌, ◌≤◌, ◌++◌, ◌∷◌, [], IfOk, OnErr, vec_len, vec_capacity};
ghost use Rattle.cycle.specs.Replays.{IsBook, KeepsPromises, Ran};

use crate::book::Book;
use model::{Actor, Reply, Step};
use std::alloc::{AllocError, Global};

/// Does each step in turn, and returns the reply to each, in order.
///
/// Allocates the list of the replies first: if it fails, the recorded heap is as it was. A step that runs out of
/// memory has `Memory` as its reply, and the others go on.
pub fn run(
    alloc: Global,
    book: &mut Book,
    steps: Vec<(Actor, Step)>,
) -> Result<Vec<Reply>, AllocError>
    ensures ran { IfOk result (λ replies. Ran book.old steps.items replies.items book.new) }
    ensures err { OnErr result (book.new ≡ book.old) }
    ensures book { IsBook book.new }
    ensures promises { KeepsPromises book.new }
{
    let replies = act_each(alloc, book, steps);
    book.law();
    replies
}

/// Does what `run` does.
fn act_each(
    alloc: Global,
    book: &mut Book,
    steps: Vec<(Actor, Step)>,
) -> Result<Vec<Reply>, AllocError>
    ensures ran { IfOk result (λ replies. Ran book.old steps.items replies.items book.new) }
    ensures err { OnErr result (book.new ≡ book.old) }
{
    let mut replies = Vec::with_capacity(alloc, steps.len())?;
    'steps: for (actor, step) in steps {
        let reply = book.act(actor, step);
        add(&mut replies, reply);
    }
    Ok(replies)
}

/// Adds a reply for which there is space.
pub(crate) fn add(replies: &mut Vec<Reply>, reply: Reply)
    requires { vec_len replies.old < vec_capacity replies.old }
    ensures added { replies.new.items ≡ replies.old.items ++ reply ∷ [] }
    ensures room { vec_capacity replies.old ≤ vec_capacity replies.new }
{
    replies.push_reserved(reply);
}
