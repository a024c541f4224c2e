//! Sums over the list of a thread's steps.

ghost use Rattle.std.specs.Prelude.{◌≡◌, ◌<◌, ◌≤◌, length, slice_get, IfSome};
ghost use Rattle.script_threads.specs.Settled.{birth_of, births_in, data_in, datum_of};

use entries::History;
use model::Answer;
use std::fmt;

/// Sums over the list of a thread.
#[derive(Clone, Copy, Debug, PartialEq, Eq)]
pub struct Sums {
    /// How many objects it has allocated.
    pub births: u64,
    /// The sum of all data that it has read.
    pub total: u128,
}

/// Returns the answer of an entry, by its number from 0, which must exist.
fn answer_at(list: &History, index: usize) -> Answer
    requires { index < length list.now.entries }
    ensures { IfSome (slice_get list.now.entries index) (λ e. result ≡ e.answer) }
{
    match list.get(index) {
        Some(found) => found.entry().answer,
        None => unreachable!(),
    }
}

/// Returns 1 for a birth, else 0.
fn birth_of(answer: Answer) -> u64
    ensures value { result ≡ birth_of answer }
    ensures bound { result ≤ 1 }
{
    match answer {
        Answer::Birth(_) => 1,
        _ => 0,
    }
}

/// Returns the datum that was read, or 0.
fn datum_of(answer: Answer) -> u64
    ensures { result ≡ datum_of answer }
{
    match answer {
        Answer::Datum(value) => value,
        _ => 0,
    }
}

/// Returns the sums over a list. They are exact, as neither can exceed its type.
pub fn add_up(list: &History) -> Sums
    ensures births { result.births ≡ births_in list.now.entries }
    ensures total { result.total ≡ data_in list.now.entries }
{
    let mut births = 0u64;
    let mut total = 0u128;
    for index in 0..list.len() {
        let answer = answer_at(list, index);
        births += birth_of(answer);
        total += u128::from(datum_of(answer));
    }
    Sums { births, total }
}

/// The line of a thread's sums, as `thread 0 births 100 data 100`.
#[derive(Clone, Copy, Debug, PartialEq, Eq)]
pub struct SumsLine {
    /// The thread's number, from 0.
    pub thread: u32,
    /// Its sums.
    pub sums: Sums,
}

impl fmt::Display for SumsLine {
    ghost use Rattle.std.specs.Prelude.{Some};
    ghost use Rattle.script_threads.specs.Settled.{sums_line};

    ghost output = { λ l. Some (sums_line l.thread l.sums.births l.sums.total) };

    fn fmt<W: fmt::Write>(&self, f: &mut fmt::Formatter<W>) -> fmt::Result {
        let (thread, sums) = (self.thread, self.sums);
        let (births, total) = (sums.births, sums.total);
        write!(f, "thread {thread} births {births} data {total}")
    }
}
