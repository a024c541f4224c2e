//! The lines of a run by threads.

ghost use Rattle.std.specs.Prelude.{OnOk};
ghost use Rattle.std.specs.Io.KnownBytes.{Appends};
ghost use Rattle.script_threads.specs.Settled.{seat_text, seats_text, settled_text, stray_text};

use crate::sums::{SumsLine, add_up};
use model::Actor;
use reporting::ActorText;
use sharing::{Seat, Settled};
use std::io;

/// Writes the line of a stray actor, as `stray t0`. Fails only if the writer fails.
pub fn tell_stray<W: io::Write>(actor: Actor, w: &mut W) -> io::Result<()>
    ensures { OnOk result (Appends (W.contents w.old) (W.contents w.new) (stray_text actor)) }
{
    writeln!(w, "stray {}", ActorText(actor))
}

/// Writes the line of a seat of a thread; nothing for a worker's.
#[tactic(auto, using(reporting::proofs::Telling::appends_nothing))]
fn tell_seat<W: io::Write>(seat: &Seat, w: &mut W) -> io::Result<()>
    ensures { OnOk result (Appends (W.contents w.old) (W.contents w.new) (seat_text seat.now)) }
{
    match seat.actor() {
        Actor::Thread(thread) => {
            let sums = add_up(seat.list());
            writeln!(w, "{}", SumsLine { thread, sums })
        }
        Actor::Worker(_) => Ok(()),
    }
}

/// Writes the lines of seats, in order.
fn tell_seats<W: io::Write>(seats: &[Seat], w: &mut W) -> io::Result<()>
    ensures { OnOk result (Appends (W.contents w.old) (W.contents w.new) (seats_text seats.now)) }
{
    for seat in seats {
        tell_seat(seat, w)?;
    }
    Ok(())
}

/// Writes a line for each thread's seat, in the order of the seats, with how many objects were allocated in its list
/// and the sum of the data that were read there, and then the line of settled seats. Fails only if the writer fails.
pub fn tell_threads<W: io::Write>(settled: &Settled, w: &mut W) -> io::Result<()>
    ensures { OnOk result (Appends (W.contents w.old) (W.contents w.new) (settled_text settled.now.seats.items)) }
{
    tell_seats(settled.seats.as_slice(), w)?;
    writeln!(w, "settled")
}
