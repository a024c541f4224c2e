//! The choice of what a worker scans next.

use cycle::{Answer, Reply, Step};
use heap::Heap;
use hints::{HintSeat, Hints};
use marker::next_todo;
use model::{Place, Refusal, Scan};
use refword::{Addr, Word};
use sharing::Steps;

/// A worker that scans: it decides its next step by its own state, hints and the heap.
#[derive(Drop)]
pub(crate) struct Scanner {
    worker: u32,
    /// How many workers there are.
    workers: u32,
    /// Its seat of hints. A worker without hints finds objects by the heap alone.
    hints: Option<HintSeat>,
    /// The object that its last step scanned, and the number of the reference field.
    scanned: Option<Scan>,
}

/// Returns the object that a worker is scanning, and its next field.
fn scan_of(heap: &Heap, worker: u32) -> Option<Scan> {
    match heap.workers().get(worker as usize) {
        Some(scan) => *scan,
        None => None,
    }
}

/// Returns the object that a reference field refers to now.
fn named(heap: &Heap, scan: Scan) -> Option<Addr> {
    let place = Place::Field {
        object: scan.object,
        index: scan.next,
    };
    Word::read(heap.bits_at(place)?)?.addr()
}

/// Returns the step by which a worker picks an object.
fn pick(heap: &Heap, address: Addr) -> Step {
    Step::Pick {
        page: u32::try_from(heap.memory().page_of(address)).unwrap_or(u32::MAX),
        offset: heap.memory().offset_of(address),
    }
}

impl Scanner {
    /// Returns worker `worker` of `workers`, with its seat of hints.
    pub(crate) fn new(worker: u32, workers: u32, hints: Option<HintSeat>) -> Scanner {
        Scanner {
            worker,
            workers,
            hints,
            scanned: None,
        }
    }

    /// Takes a hint of its own, else one of another worker, tried by rising numbers.
    fn hint(&mut self) -> Option<Addr> {
        let workers = self.workers;
        let hints = self.hints.as_mut()?;
        if let Some(address) = Hints::pop(hints) {
            return Some(address);
        }
        for other in 0..workers {
            if let Some(address) = Hints::steal(hints, other) {
                return Some(address);
            }
        }
        None
    }

    /// Returns the number of the first grey global, for worker 0 only.
    fn global(&self, heap: &Heap) -> Option<u32> {
        if self.worker == 0 {
            u32::try_from(heap.first_todo_global()?).ok()
        } else {
            None
        }
    }

    /// Pushes a hint to the object that the last scanned field refers to. A hint for which there is no space is
    /// dropped, since `next_todo` still finds the object.
    fn push(&mut self, heap: &Heap) {
        let Some(scan) = self.scanned else {
            return;
        };
        if let (Some(hints), Some(address)) = (self.hints.as_mut(), named(heap, scan)) {
            let _ = Hints::push(hints, address);
        }
    }
}

impl Steps for Scanner {
    /// The worker scans the object that it has picked; else worker 0 marks the first grey global; else it picks the
    /// object of a hint, or if there is none, the one that `next_todo` finds.
    fn next(&mut self, heap: &Heap) -> Option<Step> {
        self.scanned = scan_of(heap, self.worker);
        if self.scanned.is_some() {
            return Some(Step::ScanField);
        }
        if let Some(global) = self.global(heap) {
            return Some(Step::ScanGlobal(global));
        }
        let address = match self.hint() {
            Some(address) => address,
            None => next_todo(heap)?,
        };
        Some(pick(heap, address))
    }

    /// After a scanned field it pushes a hint. The error that an object is already scanned, or that another worker
    /// has it, is passed over.
    fn note(&mut self, heap: &Heap, reply: Reply) -> bool {
        match reply {
            Ok(Answer::Scanned) => {
                self.push(heap);
                true
            }
            Ok(_) => true,
            Err(Refusal::NotTodo | Refusal::Taken) => true,
            Err(_) => false,
        }
    }
}
