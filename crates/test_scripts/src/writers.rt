//! Writers that fail in each mode: at some write, or when they are flushed. The program itself tests words, scripts
//! and files.

use crate::same::{done, same};
use cli::{AskFault, Asked, ask, serve};
use std::alloc::Global;
use std::io;
use std::io::{BufWriter, Write};
use std::process::Abort;
use std::sync::Wait;
use std::thread::Threads;

const SCRIPT: &str =
    "heap words 16 frames 1 pages 1 threads 1 workers 1 registers 2 globals 0\nlayout 0 2\nt0 take 4\nt0 datum r1 0\n";

const OUTPUT: &str =
    "1 t0 lent 1.0\n2 t0 refused Null\nphase idle nmt 0 births 0 frames 1/1\npage 1 open frame 0 top 4 objects 0 live 0\nthread 0 running buffer 1.0-4 r0 - r1 -\nbarrier 0 loads 0 gc 0 nmt 0 healed 0 changed 0\n";

/// The output of `check`: the same, and that the heap was verified twice.
const CHECKED: &str =
    "1 t0 lent 1.0\n2 t0 refused Null\nphase idle nmt 0 births 0 frames 1/1\npage 1 open frame 0 top 4 objects 0 live 0\nthread 0 running buffer 1.0-4 r0 - r1 -\nbarrier 0 loads 0 gc 0 nmt 0 healed 0 changed 0\nverified 2\n";

/// Returns what the words of a line request.
fn words_asked(alloc: Global, line: &str) -> Result<Asked, AskFault> {
    let mut words = Vec::new(alloc);
    for word in line.split_whitespace() {
        words.push(String::from_str(alloc, word)?)?;
    }
    ask(alloc, &words)
}

/// The words, the output for them, and the number of writes with a buffer of 8 bytes.
#[derive(Clone, Copy)]
struct Script<'a> {
    words: &'a str,
    output: &'a str,
    writes: u32,
}

/// Six lines, each longer than the buffer.
const RUN: Script<'static> = Script {
    words: "run a.script",
    output: OUTPUT,
    writes: 6,
};

/// One line more.
const CHECK: Script<'static> = Script {
    words: "check a.script",
    output: CHECKED,
    writes: 7,
};

/// The first line is written in pieces: `thread 0`, ` births `, `0 data 0` and the line's end; the second at once.
const THREADS: Script<'static> = Script {
    words: "threads a.script",
    output: "thread 0 births 0 data 0\nsettled\n",
    writes: 5,
};

/// A writer that accepts `left` writes of up to `most` bytes each, and fails at the next. Flushing fails too, unless
/// `is_flushed`.
#[derive(Drop)]
struct Failing {
    left: u32,
    most: usize,
    is_flushed: bool,
    failures: u32,
    taken: Vec<u8>,
}

impl Write for Failing {
    fn write(&mut self, buf: &[u8]) -> io::Result<usize> {
        if self.left == 0 {
            self.failures = self.failures.wrapping_add(1);
            return Err(io::Error::from(io::ErrorKind::BrokenPipe));
        }
        self.left -= 1;
        let taken = buf.get(..self.most).unwrap_or(buf);
        self.taken.extend_from_slice(taken)?;
        Ok(taken.len())
    }

    fn flush(&mut self) -> io::Result<()> {
        if self.is_flushed {
            Ok(())
        } else {
            Err(io::Error::from(io::ErrorKind::StorageFull))
        }
    }
}

/// Returns a writer that accepts `left` writes of up to `most` bytes each, and can be flushed.
fn made_to_fail(alloc: Global, left: u32, most: usize) -> Failing {
    Failing {
        left,
        most,
        is_flushed: true,
        failures: 0,
        taken: Vec::new(alloc),
    }
}

/// Runs the script with such a writer and a buffer of `capacity` bytes. Returns the status, the writer, and the
/// errors.
fn served_by(
    rt: &(impl Abort + Threads + Wait + Sync),
    alloc: Global,
    words: &str,
    capacity: usize,
    writer: Failing,
) -> (u8, Failing, Vec<u8>) {
    let asked = done(rt, words_asked(alloc, words));
    let mut reader = SCRIPT.as_bytes();
    let mut output = done(rt, BufWriter::with_capacity(alloc, capacity, writer));
    let mut errors = Vec::new(alloc);
    let status = serve(rt, alloc, &asked, &mut reader, &mut output, &mut errors);
    let (writer, _) = output.into_parts();
    (status, writer, errors)
}

/// With a buffer of `capacity` bytes a writer that can't accept all causes status 3 and its error, gets a prefix of
/// the output, and isn't called again; another one gets all.
fn is_told(
    rt: &(impl Abort + Threads + Wait + Sync),
    alloc: Global,
    what: Script<'_>,
    capacity: usize,
    writer: Failing,
    is_enough: bool,
) {
    let (status, writer, errors) = served_by(rt, alloc, what.words, capacity, writer);
    let (wanted, fault) = if is_enough {
        (0, "")
    } else {
        (3, "pauseless: cannot write\n")
    };
    same(rt, status, wanted);
    same(rt, writer.failures == 0, is_enough);
    same(rt, writer.failures < 2, true);
    same(rt, writer.taken.len() == what.output.len(), is_enough);
    same(rt, what.output.as_bytes().starts_with(&writer.taken), true);
    same(rt, errors.as_slice(), fault.as_bytes());
}

/// With a buffer of `capacity` bytes and up to `most` bytes for each write, this many writes are needed, and the
/// failure of each is reported.
fn are_needed(
    rt: &(impl Abort + Threads + Wait + Sync),
    alloc: Global,
    what: Script<'_>,
    capacity: usize,
    most: usize,
    writes: u32,
) {
    for left in 0..writes.wrapping_add(2) {
        let writer = made_to_fail(alloc, left, most);
        is_told(rt, alloc, what, capacity, writer, left >= writes);
    }
}

/// The output is written line by line or in pieces with a small buffer, and at once with a large one.
#[test]
fn each_write_fails(rt: HostRuntime) {
    for what in [RUN, CHECK, THREADS] {
        are_needed(&rt, rt.alloc(), what, 8, usize::MAX, what.writes);
        are_needed(&rt, rt.alloc(), what, 8192, usize::MAX, 1);
    }
}

/// A writer that accepts a byte at a time gets all bytes, or those before its failure.
#[test]
fn each_short_write_fails(rt: HostRuntime) {
    for what in [RUN, CHECK, THREADS] {
        let writes = what.output.len() as u32;
        are_needed(&rt, rt.alloc(), what, 8, 1, writes);
        are_needed(&rt, rt.alloc(), what, 8192, 1, writes);
    }
}

/// The failure of a writer that can't be flushed is reported, with a buffer of `capacity` bytes.
fn flush_is_told(
    rt: &(impl Abort + Threads + Wait + Sync),
    alloc: Global,
    what: Script<'_>,
    capacity: usize,
) {
    let mut writer = made_to_fail(alloc, 8, usize::MAX);
    writer.is_flushed = false;
    let (status, writer, errors) = served_by(rt, alloc, what.words, capacity, writer);
    same(rt, status, 3);
    same(rt, writer.taken.as_slice(), what.output.as_bytes());
    same(
        rt,
        errors.as_slice(),
        b"pauseless: cannot write\n".as_slice(),
    );
}

#[test]
fn a_flush_fails(rt: HostRuntime) {
    for what in [RUN, CHECK, THREADS] {
        flush_is_told(&rt, rt.alloc(), what, 8);
        flush_is_told(&rt, rt.alloc(), what, 8192);
    }
}
