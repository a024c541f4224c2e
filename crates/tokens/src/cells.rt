//! The cell that relates tokens to one another.

use atomic_table::{Join, Split};
use crossbeam_utils::atomic::seq_cell::{Pass, RuledSeqCell};
use crossbeam_utils::rule::{Outcome, Protocol};
use std::collections::LinkedList;
use std::marker::{Brand, PhantomData};

/// The name of a cell: tokens of one name are of one cell.
pub trait CellName {
    ghost use Rattle.atomic_table.specs.Seated.{TableId};

    ghost table: { TableId };
}

impl CellName for Brand {
    ghost use Rattle.tokens.specs.Tokens.{no_table};

    ghost table = { no_table };
}

/// The registers of all threads, as the argument of a call.
pub trait Telling {
    ghost use Rattle.tokens.specs.Rows.{Rows};

    ghost rows: { Rows };
}

impl Telling for Brand {
    ghost use Rattle.std.specs.Prelude.{[]};

    ghost rows = { [] };
}

/// The ghost value of a pass: the keeper's has the registers of all threads, and a thread's those of the thread. It
/// is never constructed at run time.
pub struct View {
    /// Whether it is the keeper's.
    pub keeps: bool,
    /// The registers of each thread, for a keeper.
    pub rows: LinkedList<LinkedList<Option<u64>>>,
    /// How many threads have a token from the keeper.
    pub dealt: u64,
    /// Whether it is a thread's.
    pub claims: bool,
    /// The number of its thread, from 0.
    pub thread: u64,
    /// The registers of its thread.
    pub registers: LinkedList<Option<u64>>,
}

/// The invariant of the cell: the registers in a thread's pass are those that the keeper's pass has for the thread.
pub struct Knowing;

impl Protocol<[u64; 1], View> for Knowing {
    ghost use Rattle.std.specs.Prelude.{[]};
    ghost use Rattle.tokens.specs.Tokens.{keeper_of, Kept};

    ghost holds = { Kept };

    ghost first = { keeper_of [] 0 };
}

pub struct Begins<B>(PhantomData<B>);

impl<B: Telling> Outcome<[u64; 1], View> for Begins<B> {
    ghost use Rattle.tokens.specs.Tokens.{Begun};

    ghost then = { Begun B.rows };
}

pub struct Tells<B>(PhantomData<B>);

impl<B: Telling> Outcome<[u64; 1], View> for Tells<B> {
    ghost use Rattle.tokens.specs.Tokens.{Told};

    ghost then = { Told B.rows };
}

pub struct Finds;

impl Outcome<[u64; 1], View> for Finds {
    ghost use Rattle.tokens.specs.Tokens.{Found};

    ghost then = { Found };
}

/// Splits a new thread's token off the keeper's.
pub struct Deals;

impl Split<View> for Deals {
    ghost use Rattle.std.specs.Prelude.{◌+◌};
    ghost use Rattle.tokens.specs.Rows.{row_of};
    ghost use Rattle.tokens.specs.Tokens.{keeper_of, token_of};

    ghost left = { λ v. keeper_of v.rows (v.dealt + 1) };

    ghost right = { λ v. token_of v.dealt (row_of v.rows v.dealt) };
}

/// Joins a thread's token with the keeper's, and splits it off again.
pub struct Lays;

impl Split<View> for Lays {
    ghost use Rattle.tokens.specs.Tokens.{keeper_of, token_of};

    ghost left = { λ v. keeper_of v.rows v.dealt };

    ghost right = { λ v. token_of v.thread v.registers };
}

impl Join<View> for Lays {
    ghost use Rattle.tokens.specs.Tokens.{holder_of, nobody};

    ghost both = { λ v w. holder_of v.rows v.dealt w.thread w.registers };

    ghost spent = { nobody };
}

pub type Cell = RuledSeqCell<[u64; 1], View, Knowing, 1>;

pub type Knower = Pass<[u64; 1], View>;
