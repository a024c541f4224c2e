//! Tokens, and the calls on them.

ghost use Rattle.std.specs.Prelude.{◌≡◌, ◌+◌, [], IfOk};
ghost use Rattle.crossbeam_utils.specs.Seq.{cell_view};
ghost use Rattle.tokens.specs.Rows.{ChangesOnly, row_of};
ghost use Rattle.tokens.specs.Tokens.{holder_of, keeper_of, token_of};

use crate::cells::{Begins, Cell, CellName, Deals, Finds, Knower, Lays, Telling, Tells};
use std::alloc::{AllocError, Global};
use std::marker::{Model, PhantomData};
use std::sync::Wait;

/// A cell that has no name yet, with its first pass.
#[derive(Drop)]
pub struct BlankCell {
    cell: Cell,
    pass: Knower,
}

impl Model for BlankCell {
    ghost use Rattle.std.specs.Prelude.{◌≡◌, []};
    ghost use Rattle.atomic_table.specs.Seated.{TableId};
    ghost use Rattle.crossbeam_utils.specs.Seq.{cell_view};
    ghost use Rattle.tokens.specs.Tokens.{keeper_of};

    ghost Value = { TableId };

    ghost view = { λ b. b.cell.table.shared.table_id };

    ghost invariant = { λ b. (b.pass.table_id ≡ b.cell.table.shared.table_id) × (cell_view b.pass ≡ keeper_of [] 0) };
}

impl BlankCell {
    /// Makes a cell. Fails only if out of memory.
    pub fn new(alloc: Global) -> Result<BlankCell, AllocError> {
        let (cell, pass) = Cell::ruled(alloc, [0])?;
        Ok(BlankCell { cell, pass })
    }
}

/// Sets the registers of a keeper that has none, before any thread has a token.
fn begin<B: Telling, R: Wait>(rt: &R, cell: &Cell, keeper: &mut Knower)
    requires cell { keeper.old.table_id ≡ cell.now.table.shared.table_id }
    requires keeps { cell_view keeper.old ≡ keeper_of [] 0 }
    ensures same { keeper.new.table_id ≡ keeper.old.table_id }
    ensures begun { cell_view keeper.new ≡ keeper_of B.rows 0 }
{
    cell.swap_as::<Begins<B>, R>(rt, keeper, [0]);
}

/// Joins the pass of a thread's token to the keeper's.
fn join(cell: &Cell, keeper: &mut Knower, token: Knower)
    requires cell { keeper.old.table_id ≡ cell.now.table.shared.table_id }
    requires token { (token.table_id ≡ keeper.old.table_id) × (token.me.1 ≡ []) }
    requires keeps { cell_view keeper.old ≡ keeper_of (cell_view keeper.old).rows (cell_view keeper.old).dealt }
    requires claims { cell_view token ≡ token_of (cell_view token).thread (cell_view token).registers }
    ensures same { keeper.new.table_id ≡ keeper.old.table_id }
    ensures both { cell_view keeper.new ≡ holder_of (cell_view keeper.old).rows (cell_view keeper.old).dealt
        (cell_view token).thread (cell_view token).registers }
{
    cell.join_pass::<Lays>(keeper, token);
}

/// Splits the pass of a thread's token from the keeper's.
fn split(cell: &Cell, keeper: &mut Knower) -> Knower
    requires cell { keeper.old.table_id ≡ cell.now.table.shared.table_id }
    requires both { cell_view keeper.old ≡ holder_of (cell_view keeper.old).rows (cell_view keeper.old).dealt
        (cell_view keeper.old).thread (cell_view keeper.old).registers }
    ensures same { keeper.new.table_id ≡ keeper.old.table_id }
    ensures token { (result.table_id ≡ keeper.old.table_id) × (result.me.1 ≡ []) }
    ensures keeps { cell_view keeper.new ≡ keeper_of (cell_view keeper.old).rows (cell_view keeper.old).dealt }
    ensures claims { cell_view result ≡ token_of (cell_view keeper.old).thread (cell_view keeper.old).registers }
{
    cell.split_pass::<Lays>(keeper)
}

/// Proves that the keeper has the registers of a thread's token for that thread.
fn compare<R: Wait>(rt: &R, cell: &Cell, keeper: &mut Knower)
    requires cell { keeper.old.table_id ≡ cell.now.table.shared.table_id }
    requires both { cell_view keeper.old ≡ holder_of (cell_view keeper.old).rows (cell_view keeper.old).dealt
        (cell_view keeper.old).thread (cell_view keeper.old).registers }
    ensures same { keeper.new.table_id ≡ keeper.old.table_id }
    ensures stays { cell_view keeper.new ≡ cell_view keeper.old }
    ensures found { row_of (cell_view keeper.old).rows (cell_view keeper.old).thread
        ≡ (cell_view keeper.old).registers }
{
    cell.load_as::<Finds, R>(rt, keeper);
}

/// Sets the registers of the keeper and of a thread's token; only those of this thread may have changed.
fn set<B: Telling, R: Wait>(rt: &R, cell: &Cell, keeper: &mut Knower)
    requires cell { keeper.old.table_id ≡ cell.now.table.shared.table_id }
    requires both { cell_view keeper.old ≡ holder_of (cell_view keeper.old).rows (cell_view keeper.old).dealt
        (cell_view keeper.old).thread (cell_view keeper.old).registers }
    requires change { ChangesOnly (cell_view keeper.old).thread (cell_view keeper.old).rows B.rows }
    ensures same { keeper.new.table_id ≡ keeper.old.table_id }
    ensures told { cell_view keeper.new ≡ holder_of B.rows (cell_view keeper.old).dealt (cell_view keeper.old).thread
        (row_of B.rows (cell_view keeper.old).thread) }
{
    cell.swap_as::<Tells<B>, R>(rt, keeper, [0]);
}

/// The token with the registers of all threads.
#[derive(Drop)]
pub struct KeeperToken<N: CellName> {
    cell: Cell,
    pass: Knower,
    name: PhantomData<N>,
}

impl<N: CellName> Model for KeeperToken<N> {
    ghost use Rattle.std.specs.Prelude.{◌≡◌};
    ghost use Rattle.crossbeam_utils.specs.Seq.{cell_view};
    ghost use Rattle.tokens.specs.Rows.{KeeperState};
    ghost use Rattle.tokens.specs.Tokens.{keeper_of};

    ghost Value = { KeeperState };

    ghost view = { λ k. record { rows = (cell_view k.pass).rows; dealt = (cell_view k.pass).dealt } };

    ghost invariant = { λ k. (k.cell.table.shared.table_id ≡ N.table) × (k.pass.table_id ≡ N.table)
        × (cell_view k.pass ≡ keeper_of (cell_view k.pass).rows (cell_view k.pass).dealt) };
}

/// The token of a thread, with its registers.
#[derive(Drop)]
pub struct ThreadToken<N: CellName> {
    pass: Knower,
    name: PhantomData<N>,
}

impl<N: CellName> Model for ThreadToken<N> {
    ghost use Rattle.std.specs.Prelude.{◌≡◌, []};
    ghost use Rattle.crossbeam_utils.specs.Seq.{cell_view};
    ghost use Rattle.tokens.specs.Rows.{TokenState};
    ghost use Rattle.tokens.specs.Tokens.{token_of};

    ghost Value = { TokenState };

    ghost view = { λ t. record { thread = (cell_view t.pass).thread; registers = (cell_view t.pass).registers } };

    ghost invariant = { λ t. (t.pass.table_id ≡ N.table) × (t.pass.me.1 ≡ [])
        × (cell_view t.pass ≡ token_of (cell_view t.pass).thread (cell_view t.pass).registers) };
}

impl<N: CellName> KeeperToken<N> {
    /// Returns the keeper's token of a cell, with the registers `B::rows` of all threads. `shown` is the value from
    /// which they are read; only the proof that instantiates `B` needs it.
    pub fn begin<B: Telling, S, R: Wait>(rt: &R, blank: BlankCell, shown: &S) -> KeeperToken<N>
        requires { blank ≡ N.table }
        ensures { result ≡ record { rows = B.rows; dealt = 0 } }
    {
        let _ = shown;
        let BlankCell { cell, mut pass } = blank;
        begin::<B, R>(rt, &cell, &mut pass);
        KeeperToken {
            cell,
            pass,
            name: PhantomData,
        }
    }

    /// Returns the token of the next thread, from thread 0 on.
    pub fn deal(&mut self) -> ThreadToken<N>
        ensures token { result ≡ record { thread = self.old.dealt; registers = row_of self.old.rows self.old.dealt } }
        ensures keeper { self.new ≡ record { rows = self.old.rows; dealt = self.old.dealt + 1 } }
    {
        let pass = self.cell.split_pass::<Deals>(&mut self.pass);
        ThreadToken {
            pass,
            name: PhantomData,
        }
    }

    /// Proves that the registers in a thread's token are those that the keeper has for the thread. Returns the token.
    pub fn find<R: Wait>(&mut self, rt: &R, token: ThreadToken<N>) -> ThreadToken<N>
        ensures same { (result ≡ token) × (self.new ≡ self.old) }
        ensures found { row_of self.old.rows token.thread ≡ token.registers }
    {
        join(&self.cell, &mut self.pass, token.pass);
        compare(rt, &self.cell, &mut self.pass);
        let pass = split(&self.cell, &mut self.pass);
        ThreadToken {
            pass,
            name: PhantomData,
        }
    }

    /// Sets the registers in the tokens to `B::rows`, those of all threads after a change, in which only the thread
    /// of `token` may have other ones. `shown` is the value from which they are read; only the proof that
    /// instantiates `B` needs it.
    pub fn tell<B: Telling, S, R: Wait>(
        &mut self,
        rt: &R,
        token: ThreadToken<N>,
        shown: &S,
    ) -> ThreadToken<N>
        requires { ChangesOnly token.thread self.old.rows B.rows }
        ensures token { result ≡ record { thread = token.thread; registers = row_of B.rows token.thread } }
        ensures keeper { self.new ≡ record { rows = B.rows; dealt = self.old.dealt } }
    {
        let _ = shown;
        join(&self.cell, &mut self.pass, token.pass);
        set::<B, R>(rt, &self.cell, &mut self.pass);
        let pass = split(&self.cell, &mut self.pass);
        ThreadToken {
            pass,
            name: PhantomData,
        }
    }
}
