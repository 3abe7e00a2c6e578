// A context that may have been taken.

ghost use Rattle.std.specs.Prelude.{◌≡◌, true, false, not};
ghost use Rattle.rt_base.specs.Cells.{is_there};
ghost use Rattle.rt_base.specs.declared.cell.Cell.TheVariants.{Present, Missing};

use std::mem;

/// A context, or the place that it was taken from.
#[derive(Debug)]
pub enum Cell<C> {
    /// The context is here.
    Present(C),
    /// It was taken.
    Missing,
}

impl<C> Cell<C> {
    ghost use Rattle.std.specs.Borrow.{Lends, sem};
    ghost use Rattle.rt_base.specs.contracts.cell.Cell.{the_row};

    /// Makes a cell with its context.
    pub fn new(context: C) -> Cell<C>
        ensures { result ≡ Present context }
    {
        Cell::Present(context)
    }

    /// Returns whether the context is here.
    pub fn is_present(&self) -> bool
        ensures { result ≡ is_there self.now }
    {
        matches!(self, Cell::Present(_))
    }

    /// Returns whether the context was taken.
    pub fn is_missing(&self) -> bool
        ensures { result ≡ not (is_there self.now) }
    {
        !self.is_present()
    }

    /// Takes the context out, which must be here, and leaves the cell without one.
    pub fn take(&mut self) -> C
        requires { is_there self.old ≡ true }
        ensures context { self.old ≡ Present result }
        ensures left { self.new ≡ Missing }
    {
        mem::replace(self, Cell::Missing).into_present()
    }

    /// Returns the context, borrowed; it must be here.
    pub fn as_present(&self) -> &C
        requires { is_there self.now ≡ true }
        ensures { self.now ≡ Present result.now }
    {
        match self {
            Cell::Present(context) => context,
            Cell::Missing => unreachable!(),
        }
    }

    /// Returns the context, borrowed to be changed; it must be here. What is changed is changed in the cell.
    pub fn as_present_mut(&mut self) -> &mut C
        requires { is_there self.old ≡ true }
        ensures* writes_back { sem 𝓛 (Lends (the_row C.row) C.row self.entry result Present) }
        ensures value { self.old ≡ Present result.now }
    {
        match self {
            Cell::Present(context) => context,
            Cell::Missing => unreachable!(),
        }
    }

    /// Spends the cell and returns the context, which must be here.
    pub fn into_present(self) -> C
        requires { is_there self ≡ true }
        ensures { self ≡ Present result }
    {
        match self {
            Cell::Present(context) => context,
            Cell::Missing => unreachable!(),
        }
    }

    /// Puts a context into a cell whose own was taken.
    pub fn restore(&mut self, context: C)
        requires { is_there self.old ≡ false }
        ensures { self.new ≡ Present context }
    {
        match mem::replace(self, Cell::Present(context)) {
            Cell::Missing => {}
            Cell::Present(_left) => unreachable!(),
        }
    }
}

/// Takes the context of a cell that has one, leaves the cell without it, and spawns on that context: the maker has a
/// fresh cell with the new task's own context under the name that is given, as in `spawn_cell!(self.cell, rt, |cell| ..)`.
/// It returns what the context's `spawn` returns.
#[macro_export]
macro_rules! spawn_cell {
    ($cell:expr, $world:expr, |$fresh:ident| $body:expr) => {{
        let context = $cell.take();
        context.spawn($world, |context| {
            let $fresh = $crate::Cell::new(context);
            $body
        })
    }};
}
