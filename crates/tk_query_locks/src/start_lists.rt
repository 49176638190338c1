//! Lists of starts of executions.
ghost use Rattle.std.specs.Prelude.{◌≡◌, ℕ, ◌<◌, [], get_or, length, IfOk, OnOk};
ghost use Rattle.std.specs.List.{Contains};

use std::alloc::{AllocError, Global};
use std::marker::Model;

/// The end of the execution that starts at a position, or 0.
pub(crate) fn end_at(ends: &[usize], start: usize) -> usize
    ensures { result ≡ get_or ends.now start 0 }
{
    ends.get(start).copied().unwrap_or(0)
}

/// The positions of starts.
#[derive(Drop)]
struct Starts {
    positions: Vec<usize>,
    // How many there may be before those of ended executions are forgotten.
    limit: usize,
}

impl Model for Starts {
    ghost use Rattle.std.specs.Prelude.{List, ℕ};

    ghost Value = { List ℕ };

    ghost view = { λ s. s.positions.items };
}

impl Starts {
    fn new(alloc: Global) -> Starts
        ensures { result ≡ [] }
    {
        Starts {
            positions: Vec::new(alloc),
            limit: 0,
        }
    }

    fn as_slice(&self) -> &[usize]
        ensures { result.now ≡ self.now }
    {
        self.positions.as_slice()
    }

    /// Adds a start. Those of executions that end up to it are forgotten whenever twice as many
    /// stand here as were left the last time.
    fn push(&mut self, start: usize, ends: &[usize]) -> Result<(), AllocError>
        ensures kept { OnOk result ((p : ℕ) → start < get_or ends.now p 0 →
            Contains self.old p → Contains self.new p) }
        ensures added { OnOk result (Contains self.new start) }
    {
        if self.limit <= self.positions.len() {
            self.forget(ends, start);
            let left = self.positions.len();
            self.limit = left.saturating_add(left).saturating_add(1);
        }
        self.positions.push(start)?;
        Ok(())
    }

    /// Forgets the starts of executions that end up to a position.
    fn forget(&mut self, ends: &[usize], position: usize)
        ensures { (p : ℕ) → position < get_or ends.now p 0 →
            Contains self.old p → Contains self.new p }
    {
        self.positions
            .retain(|start| position < end_at(ends, *start));
    }
}

/// Lists of starts, each under a number.
#[derive(Drop)]
pub(crate) struct StartLists {
    lists: Vec<Starts>,
}

impl Model for StartLists {
    ghost use Rattle.std.specs.Prelude.{List, ℕ};

    ghost Value = { List (List ℕ) };

    ghost view = { λ s. s.lists.items };
}

impl StartLists {
    /// Makes `count` lists without a start.
    pub(crate) fn new(alloc: Global, count: usize) -> Result<StartLists, AllocError>
        ensures { IfOk result (λ lists. length lists ≡ count) }
    {
        let mut lists = Vec::new(alloc);
        for number in 0..count {
            lists.push(Starts::new(alloc))?;
        }
        Ok(StartLists { lists })
    }

    /// The starts under a number.
    pub(crate) fn starts(&self, number: usize) -> &[usize]
        requires { number < length self.now }
        ensures { result.now ≡ get_or self.now number [] }
    {
        self.lists[number].as_slice()
    }

    /// Adds a start under a number.
    pub(crate) fn push(
        &mut self,
        number: usize,
        start: usize,
        ends: &[usize],
    ) -> Result<(), AllocError>
        requires { number < length self.old }
        ensures kept { OnOk result ((n p : ℕ) → start < get_or ends.now p 0 →
            Contains (get_or self.old n []) p → Contains (get_or self.new n []) p) }
        ensures added { OnOk result (Contains (get_or self.new number []) start) }
        ensures size { length self.new ≡ length self.old }
    {
        self.lists[number].push(start, ends)?;
        Ok(())
    }

    /// Forgets the starts under a number of executions that end up to a position.
    pub(crate) fn forget(&mut self, number: usize, ends: &[usize], position: usize)
        requires { number < length self.old }
        ensures kept { (n p : ℕ) → position < get_or ends.now p 0 →
            Contains (get_or self.old n []) p → Contains (get_or self.new n []) p }
        ensures size { length self.new ≡ length self.old }
    {
        self.lists[number].forget(ends, position);
    }
}
