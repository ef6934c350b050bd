ghost use Rattle.std.specs.Prelude.{◌≡◌, ◌==◌, [], ◌∷◌, OnOk, IfSome, IfNone, length};
ghost use Rattle.prefix_trees.specs.Trees.{one_less, opens_after, still_open};

use std::alloc::Global;
use std::marker::Model;
use wide_sums::Memory;

/// How many branches of each open node are to come, seen as a list with the innermost first.
#[derive(Drop)]
pub struct Opens {
    counts: Vec<u32>,
}

impl Model for Opens {
    ghost use Rattle.std.specs.Prelude.{ℕ, List, reverse};

    ghost Value = { List ℕ };

    ghost view = { λ o. reverse o.counts.items };
}

impl Opens {
    /// No open nodes.
    pub fn new(alloc: Global) -> Opens
        ensures { result ≡ [] }
    {
        Opens {
            counts: Vec::new(alloc),
        }
    }

    /// The number of open nodes.
    pub fn count(&self) -> usize
        ensures { result ≡ length self.now }
    {
        self.counts.len()
    }

    /// Whether no node is open.
    pub fn is_empty(&self) -> bool
        ensures { result ≡ (length self.now == 0) }
    {
        self.counts.is_empty()
    }

    /// The open nodes after a node with this many branches.
    pub fn enter(&mut self, branches: u32) -> Result<(), Memory>
        ensures { OnOk result (self.new ≡ opens_after branches self.old) }
    {
        self.take_branch()?;
        self.push(branches)?;
        self.close()?;
        Ok(())
    }

    fn push(&mut self, count: u32) -> Result<(), Memory>
        ensures { OnOk result (self.new ≡ count ∷ self.old) }
    {
        self.counts.push(count)?;
        Ok(())
    }

    fn pop(&mut self) -> Option<u32>
        ensures some { IfSome result (λ count. self.old ≡ count ∷ self.new) }
        ensures none { IfNone result ((self.old ≡ []) × (self.new ≡ [])) }
    {
        self.counts.pop()
    }

    /// One branch fewer of the innermost node.
    fn take_branch(&mut self) -> Result<(), Memory>
        ensures { OnOk result (self.new ≡ one_less self.old) }
    {
        match self.pop() {
            Some(count) => self.push(count.saturating_sub(1)),
            None => Ok(()),
        }
    }

    /// Closes the innermost nodes without a branch to come.
    fn close(&mut self) -> Result<(), Memory>
        ensures { OnOk result (self.new ≡ still_open self.old) }
    {
        while let Some(count) = self.pop() {
            if count > 0 {
                return self.push(count);
            }
        }
        Ok(())
    }
}
