ghost use Rattle.std.specs.Prelude.{◌≡◌};

use wide_sums::Row;

/// One of the two rows of an instance.
#[derive(Clone, Copy, Debug, PartialEq, Eq)]
pub enum Side {
    /// What firing takes away.
    Pre,
    /// What firing adds.
    Post,
}

/// Where an instance comes from: a transition, and the index of one of its bindings.
#[derive(Clone, Copy, Debug, PartialEq, Eq, PartialOrd, Ord)]
pub struct Origin {
    /// The number of the transition.
    pub transition: u32,
    /// The binding index.
    pub binding: u32,
}

/// A transition instance, with the counts that it takes and adds.
#[derive(Debug, Drop)]
pub struct Instance {
    /// The number of its transition.
    pub transition: u32,
    /// Its binding index.
    pub binding: u32,
    /// The counts that firing takes away.
    pub pre: Row,
    /// The counts that firing adds.
    pub post: Row,
}

impl Instance {
    ghost use Rattle.pt_net.specs.Instances.{origin_of, row_of};

    /// The transition and the binding of the instance.
    pub fn origin(&self) -> Origin
        ensures { result ≡ origin_of self.now }
    {
        Origin {
            transition: self.transition,
            binding: self.binding,
        }
    }

    /// The row of that side.
    pub fn row(&self, side: Side) -> &Row
        ensures { result.now ≡ row_of side self.now }
    {
        match side {
            Side::Pre => &self.pre,
            Side::Post => &self.post,
        }
    }
}
