use colour_sorts::{ResolveFault, Rule};
use name_tables::Name;
use std::alloc::{AllocError, AllocFailed, Global};
use thiserror::Error;
use wide_sums::Memory;

/// What a net has too many of.
#[derive(Clone, Copy, Debug, PartialEq, Eq)]
pub enum LimitKind {
    /// Place instances: more than 2^20.
    Places,
    /// Candidate bindings of all transitions: more than 2^22.
    Bindings,
    /// Entries, the candidate bindings times the supports of the arcs: more than 2^26.
    Entries,
}

/// Why a net is refused.
#[derive(Debug, Drop, Error)]
pub enum NetFault {
    /// A declaration, a node or an arc breaks a rule.
    #[error("the net is ill-typed")]
    IllTyped {
        /// The id of the declaration, the node or the arc.
        id: Name,
        /// The first rule that it breaks.
        rule: Rule,
    },
    /// A marking or an arc has more than 2^63 - 1 elements.
    #[error("a marking or an arc has too many elements")]
    Weight {
        /// The id of the place or of the arc.
        id: Name,
    },
    /// The net is too large to be unfolded.
    #[error("the net is too large")]
    Limit {
        /// What there are too many of.
        kind: LimitKind,
    },
    /// More is subtracted in an initial marking than there is.
    #[error("an initial marking has no value")]
    Negative {
        /// The id of the place.
        id: Name,
    },
    /// Want of memory.
    #[error("there isn't enough memory")]
    Memory,
}

impl From<Memory> for NetFault {
    ghost use Rattle.std.specs.Prelude.{◌≡◌};
    ghost use Rattle.net_typing.specs.declared.faults.NetFault.TheVariants as fault;

    ghost from_gives = { λ want given. given ≡ fault.Memory };

    fn from(_want: Memory) -> NetFault {
        NetFault::Memory
    }
}

impl From<AllocError> for NetFault {
    ghost use Rattle.std.specs.Prelude.{◌≡◌};
    ghost use Rattle.net_typing.specs.declared.faults.NetFault.TheVariants as fault;

    ghost from_gives = { λ refused given. given ≡ fault.Memory };

    fn from(_refused: AllocError) -> NetFault {
        NetFault::Memory
    }
}

impl<T: Drop> From<AllocFailed<T>> for NetFault {
    ghost use Rattle.std.specs.Prelude.{◌≡◌};
    ghost use Rattle.net_typing.specs.declared.faults.NetFault.TheVariants as fault;

    ghost from_gives = { λ refused given. given ≡ fault.Memory };

    fn from(_refused: AllocFailed<T>) -> NetFault {
        NetFault::Memory
    }
}

impl NetFault {
    ghost use Rattle.std.specs.Prelude.{Some, true};
    ghost use Rattle.net_typing.specs.Rules.{IsRefusal, ill_typed, too_heavy};

    /// The refusal of what has this id and breaks this rule.
    fn ill_typed(alloc: Global, id: &Name, rule: Rule) -> NetFault
        ensures { IsRefusal (ill_typed id.now (Some rule)) result }
    {
        match id.copy(alloc) {
            Ok(id) => NetFault::IllTyped { id, rule },
            Err(_) => NetFault::Memory,
        }
    }

    /// The refusal of what has this id and too many elements.
    pub fn too_heavy(alloc: Global, id: &Name) -> NetFault
        ensures { IsRefusal (too_heavy id.now true) result }
    {
        match id.copy(alloc) {
            Ok(id) => NetFault::Weight { id },
            Err(_) => NetFault::Memory,
        }
    }
}

/// Why a place, a transition or an arc is refused, without its id.
#[derive(Clone, Copy, Debug, PartialEq, Eq)]
pub enum Unfit {
    /// The first rule that it breaks.
    Broken(Rule),
    /// It has too many elements.
    Heavy,
    /// Want of memory.
    Memory,
}

impl Unfit {
    ghost use Rattle.std.specs.Prelude.{◌≡◌};
    ghost use Rattle.net_typing.specs.Rules.{IsRefusal, IsUnfit, Refusal, unfit_sort};

    /// Why what has a sort is refused whose sort is.
    pub fn of_sort(fault: ResolveFault) -> Unfit
        ensures { result ≡ unfit_sort fault }
    {
        match fault {
            ResolveFault::Bad { rule } => Unfit::Broken(rule),
            ResolveFault::Memory => Unfit::Memory,
        }
    }

    /// The refusal of what has this id.
    pub fn of(self, alloc: Global, id: &Name) -> NetFault
        ensures { (refused : Refusal) → IsUnfit id.now refused self → IsRefusal refused result }
    {
        match self {
            Unfit::Broken(rule) => NetFault::ill_typed(alloc, id, rule),
            Unfit::Heavy => NetFault::too_heavy(alloc, id),
            Unfit::Memory => NetFault::Memory,
        }
    }
}
