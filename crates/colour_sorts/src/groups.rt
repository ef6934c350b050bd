ghost use Rattle.std.specs.Prelude.{◌≡◌, ◌++◌, ◌∷◌, [], ◌+◌, ◌-◌, ◌<◌, ◌≤◌, ◌^◌, ◌⊎◌, Some, None, IfOk, OnOk, MatchOption, length, replicate, slice_get};
ghost use Rattle.std.specs.List.{IsDistinct};
ghost use Rattle.std.specs.Str.{bytes_eq};
ghost use Rattle.colour_sorts.specs.Calls.{group_of, place_in};
ghost use Rattle.colour_sorts.specs.Colours.{constants_at};
ghost use Rattle.net_model.specs.Ids.{names_in};
ghost use Rattle.colour_sorts.specs.Places.{IsPlace};

use name_tables::{Ids, Name};
use sqlite_items::Items;
use std::alloc::Global;
use std::marker::Model;
use wide_sums::Memory;

/// A group of names: so many of all names, from this number on.
#[derive(Clone, Copy, Debug, PartialEq, Eq)]
pub(crate) struct Group {
    pub(crate) first: u32,
    pub(crate) count: u32,
}

/// Where a name stands: the position of its group, and its place there.
#[derive(Clone, Copy, Debug, PartialEq, Eq)]
pub(crate) struct Spot {
    pub(crate) group: u32,
    pub(crate) place: u32,
}

/// Distinct names in groups, as the constants of enumerations. Contracts see the list of the groups.
#[derive(Debug, Drop)]
pub(crate) struct Groups {
    names: Ids,
    groups: Items<Group>,
    owners: Items<u32>,
}

impl Model for Groups {
    ghost use Rattle.std.specs.Prelude.{ℕ, List, map};
    ghost use Rattle.colour_sorts.specs.Groups.{IsGrouped, names_of};

    ghost Value = { List (List (List ℕ)) };

    ghost view = { λ g. map (names_of g.names) g.groups };

    ghost invariant = { λ g. IsGrouped g.names g.groups g.owners };
}

/// The place that a name has in a group, by its number among all names.
fn place_in_group(group: Group, number: u32) -> Option<u32>
    ensures { MatchOption result (number < group.first ⊎ group.first + group.count ≤ number)
        (λ place. (number ≡ group.first + place) × (place < group.count)) }
{
    if number < group.first {
        return None;
    }
    let place = number - group.first;
    if place < group.count {
        Some(place)
    } else {
        None
    }
}

/// Adds the names of a group, and the position of the group as their owner.
fn add_names(
    alloc: Global,
    names: &mut Ids,
    owners: &mut Items<u32>,
    at: u32,
    group: &[Name],
) -> Result<(), Memory>
    requires distinct { IsDistinct bytes_eq (names.old ++ group.now) }
    requires count { length (names.old ++ group.now) < 2 ^ 32 - 1 }
    ensures names { OnOk result (names.new ≡ names.old ++ group.now) }
    ensures owners { OnOk result (owners.new ≡ owners.old ++ replicate (length group.now) at) }
{
    for name in group {
        names.add(name.copy(alloc)?)?;
        owners.push(at)?;
    }
    Ok(())
}

impl Groups {
    /// No groups.
    pub(crate) fn new(alloc: Global) -> Groups
        ensures { result ≡ [] }
    {
        Groups {
            names: Ids::new(alloc),
            groups: Items::new(alloc),
            owners: Items::new(alloc),
        }
    }

    /// These groups with one more.
    pub(crate) fn with(self, alloc: Global, group: &[Name]) -> Result<Groups, Memory>
        requires distinct { IsDistinct bytes_eq (names_in self ++ group.now) }
        requires count { length self < 2 ^ 32 }
        requires names { length (names_in self ++ group.now) < 2 ^ 32 - 1 }
        ensures { IfOk result (λ groups. groups ≡ self ++ group.now ∷ []) }
    {
        let Groups {
            mut names,
            mut groups,
            mut owners,
        } = self;
        let first = names.count();
        let at = groups.len() as u32;
        add_names(alloc, &mut names, &mut owners, at, group)?;
        let count = names.count() - first;
        groups.push(Group { first, count })?;
        Ok(Groups {
            names,
            groups,
            owners,
        })
    }

    /// How many names the group at this position has.
    pub(crate) fn count(&self, at: u32) -> u32
        ensures { result ≡ length (constants_at self.now at) }
    {
        match self.groups.get(at as usize) {
            Some(group) => group.count,
            None => 0,
        }
    }

    /// The place of a name in the group at this position.
    pub(crate) fn index(&self, at: u32, name: &[u8]) -> Option<u32>
        requires { 0 < length (constants_at self.now at) }
        ensures { IsPlace (constants_at self.now at) name.now result }
    {
        let group = self.groups.as_slice()[at as usize];
        match self.names.find(name) {
            Some(number) => place_in_group(group, number),
            None => None,
        }
    }

    /// The name at a place of the group at this position.
    pub(crate) fn name(&self, at: u32, index: u32) -> &[u8]
        requires { index < length (constants_at self.now at) }
        ensures { slice_get (constants_at self.now at) index ≡ Some result.now }
    {
        let group = &self.groups.as_slice()[at as usize];
        self.names.name(group.first + index)
    }

    /// The group that has a name, and the place of the name there.
    pub(crate) fn find(&self, name: &[u8]) -> Option<Spot>
        ensures { MatchOption result (group_of self.now name.now ≡ None)
            (λ spot. (group_of self.now name.now ≡ Some spot.group) × (place_in self.now spot.group name.now ≡ spot.place)) }
    {
        match self.names.find(name) {
            Some(number) => {
                let at = self.owners.as_slice()[number as usize];
                let group = self.groups.as_slice()[at as usize];
                Some(Spot {
                    group: at,
                    place: number - group.first,
                })
            }
            None => None,
        }
    }
}
