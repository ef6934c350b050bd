ghost use Rattle.std.specs.Prelude.{◌≡◌, count_by, map, nat_lt, slice_get, None, Some};
ghost use Rattle.net_elements.specs.Rules.{fewest, is_aside, is_in, is_label, is_missing, is_passed_over, refused_as, role_among, role_in_slot, role_named, seat_of};
ghost use Rattle.net_elements.specs.Rows.{slot_view};
ghost use Rattle.net_elements.specs.Walking.{name_of};

use crate::roles::{Role, word_of};
use crate::rows::{Count, Slot, slots_of};
use doc_model::Element;
use doc_tree::Fault;
use net_model::Kind;

/// How a child is taken.
#[derive(Clone, Copy, Debug, PartialEq, Eq)]
pub enum Seat {
    /// It is passed over with all that it holds.
    PassedOver,
    /// It is read in a role.
    Read(Role),
    /// It breaks a rule, and is not walked.
    Refused(Fault),
}

/// How a child of this name is taken that stands behind these siblings.
pub fn seat_of(kind: Kind, parent: Role, earlier: &[Element], name: &[u8]) -> Seat
    ensures { result ≡ seat_of kind parent (map name_of earlier.now) name.now }
{
    if is_passed_over(parent, name) {
        return Seat::PassedOver;
    }
    match role_among(slots_of(kind, parent), earlier, name) {
        Some(role) => Seat::Read(role),
        None => Seat::Refused(refused_as(parent, name)),
    }
}

/// The first of some roles whose elements have this name.
pub fn role_named(roles: &[Role], name: &[u8]) -> Option<Role>
    ensures { result ≡ role_named roles.now name.now }
{
    for role in roles {
        if name == word_of(*role) {
            return Some(*role);
        }
    }
    None
}

fn is_in(slot: &Slot, name: &[u8]) -> bool
    ensures { result ≡ is_in (slot_view slot.now) name.now }
{
    role_named(slot.roles, name).is_some()
}

/// How many of some siblings are of a slot.
fn count_in(slot: &Slot, siblings: &[Element]) -> usize
    ensures { result ≡ count_by (λ e. is_in (slot_view slot.now) (name_of e)) siblings.now }
{
    let mut count = 0;
    for sibling in siblings {
        if is_in(slot, sibling.name.bytes()) {
            count += 1;
        }
    }
    count
}

fn role_at(roles: &[Role], at: usize) -> Option<Role>
    ensures { result ≡ slice_get roles.now at }
{
    if at < roles.len() {
        Some(roles[at])
    } else {
        None
    }
}

#[tactic(auto, using(crate::proofs::Counts::count_by_map))]
fn role_in_slot(slot: &Slot, earlier: &[Element], role: Role) -> Option<Role>
    ensures { result ≡ role_in_slot (slot_view slot.now) (map name_of earlier.now) None (Some role) }
{
    match slot.count {
        Count::Any | Count::OneOrMore => Some(role),
        Count::AtMostOne | Count::One => {
            if count_in(slot, earlier) == 0 {
                Some(role)
            } else {
                None
            }
        }
        Count::InTurn => role_at(slot.roles, count_in(slot, earlier)),
    }
}

/// The role of a child that stands behind these siblings, or `None` where it may not stand there. The siblings are looked at
/// only where there may not be any number of them, so at most twice for each slot.
fn role_among(slots: &[Slot], earlier: &[Element], name: &[u8]) -> Option<Role>
    ensures { result ≡ role_among (map slot_view slots.now) (map name_of earlier.now) name.now }
{
    for slot in slots {
        if let Some(role) = role_named(slot.roles, name) {
            return role_in_slot(slot, earlier, role);
        }
    }
    None
}

fn fewest(slot: &Slot) -> usize
    ensures { result ≡ fewest (slot_view slot.now) }
{
    match slot.count {
        Count::Any | Count::AtMostOne => 0,
        Count::One | Count::OneOrMore => 1,
        Count::InTurn => slot.roles.len(),
    }
}

/// Whether one of these children is missing.
pub fn is_missing(slots: &[Slot], children: &[Element]) -> bool
    ensures { result ≡ is_missing (map slot_view slots.now) (map name_of children.now) }
{
    for slot in slots {
        if is_short(slot, children) {
            return true;
        }
    }
    false
}

#[tactic(auto, using(crate::proofs::Counts::count_by_map))]
fn is_short(slot: &Slot, children: &[Element]) -> bool
    ensures { result ≡ nat_lt (count_by (is_in (slot_view slot.now)) (map name_of children.now)) (fewest (slot_view slot.now)) }
{
    let fewest = fewest(slot);
    fewest > 0 && count_in(slot, children) < fewest
}

fn is_label(role: Role) -> bool
    ensures { result ≡ is_label role }
{
    matches!(
        role,
        Role::PlaceType
            | Role::HlInitialMarking
            | Role::HlInscription
            | Role::Condition
            | Role::Declaration
    )
}

/// Whether elements of this name are names, graphics or of a tool.
fn is_aside(name: &[u8]) -> bool
    ensures { result ≡ is_aside name.now }
{
    name == b"name".as_slice()
        || name == b"graphics".as_slice()
        || name == b"toolspecific".as_slice()
}

/// Whether a child of this name is passed over.
pub fn is_passed_over(role: Role, name: &[u8]) -> bool
    ensures { result ≡ is_passed_over role name.now }
{
    match role {
        Role::Pnml => false,
        _ => is_aside(name) || (is_label(role) && name == b"text".as_slice()),
    }
}

/// The rule that a child of this name breaks where it may not stand.
fn refused_as(role: Role, name: &[u8]) -> Fault
    ensures { result ≡ refused_as role name.now }
{
    match role {
        Role::Pnml if name == b"net".as_slice() => Fault::ManyNets,
        _ => Fault::Unexpected,
    }
}
