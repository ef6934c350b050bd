ghost use Rattle.std.specs.Prelude.{◌≡◌, IfOk, Some, codes, filter, map, not, slice_index_or};
ghost use Rattle.std.specs.Option.{option_map};
ghost use Rattle.doc_model.specs.declared.tree.Element.{out-Element};
ghost use Rattle.net_elements.specs.declared.roles.Role.TheVariants as role;
ghost use Rattle.pnml_read.specs.Nets.{given, guard_or_none, inscription_of, is_block, kept, marking_of, member_part, multiset_or_absent, named, nothing, number_or, partition_of, sort_or_dot, text_in};

use crate::children::named;
use crate::guards::guard_of;
use crate::sorts::sort_of;
use crate::terms::{number_of, range_in, term_of};
use crate::values::{bytes_in, name_in, signed};
use doc_model::Element;
use net_elements::{Role, is_passed_over, role_named, word_of};
use net_model::{Block, Guard, Kind, Label, Member, Partition, SortTerm};
use sqlite_items::Items;
use std::alloc::Global;
use wide_sums::Memory;

/// The initial marking of a place.
pub fn marking_of(alloc: Global, kind: Kind, children: &[Element]) -> Result<Label, Memory>
    ensures { IfOk result (λ label. label ≡ marking_of kind (map given children.now)) }
{
    match kind {
        Kind::Pt => Ok(Label::Count(number_or(0, named(Role::InitialMarking, children)))),
        Kind::Symmetric => multiset_or_absent(alloc, named(Role::HlInitialMarking, children)),
    }
}

/// The inscription of an arc.
pub fn inscription_of(alloc: Global, kind: Kind, children: &[Element]) -> Result<Label, Memory>
    ensures { IfOk result (λ label. label ≡ inscription_of kind (map given children.now)) }
{
    match kind {
        Kind::Pt => Ok(Label::Count(number_or(1, named(Role::Inscription, children)))),
        Kind::Symmetric => multiset_or_absent(alloc, named(Role::HlInscription, children)),
    }
}

fn number_or(otherwise: u64, label: Option<&Element>) -> u64
    ensures { result ≡ number_or otherwise (option_map (λ e. given e.now) label.entry) }
{
    match label {
        Some(element) => number_of(element),
        None => otherwise,
    }
}

fn multiset_or_absent(alloc: Global, label: Option<&Element>) -> Result<Label, Memory>
    ensures { IfOk result (λ it. it ≡ multiset_or_absent (option_map (λ e. given e.now) label.entry)) }
{
    match label {
        Some(element) => Ok(Label::Multiset(term_of(alloc, element)?)),
        None => Ok(Label::Absent),
    }
}

/// The guard of a transition.
pub fn condition_of(alloc: Global, children: &[Element]) -> Result<Option<Guard>, Memory>
    ensures { IfOk result (λ guard. guard ≡ guard_or_none (named role.Condition (map given children.now))) }
{
    match named(Role::Condition, children) {
        Some(element) => Ok(Some(guard_of(alloc, element)?)),
        None => Ok(None),
    }
}

/// The sort of a place.
pub fn place_sort_of(alloc: Global, children: &[Element]) -> Result<SortTerm, Memory>
    ensures { IfOk result (λ sort. sort ≡ sort_or_dot (named role.PlaceType (map given children.now))) }
{
    match named(Role::PlaceType, children) {
        Some(element) => sort_of(alloc, element),
        None => Ok(SortTerm::Dot),
    }
}

const MEMBER_ROLES: &[Role] = &[
    Role::UserOperator,
    Role::FiniteIntRangeConstant,
    Role::DotConstant,
];

/// What an element is as a colour of a block.
fn member_of(alloc: Global, element: &Element) -> Result<Member, Memory>
    ensures { IfOk result (λ member. member ≡ (given element.now).member) }
{
    match role_named(MEMBER_ROLES, element.name.bytes()) {
        Some(role) => member_as(alloc, role, element),
        None => Ok(Member::Dot),
    }
}

/// What an element of a role is as a colour of a block.
fn member_as(alloc: Global, role: Role, element: &Element) -> Result<Member, Memory>
    ensures { IfOk result (λ member. member ≡ member_part (Some role) (out-Element element.now).attributes (map given (out-Element element.now).children)) }
{
    let attributes = element.attributes.as_slice();
    match role {
        Role::UserOperator => Ok(Member::Constant(name_in(alloc, b"declaration", attributes)?)),
        Role::FiniteIntRangeConstant => Ok(Member::Number {
            value: signed(bytes_in(b"value", attributes)),
            span: range_in(element.children.as_slice()),
        }),
        _ => Ok(Member::Dot),
    }
}

/// What an element is as a block of a partition.
fn block_of(alloc: Global, element: &Element) -> Result<Block, Memory>
    ensures { IfOk result (λ block. block ≡ (given element.now).block) }
{
    let children = element.children.as_slice();
    let mut members = Items::new(alloc);
    for child in children {
        if !is_passed_over(Role::PartitionElement, child.name.bytes()) {
            members.push(member_of(alloc, child)?)?;
        }
    }
    let id = name_in(alloc, b"id", element.attributes.as_slice())?;
    Ok(Block { id, members })
}

fn is_block(element: &Element) -> bool
    ensures { result ≡ is_block (given element.now) }
{
    element.name.bytes() == word_of(Role::PartitionElement)
}

fn blocks_in(alloc: Global, children: &[Element]) -> Result<Items<Block>, Memory>
    ensures { IfOk result (λ blocks. blocks ≡ map (λ c. c.block) (filter is_block (kept role.Partition (map given children.now)))) }
{
    let mut blocks = Items::new(alloc);
    for child in children {
        if !is_passed_over(Role::Partition, child.name.bytes()) && is_block(child) {
            blocks.push(block_of(alloc, child)?)?;
        }
    }
    Ok(blocks)
}

/// The sort that is divided: the first child that is no block.
fn divided_in(alloc: Global, children: &[Element]) -> Result<SortTerm, Memory>
    ensures { IfOk result (λ sort. sort ≡ (slice_index_or (filter (λ c. not (is_block c)) (kept role.Partition (map given children.now))) 0 nothing).sort) }
{
    for child in children {
        if !is_passed_over(Role::Partition, child.name.bytes()) && !is_block(child) {
            return sort_of(alloc, child);
        }
    }
    Ok(SortTerm::Dot)
}

/// The partition that an element declares.
pub fn partition_of(alloc: Global, element: &Element) -> Result<Partition, Memory>
    ensures { IfOk result (λ partition. partition ≡ partition_of (text_in (codes "id") (out-Element element.now).attributes) (map given (out-Element element.now).children)) }
{
    let children = element.children.as_slice();
    let id = name_in(alloc, b"id", element.attributes.as_slice())?;
    let sort = divided_in(alloc, children)?;
    let elements = blocks_in(alloc, children)?;
    Ok(Partition { id, sort, elements })
}
