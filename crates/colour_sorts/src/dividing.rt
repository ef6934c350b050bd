ghost use Rattle.std.specs.Prelude.{◌≡◌, ◌++◌, ◌<◌, ◌≤◌, ◌^◌, ℕ, List, [], true, length, map, replicate, None, Some, IfOk, MatchBool, MatchResult};
ghost use Rattle.std.specs.List.{list_all};
ghost use Rattle.colour_sorts.specs.Colours.{colours, constants_at, size, span_length, span_numbers};
ghost use Rattle.colour_sorts.specs.Dividing.{block_with, broken_blocks, can_be_divided as may_be_divided, is_member, members_of};
ghost use Rattle.colour_sorts.specs.Filling.{AreFilling, HasFree, IsFull, IsMemberAt, IsTwice};
ghost use Rattle.net_model.specs.declared.sorts.Block.{Block as Blocks};
ghost use Rattle.colour_sorts.specs.declared.sorts.Colour.TheVariants as variants;
ghost use Rattle.colour_sorts.specs.declared.sorts.Sort.TheVariants as sorts;

use crate::domains::Domains;
use crate::placing::number_index;
use crate::rules::Rule;
use crate::sorts::Sort;
use net_model::{Block, Member, Span};
use std::alloc::Global;
use wide_sums::Memory;

/// Whether the colours of a sort can be divided.
pub(crate) fn can_be_divided(sort: &Sort) -> bool
    ensures { result ≡ may_be_divided sort.now }
{
    match sort {
        Sort::Dot => false,
        Sort::Product(_) => false,
        _ => true,
    }
}

/// The place of a member of a block among the numbers of a range. Its span has to be the range's.
fn range_place(range: Span, member: &Member) -> Option<u32>
    requires { span_length range ≤ 2 ^ 20 }
    ensures { (constants : List (List (List ℕ))) → IsMemberAt (map variants.Number (span_numbers range)) member.now (is_member constants (sorts.Range range) member.now) result }
{
    match member {
        Member::Number { value, span } => {
            if *span == range {
                number_index(&range, *value)
            } else {
                None
            }
        }
        _ => None,
    }
}

/// So many colours that no block has.
fn no_blocks(alloc: Global, count: u32, most: u32) -> Result<Vec<u32>, Memory>
    ensures { IfOk result (λ blocks. blocks.items ≡ replicate count most) }
{
    let blocks = vec![in alloc; most; count as usize]?;
    Ok(blocks)
}

/// Whether a colour has no block.
fn has_free(blocks: &[u32], most: u32) -> bool
    ensures { MatchBool result (HasFree blocks.now most) (IsFull blocks.now most) }
{
    for block in blocks {
        if *block == most {
            return true;
        }
    }
    false
}

impl Domains {
    /// The place of a member of a block among the constants that the named sort at this position
    /// declares.
    fn listed_place(&self, at: u32, member: &Member) -> Option<u32>
        requires { 0 < length (constants_at self.now.constants at) }
        ensures listed { IsMemberAt (map variants.Constant (constants_at self.now.constants at)) member.now (is_member self.now.constants (sorts.Listed at) member.now) result }
        ensures cyclic { IsMemberAt (map variants.Constant (constants_at self.now.constants at)) member.now (is_member self.now.constants (sorts.Cyclic at) member.now) result }
    {
        match member {
            Member::Constant(name) => self.constants.index(at, name.bytes()),
            _ => None,
        }
    }

    /// The place of a member of a block among the colours of a sort, `None` where it is no colour of
    /// the sort or the sort can't be divided.
    fn member_place(&self, sort: &Sort, member: &Member) -> Option<u32>
        requires some { 0 < size self.now.constants sort.now }
        requires limit { size self.now.constants sort.now ≤ 2 ^ 20 }
        ensures { IsMemberAt (colours self.now.constants sort.now) member.now (is_member self.now.constants sort.now member.now) result }
    {
        match sort {
            Sort::Listed(at) => self.listed_place(*at, member),
            Sort::Cyclic(at) => self.listed_place(*at, member),
            Sort::Range(range) => range_place(*range, member),
            _ => None,
        }
    }

    /// Puts the number of a block at the places of its members, which are colours of the sort. False
    /// where a block has the place already: `most` stands where none has it.
    fn put_members(
        &self,
        sort: &Sort,
        members: &[Member],
        block: u32,
        most: u32,
        blocks: &mut [u32],
    ) -> bool
        requires some { 0 < size self.now.constants sort.now }
        requires limit { size self.now.constants sort.now ≤ 2 ^ 20 }
        requires members { list_all (is_member self.now.constants sort.now) members.now ≡ true }
        requires below { block < most }
        requires long { length blocks.old ≡ size self.now.constants sort.now }
        ensures long { length blocks.new ≡ length blocks.old }
        ensures filled { (done : List Blocks) → block ≡ length done → AreFilling (colours self.now.constants sort.now) done [] most blocks.old
            → MatchBool result (AreFilling (colours self.now.constants sort.now) done members.now most blocks.new) (IsTwice (colours self.now.constants sort.now) (members_of done ++ members.now)) }
    {
        for member in members {
            match self.member_place(sort, member) {
                Some(place) => {
                    if blocks[place as usize] != most {
                        return false;
                    }
                    blocks[place as usize] = block;
                }
                None => unreachable!(),
            }
        }
        true
    }

    /// Whether each of these members is a colour of the sort.
    fn are_colours(&self, sort: &Sort, members: &[Member]) -> bool
        requires some { 0 < size self.now.constants sort.now }
        requires limit { size self.now.constants sort.now ≤ 2 ^ 20 }
        ensures { result ≡ list_all (is_member self.now.constants sort.now) members.now }
    {
        for member in members {
            if self.member_place(sort, member).is_none() {
                return false;
            }
        }
        true
    }

    /// Whether each member of the blocks is a colour of the sort.
    fn are_members(&self, sort: &Sort, elements: &[Block]) -> bool
        requires some { 0 < size self.now.constants sort.now }
        requires limit { size self.now.constants sort.now ≤ 2 ^ 20 }
        ensures { result ≡ list_all (is_member self.now.constants sort.now) (members_of elements.now) }
    {
        for element in elements {
            if !self.are_colours(sort, element.members.as_slice()) {
                return false;
            }
        }
        true
    }

    /// Puts the number of each block at the places of its members, which are colours of the sort.
    /// False where a colour stands twice.
    fn put_blocks(&self, sort: &Sort, elements: &[Block], most: u32, blocks: &mut [u32]) -> bool
        requires some { 0 < size self.now.constants sort.now }
        requires limit { size self.now.constants sort.now ≤ 2 ^ 20 }
        requires members { list_all (is_member self.now.constants sort.now) (members_of elements.now) ≡ true }
        requires most { most ≡ length elements.now }
        requires empty { blocks.old ≡ replicate (size self.now.constants sort.now) most }
        ensures { MatchBool result (AreFilling (colours self.now.constants sort.now) elements.now [] most blocks.new) (IsTwice (colours self.now.constants sort.now) (members_of elements.now)) }
    {
        for at in 0..most {
            let members = elements[at as usize].members.as_slice();
            if !self.put_members(sort, members, at, most, blocks) {
                return false;
            }
        }
        true
    }

    /// For each colour of a sort the number of the block that has it, or the first rule that the
    /// blocks break.
    pub(crate) fn divide(
        &self,
        alloc: Global,
        sort: &Sort,
        elements: &[Block],
    ) -> Result<Result<Vec<u32>, Rule>, Memory>
        requires some { 0 < size self.now.constants sort.now }
        requires limit { size self.now.constants sort.now ≤ 2 ^ 20 }
        requires count { length elements.now < 2 ^ 32 }
        ensures { IfOk result (λ answer. MatchResult answer
            (λ blocks. (broken_blocks self.now.constants sort.now elements.now ≡ None) × (blocks.items ≡ map (block_with elements.now) (colours self.now.constants sort.now)))
            (λ rule. broken_blocks self.now.constants sort.now elements.now ≡ Some rule)) }
    {
        if !can_be_divided(sort) {
            return Ok(Err(Rule::PartitionSort));
        }
        if !self.are_members(sort, elements) {
            return Ok(Err(Rule::PartitionMember));
        }
        let most = elements.len() as u32;
        let mut blocks = no_blocks(alloc, self.size(sort), most)?;
        if !self.put_blocks(sort, elements, most, blocks.as_mut_slice()) {
            return Ok(Err(Rule::PartitionCover));
        }
        if has_free(blocks.as_slice(), most) {
            return Ok(Err(Rule::PartitionCover));
        }
        Ok(Ok(blocks))
    }
}
