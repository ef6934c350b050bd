ghost use Rattle.std.specs.Prelude.{◌≡◌, ℕ, List, Option, IfOk};
ghost use Rattle.std.specs.Option.{option_map};
ghost use Rattle.line_words.specs.Lists.{all_of, end_with, first_of};
ghost use Rattle.line_words.specs.Parts.{factor_of, id_of, index_of, instance_of, multiplier_of, place_of, signed_of, weight_of};

use crate::items::{Factor, InstanceRef, Multiplier, PlaceRef, Weight};
use crate::parts::{
    read_factor, read_id, read_index, read_instance, read_multiplier, read_place, read_weight,
};
use crate::words::Words;
use name_tables::{Name, read_number};
use sqlite_items::Items;
use std::alloc::Global;
use wide_sums::Memory;

/// A value that one word writes.
pub trait Listed: Sized + Drop {
    ghost meaning: { List ℕ → Option Self };

    /// The value that the word writes.
    fn read(alloc: Global, word: &[u8]) -> Result<Option<Self>, Memory>
        ensures { IfOk result (λ value. value ≡ meaning word.now) };
}

impl Listed for Name {
    ghost meaning = { id_of };

    fn read(alloc: Global, word: &[u8]) -> Result<Option<Name>, Memory> {
        read_id(alloc, word)
    }
}

impl Listed for i64 {
    ghost meaning = { signed_of };

    fn read(_alloc: Global, word: &[u8]) -> Result<Option<i64>, Memory> {
        Ok(read_number(word, true))
    }
}

impl Listed for u32 {
    ghost meaning = { index_of };

    fn read(_alloc: Global, word: &[u8]) -> Result<Option<u32>, Memory> {
        Ok(read_index(word))
    }
}

impl Listed for PlaceRef {
    ghost meaning = { place_of };

    fn read(alloc: Global, word: &[u8]) -> Result<Option<PlaceRef>, Memory> {
        read_place(alloc, word)
    }
}

impl Listed for InstanceRef {
    ghost meaning = { instance_of };

    fn read(alloc: Global, word: &[u8]) -> Result<Option<InstanceRef>, Memory> {
        read_instance(alloc, word)
    }
}

impl Listed for Weight {
    ghost meaning = { weight_of };

    fn read(alloc: Global, word: &[u8]) -> Result<Option<Weight>, Memory> {
        read_weight(alloc, word)
    }
}

impl Listed for Factor {
    ghost meaning = { factor_of };

    fn read(alloc: Global, word: &[u8]) -> Result<Option<Factor>, Memory> {
        read_factor(alloc, word)
    }
}

impl Listed for Multiplier {
    ghost meaning = { multiplier_of };

    fn read(alloc: Global, word: &[u8]) -> Result<Option<Multiplier>, Memory> {
        read_multiplier(alloc, word)
    }
}

/// The value that the next word writes; `None` where there is no word, or one that writes none.
pub fn read_next<T: Listed>(alloc: Global, words: &mut Words<'_>) -> Result<Option<T>, Memory>
    ensures { IfOk result (λ value. option_map (λ x. (x, words.new)) value ≡ first_of T.meaning words.old) }
{
    match words.next() {
        Some(word) => T::read(alloc, word),
        None => Ok(None),
    }
}

/// The values that the words write, where each of them writes one.
pub fn read_list<T: Listed>(
    alloc: Global,
    words: &mut Words<'_>,
) -> Result<Option<Items<T>>, Memory>
    ensures { IfOk result (λ list. list ≡ all_of T.meaning words.old) }
{
    // A short list takes its room at once.
    let mut list = Vec::with_capacity(alloc, words.spaces_ahead())?;
    while let Some(word) = words.next() {
        match T::read(alloc, word)? {
            Some(value) => list.push(value)?,
            None => return Ok(None),
        }
    }
    list.shrink_to_fit();
    Ok(Some(Items::from_vec(list)))
}

/// The value, where no word is left.
pub fn no_more<S: Drop>(words: &mut Words<'_>, value: S) -> Option<S>
    ensures { result ≡ end_with value words.old }
{
    match words.next() {
        Some(_) => None,
        None => Some(value),
    }
}
