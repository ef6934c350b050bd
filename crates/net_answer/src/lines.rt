ghost use Rattle.std.specs.Prelude.{◌≡◌, ◌∷◌, ◌++◌, [], IfOk, OnOk};
ghost use Rattle.net_answer.specs.Documents.{place_words, rule_word, structure_words};

use answers::{put, put_number};
use doc_tree::Fault;
use std::alloc::Global;
use wide_sums::Memory;

/// The word for a broken rule.
fn rule_word(rule: Fault) -> &'static [u8]
    ensures { result.now ≡ rule_word rule }
{
    match rule {
        Fault::Unexpected => b"unexpected",
        Fault::MissingChild => b"missing-child",
        Fault::MissingAttribute => b"missing-attribute",
        Fault::BadNumber => b"bad-number",
        Fault::BadId => b"bad-id",
        Fault::NetType => b"net-type",
        Fault::ManyNets => b"many-nets",
        Fault::DuplicateId => b"duplicate-id",
    }
}

/// Appends what is wrong at a place, and its offset.
fn put_place(words: &mut Vec<u8>, word: &[u8], at: u64) -> Result<(), Memory>
    ensures { OnOk result (words.new.items ≡ words.old.items ++ place_words word.now at) }
{
    put(words, word)?;
    put(words, b" ")?;
    put_number(words, at)
}

/// What is wrong at a place, and its offset.
pub fn place_words(alloc: Global, word: &[u8], at: u64) -> Result<Vec<u8>, Memory>
    ensures { IfOk result (λ words. words.items ≡ place_words word.now at) }
{
    let mut words = Vec::new(alloc);
    put_place(&mut words, word, at)?;
    Ok(words)
}

/// Where a tree breaks a rule, and which.
pub fn structure_words(alloc: Global, at: u64, rule: Fault) -> Result<Vec<u8>, Memory>
    ensures { IfOk result (λ words. words.items ≡ structure_words at rule) }
{
    let mut words = Vec::new(alloc);
    put_place(&mut words, b"structure", at)?;
    put(&mut words, b" ")?;
    put(&mut words, rule_word(rule))?;
    Ok(words)
}
