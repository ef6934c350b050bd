ghost use Rattle.std.specs.Prelude.{◌≡◌, IfOk};
ghost use Rattle.cert_lines.specs.Statements.{keyword_of, line_of, said, statement_of, word_for};

use crate::certificates::{NodeForm, Version};
use crate::statements::{Claim, Keyword, Statement, StepClaim};
use line_words::{InstanceRef, Line, LineForm, PlaceRef, Words, no_more, read_list, read_next};
use name_tables::{Name, cert_words};
use std::alloc::Global;
use wide_sums::Memory;

/// What the bytes of one line say.
pub fn read_line(alloc: Global, bytes: &[u8]) -> Result<Line<Statement>, Memory>
    ensures { IfOk result (λ line. line ≡ line_of bytes.now) }
{
    line_words::read_line(alloc, bytes)
}

impl LineForm for Statement {
    ghost meaning = { statement_of };

    fn read(
        alloc: Global,
        first: &[u8],
        words: &mut Words<'_>,
    ) -> Result<Option<Statement>, Memory> {
        match read_keyword(first) {
            Some(keyword) => read_words(alloc, keyword, words),
            None => Ok(None),
        }
    }
}

/// The first words of the lines, in the order of their table.
const KEYWORDS: [Keyword; 13] = [
    Keyword::Bound,
    Keyword::Cases,
    Keyword::Certificate,
    Keyword::Clash,
    Keyword::Close,
    Keyword::Each,
    Keyword::End,
    Keyword::Flow,
    Keyword::Proof,
    Keyword::Property,
    Keyword::Split,
    Keyword::Step,
    Keyword::Trap,
];

/// The first word of a line.
pub fn read_keyword(word: &[u8]) -> Option<Keyword>
    ensures { result ≡ keyword_of word.now }
{
    match cert_words().find(word) {
        Some(place) => Some(KEYWORDS[place as usize]),
        None => None,
    }
}

/// The word that a line of this kind begins with.
#[tactic(auto, unfolding(name_tables::specs::Tables::words_of_certificates))]
pub fn first_word(keyword: Keyword) -> &'static [u8]
    ensures { result.now ≡ word_for keyword }
{
    let words = cert_words();
    match keyword {
        Keyword::Bound => words.text(0),
        Keyword::Cases => words.text(1),
        Keyword::Certificate => words.text(2),
        Keyword::Clash => words.text(3),
        Keyword::Close => words.text(4),
        Keyword::Each => words.text(5),
        Keyword::End => words.text(6),
        Keyword::Flow => words.text(7),
        Keyword::Proof => words.text(8),
        Keyword::Property => words.text(9),
        Keyword::Split => words.text(10),
        Keyword::Step => words.text(11),
        Keyword::Trap => words.text(12),
    }
}

fn read_words(
    alloc: Global,
    keyword: Keyword,
    words: &mut Words<'_>,
) -> Result<Option<Statement>, Memory>
    ensures { IfOk result (λ statement. statement ≡ said keyword words.old) }
{
    match keyword {
        Keyword::Bound => read_bound(alloc, words),
        Keyword::Cases => read_cases(alloc, words),
        Keyword::Certificate => Ok(read_version(words)),
        Keyword::Clash => read_clash(alloc, words),
        Keyword::Close => read_close(alloc, words),
        Keyword::Each => read_each(alloc, words),
        Keyword::End => Ok(no_more(words, Statement::End)),
        Keyword::Flow => read_flow(alloc, words),
        Keyword::Proof => Ok(no_more(words, Statement::Proof)),
        Keyword::Property => read_property(alloc, words),
        Keyword::Split => read_split(alloc, words),
        Keyword::Step => read_step(alloc, words),
        Keyword::Trap => read_trap(alloc, words),
    }
}

fn read_version(words: &mut Words<'_>) -> Option<Statement>
    ensures { result ≡ said Keyword.Certificate words.old }
{
    let version = match words.next() {
        Some(word) if word == b"1".as_slice() => Version::One,
        Some(word) if word == b"2".as_slice() => Version::Two,
        _ => return None,
    };
    no_more(words, Statement::Certificate(version))
}

fn read_property(alloc: Global, words: &mut Words<'_>) -> Result<Option<Statement>, Memory>
    ensures { IfOk result (λ statement. statement ≡ said Keyword.Property words.old) }
{
    let Some(id) = read_next::<Name>(alloc, words)? else {
        return Ok(None);
    };
    Ok(no_more(words, Statement::Property(id)))
}

fn read_flow(alloc: Global, words: &mut Words<'_>) -> Result<Option<Statement>, Memory>
    ensures { IfOk result (λ statement. statement ≡ said Keyword.Flow words.old) }
{
    let Some(name) = read_next::<Name>(alloc, words)? else {
        return Ok(None);
    };
    match read_list(alloc, words)? {
        Some(weights) => Ok(Some(Statement::Fact {
            name,
            claim: Claim::Flow(weights),
        })),
        None => Ok(None),
    }
}

fn read_trap(alloc: Global, words: &mut Words<'_>) -> Result<Option<Statement>, Memory>
    ensures { IfOk result (λ statement. statement ≡ said Keyword.Trap words.old) }
{
    let Some(name) = read_next::<Name>(alloc, words)? else {
        return Ok(None);
    };
    match read_list(alloc, words)? {
        Some(places) => Ok(Some(Statement::Fact {
            name,
            claim: Claim::Trap(places),
        })),
        None => Ok(None),
    }
}

fn read_bound(alloc: Global, words: &mut Words<'_>) -> Result<Option<Statement>, Memory>
    ensures { IfOk result (λ statement. statement ≡ said Keyword.Bound words.old) }
{
    let Some(name) = read_next::<Name>(alloc, words)? else {
        return Ok(None);
    };
    let Some(limit) = read_next::<i64>(alloc, words)? else {
        return Ok(None);
    };
    match read_list(alloc, words)? {
        Some(weights) => Ok(Some(Statement::Fact {
            name,
            claim: Claim::Bound { limit, weights },
        })),
        None => Ok(None),
    }
}

fn read_step(alloc: Global, words: &mut Words<'_>) -> Result<Option<Statement>, Memory>
    ensures { IfOk result (λ statement. statement ≡ said Keyword.Step words.old) }
{
    let Some(origin) = read_next::<InstanceRef>(alloc, words)? else {
        return Ok(None);
    };
    let Some(scale) = read_next::<i64>(alloc, words)? else {
        return Ok(None);
    };
    let Some(keep) = read_next::<i64>(alloc, words)? else {
        return Ok(None);
    };
    match read_list(alloc, words)? {
        Some(factors) => Ok(Some(Statement::Step(StepClaim {
            origin,
            scale,
            keep,
            factors,
        }))),
        None => Ok(None),
    }
}

fn read_close(alloc: Global, words: &mut Words<'_>) -> Result<Option<Statement>, Memory>
    ensures { IfOk result (λ statement. statement ≡ said Keyword.Close words.old) }
{
    match read_list(alloc, words)? {
        Some(multipliers) => Ok(Some(Statement::Node(NodeForm::Close(multipliers)))),
        None => Ok(None),
    }
}

fn read_clash(alloc: Global, words: &mut Words<'_>) -> Result<Option<Statement>, Memory>
    ensures { IfOk result (λ statement. statement ≡ said Keyword.Clash words.old) }
{
    let Some(place) = read_next::<PlaceRef>(alloc, words)? else {
        return Ok(None);
    };
    Ok(no_more(words, Statement::Node(NodeForm::Clash(place))))
}

fn read_split(alloc: Global, words: &mut Words<'_>) -> Result<Option<Statement>, Memory>
    ensures { IfOk result (λ statement. statement ≡ said Keyword.Split words.old) }
{
    let Some(limit) = read_next::<i64>(alloc, words)? else {
        return Ok(None);
    };
    match read_list(alloc, words)? {
        Some(weights) => Ok(Some(Statement::Node(NodeForm::Split { limit, weights }))),
        None => Ok(None),
    }
}

fn read_cases(alloc: Global, words: &mut Words<'_>) -> Result<Option<Statement>, Memory>
    ensures { IfOk result (λ statement. statement ≡ said Keyword.Cases words.old) }
{
    let Some(choice) = read_next::<u32>(alloc, words)? else {
        return Ok(None);
    };
    let Some(branches) = read_next::<u32>(alloc, words)? else {
        return Ok(None);
    };
    Ok(no_more(words, Statement::Node(NodeForm::Cases { choice, branches })))
}

fn read_each(alloc: Global, words: &mut Words<'_>) -> Result<Option<Statement>, Memory>
    ensures { IfOk result (λ statement. statement ≡ said Keyword.Each words.old) }
{
    let Some(choice) = read_next::<u32>(alloc, words)? else {
        return Ok(None);
    };
    Ok(no_more(words, Statement::Node(NodeForm::Each { choice })))
}
