use crate::{Command, form_of};
use name_tables::Name;
use std::alloc::Global;
use std::test::Fail;
use wide_sums::Memory;

/// The command of the words, how many files it has, and how many workers.
fn form_told(alloc: Global, words: &[&[u8]]) -> Result<Option<(Command, usize, u32)>, Memory> {
    let mut names = Vec::new(alloc);
    for word in words {
        names.push(Name::new(alloc, word)?)?;
    }
    match form_of(&names) {
        Some(form) => Ok(Some((form.command, form.names.len(), form.workers))),
        None => Ok(None),
    }
}

/// Words that are of a form, with its command, its files and its workers.
const FORMS: &[(&[&[u8]], (Command, usize, u32))] = &[
    (&[b"canon", b"n"], (Command::Canon, 1, 1)),
    (&[b"canon", b"--workers"], (Command::Canon, 1, 1)),
    (
        &[b"canon", b"n", b"--workers", b"64"],
        (Command::Canon, 1, 64),
    ),
    (&[b"check", b"n", b"f", b"c"], (Command::Check, 3, 1)),
    (
        &[b"check", b"n", b"--workers", b"2"],
        (Command::Check, 3, 1),
    ),
    (
        &[b"check", b"n", b"f", b"c", b"--workers", b"9"],
        (Command::Check, 3, 9),
    ),
];

#[test]
fn words_of_a_form(rt: HostRuntime) -> Result<(), Fail> {
    let alloc = rt.alloc();
    for (words, form) in FORMS {
        assert_eq!(rt; form_told(alloc, words)?, Some(*form));
    }
    Ok(())
}

/// Words that are of no form.
const USAGE: &[&[&[u8]]] = &[
    &[],
    &[b"canon"],
    &[b"reduce", b"n"],
    &[b"canon", b"n", b"--workers"],
    &[b"canon", b"--workers", b"2"],
    &[b"canon", b"n", b"--workers", b"0"],
    &[b"canon", b"n", b"--workers", b"02"],
    &[b"canon", b"n", b"--workers", b"65"],
    &[b"canon", b"n", b"--workers", b"100"],
    &[b"canon", b"n", b"--workers", b"2", b"x"],
    &[b"canon", b"--workers", b"2", b"n"],
    &[b"canon", b"n", b"-workers", b"2"],
    &[b"check", b"n", b"f"],
];

#[test]
fn words_of_no_form(rt: HostRuntime) -> Result<(), Fail> {
    let alloc = rt.alloc();
    for words in USAGE {
        assert_eq!(rt; form_told(alloc, words)?, None);
    }
    Ok(())
}
