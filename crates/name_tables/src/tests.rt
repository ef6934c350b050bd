ghost use Rattle.std.specs.Prelude.{◌<◌};

use crate::{
    Added, Ids, Name, Table, cert_words, decimal, formula_words, is_id, net_attributes, net_words,
    read_number, rule_words,
};
use std::test::Fail;

#[test]
fn a_copy_has_the_same_bytes(rt: HostRuntime) -> Result<(), Fail> {
    let name = Name::new(rt.alloc(), b"ab")?;
    let copy = name.copy(rt.alloc())?;
    assert_eq!(rt; name.bytes(), b"ab".as_slice());
    assert_eq!(rt; copy.bytes(), b"ab".as_slice());
    assert!(rt; copy == name);
    Ok(())
}

#[test]
fn a_name_that_is_there_keeps_its_number(rt: HostRuntime) -> Result<(), Fail> {
    let mut ids = Ids::new(rt.alloc());
    assert_eq!(rt; ids.add(Name::new(rt.alloc(), b"a")?)?, Added::New(0));
    assert_eq!(rt; ids.add(Name::new(rt.alloc(), b"b")?)?, Added::New(1));
    assert_eq!(rt; ids.add(Name::new(rt.alloc(), b"a")?)?, Added::Old(0));
    assert_eq!(rt; ids.count(), 2);
    assert_eq!(rt; ids.find(b"b"), Some(1));
    assert_eq!(rt; ids.find(b"c"), None);
    Ok(())
}

#[test]
fn a_negative_number_is_written_with_a_minus(rt: HostRuntime) -> Result<(), Fail> {
    let text = decimal(rt.alloc(), -7)?;
    assert_eq!(rt; text.bytes(), b"-7".as_slice());
    Ok(())
}

#[test]
fn numbers_are_read_up_to_the_limit(rt: HostRuntime) {
    assert_eq!(rt;
        read_number(b"9223372036854775807", false),
        Some(9223372036854775807)
    );
    assert_eq!(rt; read_number(b"9223372036854775808", false), None);
    assert_eq!(rt;
        read_number(b"-9223372036854775807", true),
        Some(-9223372036854775807)
    );
    assert_eq!(rt; read_number(b"-9223372036854775808", true), None);
    assert_eq!(rt; read_number(b"007", false), Some(7));
    assert_eq!(rt; read_number(b"-0", true), Some(0));
    assert_eq!(rt; read_number(b"-7", false), None);
    assert_eq!(rt; read_number(b"+7", true), None);
    assert_eq!(rt; read_number(b"-", true), None);
    assert_eq!(rt; read_number(b"", true), None);
}

#[test]
fn ids_are_well_formed_text_of_their_characters(rt: HostRuntime) {
    assert!(rt; is_id(b"p-1.a:b_2"));
    assert!(rt; is_id(b"\xc3\xa9t\xe2\x82\xac\xf0\x9f\x98\x80"));
    assert!(rt; !is_id(b""));
    assert!(rt; !is_id(b"a b"));
    assert!(rt; !is_id(b"\xc0\xaf"));
    assert!(rt; !is_id(b"a\xe2\x82"));
    assert!(rt; !is_id(b"\xed\xa0\x80"));
}

#[test]
fn a_name_grows_at_its_end(rt: HostRuntime) -> Result<(), Fail> {
    let mut name = Name::from(Vec::new(rt.alloc()));
    assert_eq!(rt; name.bytes(), b"".as_slice());
    name.push(b'a')?;
    name.append(b"bc")?;
    name.append(b"")?;
    name.push(b'd')?;
    assert_eq!(rt; name.bytes(), b"abcd".as_slice());
    let mut copy = Name::new(rt.alloc(), b"p")?;
    copy.append(name.bytes())?;
    assert_eq!(rt; copy.bytes(), b"pabcd".as_slice());
    Ok(())
}

fn finds_each_word<const N: usize>(table: &Table<N>) -> bool
    requires { N < 65536 }
{
    for tag in 0..N as u16 {
        if table.find(table.text(tag)) != Some(tag) {
            return false;
        }
    }
    true
}

#[test]
fn each_word_is_found_at_its_tag(rt: HostRuntime) -> Result<(), Fail> {
    assert!(rt; finds_each_word(&net_words()));
    assert!(rt; finds_each_word(&net_attributes()));
    assert!(rt; finds_each_word(&formula_words()));
    assert!(rt; finds_each_word(&cert_words()));
    assert!(rt; finds_each_word(&rule_words()));
    Ok(())
}

#[test]
fn a_word_is_found_and_its_neighbours_are_not(rt: HostRuntime) -> Result<(), Fail> {
    let table = net_words();
    let is_found = match table.find(b"place") {
        Some(tag) => table.text(tag) == b"place".as_slice(),
        None => false,
    };
    assert!(rt; is_found);
    assert_eq!(rt; table.find(b"palce"), None);
    assert_eq!(rt; table.find(b""), None);
    assert_eq!(rt; table.find(b"ad"), None);
    assert_eq!(rt; table.find(b"adc"), None);
    assert_eq!(rt; table.find(b"plac"), None);
    assert_eq!(rt; table.find(b"places"), None);
    assert_eq!(rt; table.find(b"variabledecm"), None);
    assert_eq!(rt; table.find(b"\xff"), None);
    assert_eq!(rt; net_attributes().find(b"xmlnt"), None);
    assert_eq!(rt; formula_words().find(b"all_paths"), None);
    assert_eq!(rt; cert_words().find(b"Bound"), None);
    assert_eq!(rt; rule_words().find(b"variable-in-markin"), None);
    Ok(())
}
