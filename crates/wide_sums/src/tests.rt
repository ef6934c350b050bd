ghost use Rattle.std.specs.Prelude.{◌≡◌};

use super::*;
use std::marker::Brand;
use std::sync::ledger::{Blank, Ledger};
use std::test::Fail;

// 2^63 - 1, the largest count.
const MOST: i128 = 9_223_372_036_854_775_807;

#[test]
fn three_largest_products_are_too_wide(rt: HostRuntime) {
    let mut sum = Sum::zero();
    assert_eq!(rt; sum.add_product(MOST, MOST), Ok(()));
    assert_eq!(rt; sum.add_product(MOST, MOST), Ok(()));
    let before = sum;
    assert_eq!(rt; sum.add_product(MOST, MOST), Err(Wide));
    assert_eq!(rt; sum, before);
}

#[test]
fn terms_that_cancel_count_in_the_size(rt: HostRuntime) {
    let mut sum = Sum::zero();
    assert_eq!(rt; sum.add_product(MOST, MOST), Ok(()));
    assert_eq!(rt; sum.add_product(MOST, -MOST), Ok(()));
    assert_eq!(rt; sum.value(), 0);
    assert_eq!(rt;
        sum.size(),
        170_141_183_460_469_231_694_793_815_568_465_002_498
    );
    assert_eq!(rt; sum.add(i128::MIN), Err(Wide));
    assert_eq!(rt; sum.add(-7), Ok(()));
    assert_eq!(rt; sum.value(), -7);
}

#[test]
fn a_row_has_the_counts_of_its_cells(rt: HostRuntime) -> Result<(), Fail> {
    let mut row = Row::new(rt.alloc());
    let cell = Cell {
        at: 2,
        count: 9_223_372_036_854_775_807,
    };
    row.push(cell)?;
    assert_eq!(rt; row.cells(), [cell].as_slice());
    assert_eq!(rt; row.count(2), 9_223_372_036_854_775_807);
    assert_eq!(rt; row.count(1), 0);
    Ok(())
}

fn ticked<L: Ledger>(blank: Blank)
    requires name { blank.name ≡ L.name }
    requires parts { blank.parts ≡ L.parts }
    requires some { blank.parts ≡ 1 }
{
    let mut steps = Steps::start(blank.open::<L>());
    steps.tick();
}

#[test]
fn steps_start_at_an_opened_ledger() {
    ticked::<Brand>(Blank::new(1));
}
