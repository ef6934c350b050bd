ghost use Rattle.std.specs.Prelude.{◌<◌, ◌^◌, All};

use crate::{form, net};
use linear_cert::{Check, Constant, bound_true, flow_true};
use std::alloc::Global;
use std::test::Fail;
use wide_sums::{Cell, Memory};

// 2^63 - 1, the largest count and coefficient.
const MOST: u64 = 9_223_372_036_854_775_807;

const LARGEST: i64 = 9_223_372_036_854_775_807;

// No cell.
const NONE: Cell = Cell { at: 0, count: 0 };

fn cell(at: u32, count: u64) -> Cell {
    Cell { at, count }
}

// The check of a flow at the net's one instance.
fn flow(alloc: Global, row: [Cell; 4], weights: &[i64; 4]) -> Result<Check, Memory> {
    let net = net(alloc, &[0, 0, 0, 0], &[row])?;
    let flow = form(alloc, weights, Constant::Wide)?;
    Ok(flow_true(&net, 0, &flow))
}

// The check of a slack form at the initial marking.
fn base(
    alloc: Global,
    counts: &[u64; 2],
    weights: &[i64; 2],
    constant: i64,
) -> Result<Check, Memory>
    requires low { All (λ k. k < 2 ^ 63) counts.now }
{
    let net = net(alloc, counts, &[])?;
    let bound = form(alloc, weights, Constant::Value(constant as i128))?;
    Ok(bound_true(&net, &bound))
}

#[test]
fn flows_are_kept_or_not(rt: HostRuntime) -> Result<(), Fail> {
    let alloc = rt.alloc();
    let t = [cell(0, 1), NONE, cell(1, 1), NONE];
    assert_eq!(rt; flow(alloc, t, &[1, 1, 0, 0])?, Check::True);
    assert_eq!(rt; flow(alloc, t, &[1, 2, 0, 0])?, Check::False);
    let both = [cell(0, 1), cell(1, 2), cell(2, 3), cell(3, 1)];
    assert_eq!(rt; flow(alloc, both, &[1, 1, 0, 3])?, Check::True);
    assert_eq!(rt; flow(alloc, both, &[1, 1, 1, 0])?, Check::True);
    assert_eq!(rt; flow(alloc, both, &[1, 1, 1, 1])?, Check::False);
    Ok(())
}

#[test]
fn what_cancels_still_counts_in_the_range(rt: HostRuntime) -> Result<(), Fail> {
    let alloc = rt.alloc();
    let one = [cell(0, MOST), NONE, cell(1, MOST), NONE];
    assert_eq!(rt; flow(alloc, one, &[LARGEST, LARGEST, 0, 0])?, Check::True);
    let two = [cell(0, MOST), cell(1, MOST), cell(2, MOST), cell(3, MOST)];
    let largest = [LARGEST, LARGEST, LARGEST, LARGEST];
    assert_eq!(rt; flow(alloc, two, &largest)?, Check::Wide);
    assert_eq!(rt; flow(alloc, two, &[LARGEST, 0, LARGEST, 0])?, Check::True);
    assert_eq!(rt;
        flow(alloc, two, &[LARGEST, 0, 0, LARGEST - 1])?,
        Check::False
    );
    Ok(())
}

#[test]
fn slack_forms_hold_at_first(rt: HostRuntime) -> Result<(), Fail> {
    let alloc = rt.alloc();
    assert_eq!(rt; base(alloc, &[3, 0], &[1, 1], -1)?, Check::True);
    assert_eq!(rt; base(alloc, &[0, 0], &[1, 1], -1)?, Check::False);
    assert_eq!(rt; base(alloc, &[3, 0], &[1, 0], -3)?, Check::True);
    assert_eq!(rt; base(alloc, &[3, 0], &[1, 0], -4)?, Check::False);
    let net = net(alloc, &[0, 0], &[])?;
    let wide = form(alloc, &[0, 0], Constant::Wide)?;
    assert_eq!(rt; bound_true(&net, &wide), Check::Wide);
    Ok(())
}
