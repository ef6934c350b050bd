use crate::rows::first_wrong;

/// Colours of x, y, z, r, p and d.
const COLOURS: &[u32] = &[1, 1, 2, 3, 4, 0];

static TRUTHS: &[u8] = b"
guard true|yes
guard false|no
guard true|and:0
guard false|or:0
guard false|yes no and:2
guard true|yes yes yes and:3
guard true|no yes or:2
guard false|no no or:2
guard false|yes not
guard false|no not not
guard true|no no imply
guard true|no yes imply
guard false|yes no imply
guard true|yes yes imply
guard true|yes no imply not
guard true|no yes and:2 yes or:2
guard true|no no no imply imply
guard true|x a1 =
guard false|x a0 =
guard true|x a0 <>
guard false|x x <>
guard true|x a2 <
guard false|x x <
guard true|x x <=
guard false|a2 x <=
guard true|x a0 >
guard false|x a2 >=
guard true|x x >=
guard true|b1 b0 <
guard false|b1 b0 >
guard false|z z succ <
guard true|-1/-1/2 r <
guard true|x y tuple:2 a1 b0 tuple:2 =
guard true|p a2 b1 tuple:2 =
guard true|d dot =
guard true|x block:Side inner =
guard false|x block:Side outer =
guard true|a0 block:Side a2 block:Side =
guard false|a0 block:Side a2 block:Side <>
guard true|x block:Side a2 block:Side <>
guard true|inner inner =
guard true|inner outer <>
guard true|z block:Turn two =
guard true|z pred block:Turn one =
guard true|z succ block:Turn z block:Turn =
guard true|r block:Reach far =
guard true|0/-1/2 block:Reach near =
guard true|r block:Reach -1/-1/2 block:Reach =
";

#[test]
fn truths_of_guards(rt: HostRuntime) {
    assert!(rt; first_wrong(rt.alloc(), COLOURS, TRUTHS).is_none());
}

static REFUSED: &[u8] = b"
refused-guard 0 sorts-differ|x y =
refused-guard 2 unknown-variable|y q =
refused-guard 0 not-a-colour|all:A x =
refused-guard 0 not-a-colour|x x times:1 <>
refused-guard 0 sorts-differ|x inner =
refused-guard 0 sorts-differ|inner one =
refused-guard 0 not-a-colour|inner inner <
refused-guard 0 sorts-differ|x y <=
refused-guard 0 no-order|d d >
refused-guard 0 no-order|p p >=
refused-guard 1 not-cyclic|x succ y <
refused-guard 4 unknown-variable|yes y q = and:2
refused-guard 7 unknown-variable|x x = not y q = imply
refused-guard 1 sorts-differ|x y = y q = or:2
refused-guard 9 sorts-differ|x x = x x = x y = not and:2 or:2
";

#[test]
fn guards_that_are_refused(rt: HostRuntime) {
    assert!(rt; first_wrong(rt.alloc(), COLOURS, REFUSED).is_none());
}

static USES: &[u8] = b"
guard-uses x|x a0 = z z succ < imply
guard-uses - y|z z succ < y b0 = and:2
";

#[test]
fn variables_that_occur_in_guards(rt: HostRuntime) {
    assert!(rt; first_wrong(rt.alloc(), COLOURS, USES).is_none());
}
