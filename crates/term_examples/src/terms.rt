use crate::rows::first_wrong;

/// Colours in the middle of the sorts of x, y, z, r, p and d, or the last ones where there is no middle.
const MIDDLE: &[u32] = &[1, 1, 2, 3, 4, 0];

static COLOURS: &[u8] = b"
value 1*1|x
value 3*1|r
value 0*1|d
value 4*1|p
value 2*1|a2
value 1*1|b0
value 0*1|dot
value 1*1|0/-1/2
value 0*1|-1/-1/2
value 3*1|2/-1/2
value 0*1|7/7/9
value 0*1|z succ
value 1*1|z succ succ
value 2*1|c0 pred
value 2*1|z pred succ
value 0*1|c1 pred
";

#[test]
fn values_of_colours(rt: HostRuntime) {
    assert!(rt; first_wrong(rt.alloc(), MIDDLE, COLOURS).is_none());
}

static AT_FIRST: &[u8] = b"
value 2*1|z pred
value 1*1|z succ
value 0*1|x y tuple:2
value 0*1 2*1 4*1|all:A y tuple:2
value 1*1 2*1 3*1|all:R r minus
";

static AT_LAST: &[u8] = b"
value 1*1|z pred
value 0*1|z succ
value 5*1|x y tuple:2
value 35*1|p p tuple:2
value 0*1 1*1 2*1|all:R r minus
";

#[test]
fn values_at_the_first_and_the_last_colours(rt: HostRuntime) {
    assert!(rt; first_wrong(rt.alloc(), &[0, 0, 0, 0, 0, 0], AT_FIRST).is_none());
    assert!(rt; first_wrong(rt.alloc(), &[2, 1, 2, 3, 5, 0], AT_LAST).is_none());
}

static MULTISETS: &[u8] = b"
value 3*1|x y tuple:2
value 1*1|x tuple:1
value 1*1|dot x tuple:2
value 6*1|z z succ tuple:2
value 9*1|y x y tuple:2 tuple:2
value 11*1|x y z tuple:3
value 1*1 3*1 5*1|all:A y tuple:2
value 2*1 3*1|x all:B tuple:2
value 0*1 1*1 2*1 3*1 4*1 5*1|all:A all:B tuple:2
value 4*1 10*1|all:B p tuple:2
value 6*1 7*1 8*1 9*1 10*1 11*1|y all:P tuple:2
value 2*1 3*1 8*1 9*1|all:B x all:B tuple:3
value 0*1 1*1 2*1|all:A
value 0*1|all:D
value 0*1 1*1|all:4/5
value|empty:A
value 1*3|x times:3
value 0*2 1*2 2*2|all:A times:2
value|all:A scaled:0
value|x times:0
value 1*6|x times:3 scaled:2
value 1*9223372036854775807|x scaled:9223372036854775807
value 1*1|x add:1
value 1*2|x x add:2
value 0*2 1*2 2*1|x a0 all:A add:3
value 1*2|empty:A x times:2 add:2
value 1*2 3*2 5*2|all:A y tuple:2 times:2
value 1*1 2*1 3*2 5*1|x all:B tuple:2 all:A y tuple:2 add:2
value 0*1 2*1|all:A x minus
value|x x minus
value 2*1|all:A x minus a0 minus
value 1*1|all:A all:A x minus minus
value 0*1 2*1|all:A x add:2 x times:2 minus
value|empty:A x scaled:0 minus
value 0*1 1*1 2*1|all:A all:A scaled:0 minus
value 1*1 5*1|all:A y tuple:2 x y tuple:2 minus
value 0*1 1*1 4*1 5*1|all:A all:B tuple:2 x all:B tuple:2 minus
value 2*1|z succ pred
value 0*1|z pred pred
value 3*1|0/-1/2 y tuple:2
value 4*1|z pred x tuple:2
value 5*1|a2 b0 tuple:2
value 0*2|c0 times:2
value 0*4|dot times:4
value 3*2|2/-1/2 times:2
value 0*2|z succ times:2
value|empty:A times:5
value 1*6|x times:2 times:3
value 0*4 1*4 2*4|all:A scaled:2 times:2
value 1*4|x x add:2 times:2
value 0*2 2*2|all:A x minus times:2
value 1*3|z pred scaled:3
value 0*3 2*3|all:A x minus scaled:3
value 0*2 1*2|x a0 add:2 scaled:2
value 3*2|x y tuple:2 scaled:2
value|empty:A scaled:2
value 1*6|x scaled:2 scaled:3
value 0*2|dot d add:2
value 1*1 3*1|0/-1/2 r add:2
value 0*1 1*1|z succ z pred add:2
value 0*1 1*4 2*1|all:A x minus x scaled:2 x x add:2 add:3
value|dot d minus
value 0*1 2*1 3*1|all:R 0/-1/2 minus
value 1*1 2*1|all:C z succ minus
value 0*1 2*1|all:C z pred minus
value 0*1 1*1 2*1|all:A empty:A minus
value 1*1 2*1|all:A scaled:2 all:A a0 add:2 minus
value none|all:A x times:2 minus
value none|all:A x minus x minus
value none|x all:A minus
value none|empty:A x minus scaled:0
value none|x empty:A x minus add:2
value none|x y tuple:2 all:A y tuple:2 minus
";

#[test]
fn values_of_multisets(rt: HostRuntime) {
    assert!(rt; first_wrong(rt.alloc(), MIDDLE, MULTISETS).is_none());
}

static REFUSED: &[u8] = b"
refused 0 unknown-variable|q
refused 0 unknown-operator|none
refused 0 range-constant|3/-1/2
refused 0 range-upside-down|2/3/1
refused 0 domain-limit|0/0/1048576
refused 0 unknown-sort|all:Q
refused 0 range-upside-down|all:1/0
refused 0 not-cyclic|x succ
refused 0 not-cyclic|r pred
refused 0 not-cyclic|all:C succ
refused 0 not-cyclic|inner succ
refused 0 not-a-colour|x inner tuple:2
refused 0 not-a-colour|x y times:1 tuple:2
refused 0 not-a-colour|y all:A y tuple:2 tuple:2
refused 0 domain-limit|all:0/2047 all:0/1023 tuple:2
refused 0 sorts-differ|x y add:2
refused 0 not-a-multiset|x inner add:2
refused 0 not-a-multiset|inner times:1
refused 0 sorts-differ|x y minus
refused 0 not-a-multiset|x inner minus
refused 0 unknown-partition|x block:None
refused 0 not-a-colour|all:A block:Side
refused 0 sorts-differ|y block:Side
refused 2 not-cyclic|x x succ q add:3
refused 1 unknown-variable|q x y add:2 add:2
refused 3 unknown-variable|x times:2 q minus
refused 6 unknown-variable|x x tuple:2 x q tuple:2 add:2
refused 0 weight|x x add:2 scaled:9223372036854775807
refused 1 weight|x x add:2 scaled:9223372036854775807 scaled:0
refused 3 weight|x x add:2 scaled:9223372036854775807 scaled:0 x x add:2 scaled:9223372036854775807 scaled:0 add:2 scaled:0
refused 1 weight|x x scaled:9223372036854775807 add:2 times:0
refused none|x scaled:9223372036854775807
refused 0 weight|x scaled:9223372036854775807 times:2
refused none|all:A scaled:3074457345618258602
refused 0 weight|all:A scaled:3074457345618258603
marking 2 variable-in-marking|all:A x add:2
marking 0 variable-in-marking|q
marking none|all:A a0 add:2
";

#[test]
fn terms_that_are_refused(rt: HostRuntime) {
    assert!(rt; first_wrong(rt.alloc(), MIDDLE, REFUSED).is_none());
}

static WEIGHTS: &[u8] = b"
weights 1 1|x
weights 1 1 block|inner
weights 1 1 block|x block:Side
weights 3 3|all:A
weights 0 0|empty:A
weights 6 3|all:A times:2
weights 0 3|all:A scaled:0
weights 1 1|x y tuple:2
weights 3 3|all:A y tuple:2
weights 6 6|all:A all:B tuple:2
weights 2 2|x x add:2
weights 4 4|all:A x minus
weights 8 4|x times:5 all:A add:2
";

#[test]
fn gross_totals_and_supports(rt: HostRuntime) {
    assert!(rt; first_wrong(rt.alloc(), MIDDLE, WEIGHTS).is_none());
}

static PARTS: &[u8] = b"
parts 0 x|all:A x minus
parts 0|all:A a0 minus
parts 1 - y|b1 y add:2
";

#[test]
fn sorts_and_variables_of_terms(rt: HostRuntime) {
    assert!(rt; first_wrong(rt.alloc(), MIDDLE, PARTS).is_none());
}
