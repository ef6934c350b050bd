use colour_sorts::SortFault;
use colour_tables::{BuildFault, Built, cut, word_for};
use std::alloc::Global;

/// Whether declarations were refused with this id and the rule of this word, or with `not-apart` where two ids or
/// constants are the same.
pub fn is_refused(built: &Result<Built, BuildFault>, bad: &[u8], word: &[u8]) -> bool {
    match built {
        Err(BuildFault::Sorts(SortFault::Bad { id, rule })) => {
            id.bytes() == bad && word_for(*rule) == word
        }
        Err(BuildFault::NotApart) => word == b"not-apart".as_slice(),
        _ => false,
    }
}

/// `ID RULE DECLARATIONS`.
fn is_right(alloc: Global, line: &[u8]) -> bool {
    let (id, rest) = cut(line, b' ');
    let (word, declared) = cut(rest, b' ');
    is_refused(&Built::written(alloc, declared), id, word)
}

/// The number of the first line that isn't right.
fn first_wrong(alloc: Global, lines: &[u8]) -> Option<usize> {
    for (number, line) in lines.split(|byte| *byte == b'\n').enumerate() {
        if !line.is_empty() && !is_right(alloc, line) {
            return Some(number);
        }
    }
    None
}

static SORTS: &[u8] = b"
R range-upside-down R:3/1
Wide range-upside-down Wide:product Big None Empty Down;Down:2/1;Empty:listed;None:product;Big:0/1048576
Wide empty-sort Wide:product Big None Empty Down;Down:dot;Empty:listed;None:product;Big:0/1048576
Wide empty-sort Wide:product Big None Empty Down;Down:dot;Empty:cyclic;None:product;Big:0/1048576
Wide empty-product Wide:product Big None Empty Down;Down:dot;Empty:dot;None:product;Big:0/1048576
Wide domain-limit Wide:product Big None Empty Down;Down:dot;Empty:dot;None:dot;Big:0/1048576
Down range-upside-down None:dot;Down:2/1;Lost:Nowhere;Big:0/1048576
Lost unknown-sort None:dot;Lost:Nowhere;Big:0/1048576;Down:2/1
A sort-circle None:dot;A:A;Lost:Nowhere
B sort-circle D:dot;B:product D A;A:B;Lost:Nowhere
C sort-circle D:dot;C:B;B:product D A;A:B
A unknown-sort D:dot;A:product A Lost;Lost:Nowhere
- not-apart A:listed x;B:cyclic y x
- not-apart A:dot;B:dot;A:dot
";

#[test]
fn named_sorts_that_break_a_rule(rt: HostRuntime) {
    assert!(rt; first_wrong(rt.alloc(), SORTS).is_none());
}

static PARTITIONS: &[u8] = b"
P partition-cover C:cyclic c1 c2 c3;P:C|e c1 c2|f c3 c3
P partition-cover C:cyclic c1 c2 c3;P:C|e c1 c2|f c3 c1
P partition-cover C:cyclic c1 c2 c3;P:C|e c1|f c2
P partition-member C:cyclic c1 c2 c3;D:cyclic d1;P:C|e c1 c1|f c3 d1
P partition-member C:cyclic c1 c2 c3;P:C|e c4 c1|f c2 c3
P partition-member C:cyclic c1 c2 c3;P:C|e 1/1/3
P partition-member P:1/4|e 2/1/4 4/1/4|f 1/1/5 3/1/5
P partition-member P:1/4|e 2/1/4 4/1/4 0/1/4|f 1/1/4 3/1/4
P partition-cover P:1/4|e 2/1/4 4/1/4|f 1/1/4 3/1/4 4/1/4
P partition-cover P:1/4|e 2/1/4 4/1/4|f 1/1/4
P partition-sort P:dot|e|f
P partition-sort C:cyclic c1 c2 c3;P:product C C|e|f
P empty-product P:product|e|f
P unknown-sort P:B|e|f
P range-upside-down P:2/1|e|f
P domain-limit P:0/1048576|e|f
P partition-cover P:0/1|e1|e2;Q:dot|e3|e4
Q partition-sort Q:dot|e3|e4;P:0/1|e1|e2
R range-upside-down Q:dot|e3|e4;R:3/1
";

#[test]
fn partitions_that_break_a_rule(rt: HostRuntime) {
    assert!(rt; first_wrong(rt.alloc(), PARTITIONS).is_none());
}
