use super::*;

/// Whether the binding of a number is as expected, whatever stood in its place.
fn is_at(sizes: &[u32], number: u32, indices: &mut [u32], expected: &[u32]) -> bool {
    if number as u64 >= count_of(sizes) || indices.len() != sizes.len() {
        return false;
    }
    binding_at(sizes, number, indices);
    *indices == *expected
}

#[test]
fn products_are_counted(rt: HostRuntime) {
    assert_eq!(rt; count_of(&[]), 1);
    assert_eq!(rt; count_of(&[2, 3, 4]), 24);
    assert_eq!(rt;
        count_of(&[4_194_304, 4_294_967_295, 1_024]),
        18_446_744_069_414_584_320
    );
}

#[test]
fn a_product_past_the_range_is_told_as_the_last(rt: HostRuntime) {
    assert_eq!(rt;
        count_of(&[65_536, 65_536, 65_536, 65_536]),
        18_446_744_073_709_551_615
    );
}

#[test]
fn no_values_are_no_bindings_even_past_the_range(rt: HostRuntime) {
    assert_eq!(rt;
        count_of(&[65_536, 65_536, 65_536, 65_536, 65_536, 0, 2]),
        0
    );
}

#[test]
fn the_first_variable_is_the_most_significant(rt: HostRuntime) {
    let mut indices = [9, 9];
    assert!(rt; is_at(&[2, 3], 0, &mut indices, &[0, 0]));
    assert!(rt; is_at(&[2, 3], 2, &mut indices, &[0, 2]));
    assert!(rt; is_at(&[2, 3], 3, &mut indices, &[1, 0]));
    assert!(rt; is_at(&[2, 3], 5, &mut indices, &[1, 2]));
}

#[test]
fn without_variables_there_is_one_binding(rt: HostRuntime) {
    let mut indices = [];
    assert!(rt; is_at(&[], 0, &mut indices, &[]));
}
