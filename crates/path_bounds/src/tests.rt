use crate::PathBounds;
use std::alloc::Global;

/// The bounds of the first two places.
fn read(path: &PathBounds) -> Option<(u64, Option<u64>, u64, Option<u64>)> {
    let bounds = path.bounds();
    Some((
        *bounds.lower.get(0)?,
        *bounds.upper.get(0)?,
        *bounds.lower.get(1)?,
        *bounds.upper.get(1)?,
    ))
}

/// Names a lower bound, where there is room.
fn raise(path: &mut PathBounds, place: usize, count: u64) -> bool {
    let fits = place < path.places() && path.lowers() < path.room();
    if fits {
        path.name_lower(place, count);
    }
    fits
}

/// Names an upper bound, where there is room.
fn limit(path: &mut PathBounds, place: usize, count: u64) -> bool {
    let fits = place < path.places() && path.uppers() < path.room();
    if fits {
        path.name_upper(place, count);
    }
    fits
}

/// A path over two places, with room for three bounds of each kind.
fn begun(alloc: Global) -> Option<PathBounds> {
    let mut path = PathBounds::new(alloc, 2).ok()?;
    path.reserve(3).ok()?;
    Some(path)
}

/// The bounds after four were named, and then those that are left.
fn cut(
    alloc: Global,
    lowers: usize,
    uppers: usize,
) -> Option<(u64, Option<u64>, u64, Option<u64>)> {
    let mut path = begun(alloc)?;
    let named = raise(&mut path, 0, 5)
        && raise(&mut path, 0, 3)
        && raise(&mut path, 0, 7)
        && limit(&mut path, 0, 4)
        && limit(&mut path, 1, 0)
        && limit(&mut path, 0, 2);
    if !named || raise(&mut path, 1, 1) || limit(&mut path, 1, 1) {
        return None;
    }
    path.cut(lowers, uppers);
    read(&path)
}

#[test]
fn nothing_is_named_at_first(rt: HostRuntime) {
    let path = PathBounds::new(rt.alloc(), 2).ok();
    assert_eq!(rt; path.and_then(|path| read(&path)), Some((0, None, 0, None)));
}

#[test]
fn the_sharpest_bound_counts(rt: HostRuntime) {
    assert_eq!(rt; cut(rt.alloc(), 3, 3), Some((7, Some(2), 0, Some(0))));
    assert_eq!(rt; cut(rt.alloc(), 9, 9), Some((7, Some(2), 0, Some(0))));
}

#[test]
fn what_is_taken_back_leaves_what_was_before(rt: HostRuntime) {
    assert_eq!(rt; cut(rt.alloc(), 2, 2), Some((5, Some(4), 0, Some(0))));
    assert_eq!(rt; cut(rt.alloc(), 1, 1), Some((5, Some(4), 0, None)));
    assert_eq!(rt; cut(rt.alloc(), 0, 0), Some((0, None, 0, None)));
    assert_eq!(rt; cut(rt.alloc(), 3, 0), Some((7, None, 0, None)));
}
