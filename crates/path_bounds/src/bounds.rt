/// The bounds of each place, by its number.
#[derive(Debug, Drop)]
pub struct Bounds {
    /// The lower bounds, 0 where none is named.
    pub lower: Vec<u64>,
    /// The upper bounds, where one is named.
    pub upper: Vec<Option<u64>>,
}
