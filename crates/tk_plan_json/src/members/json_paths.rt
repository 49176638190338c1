//! Places in a JSON value.

/// The place of a value. The place of an array's item, or of an item's item, is written out only
/// where it is wanted.
#[derive(Clone, Copy, Drop)]
pub enum JsonPath<'a> {
    /// The value at this JSON Pointer.
    Whole(&'a str),
    /// The item of this index of the array at the JSON Pointer.
    Item(&'a str, usize),
    /// The item of the second index of the array that is that item.
    Inner(&'a str, usize, usize),
}
