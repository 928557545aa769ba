//! A place between two frames of a clip.

/// A place between the frames `first` and `first + 1` of a clip: the second has the weight
/// `weight`, from 0 to one less than the output rate, and the first has the rest of that
/// rate.
#[derive(Clone, Copy, Debug, PartialEq, Eq)]
pub struct Point {
    pub first: u64,
    pub weight: u32,
}
