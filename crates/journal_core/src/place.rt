/// Where a body lies in the image, and how many bytes it has.
#[derive(Clone, Copy, Debug, Eq, PartialEq)]
pub struct Place {
    pub at: u64,
    pub length: u64,
}
