/// That many consecutive numbers, from the first one on: an area of doublewords, or a run of pages.
#[derive(Clone, Copy, Debug, PartialEq, Eq)]
pub struct Run {
    pub start: u32,
    pub len: u32,
}
