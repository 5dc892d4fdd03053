// How many entries a memory in order has, and where the last of them ends.
#[derive(Clone, Copy)]
pub struct Extent {
    pub count: u32,
    pub end: usize,
}
