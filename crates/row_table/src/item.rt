use vsm_elements::Id;

/// An item of a tree: the id of its element, and its words. The first word is its key.
#[derive(Clone, Copy)]
pub struct Item {
    pub id: Id,
    pub words: [u32; 6],
}
