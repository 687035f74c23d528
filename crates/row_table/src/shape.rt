ghost use Rattle.std.specs.Prelude.{◌≡◌, ◌<◌, ◌∷◌, ◌++◌, IsSome, [], drop, slice_index_or};
ghost use Rattle.vsm_elements.specs.Store.{Store, at, Distinct};

use crate::item::Item;
use crate::tree::ItemTree;
use vsm_elements::{Element, Elements};

/// An item of a list, and the lists of those before and after it.
#[derive(Clone, Copy)]
pub struct Node {
    pub left: ItemTree,
    pub item: Item,
    pub right: ItemTree,
}

pub(crate) fn last_six(words: [u32; 7]) -> [u32; 6]
    ensures { result ≡ drop 1 words }
{
    [words[1], words[2], words[3], words[4], words[5], words[6]]
}

pub(crate) fn seven(first: u32, words: [u32; 6]) -> [u32; 7]
    ensures { result ≡ first ∷ words }
{
    [
        first, words[0], words[1], words[2], words[3], words[4], words[5],
    ]
}

// The words of a node whose item gets others after its key.
pub(crate) fn with_rest(words: [u32; 7], rest: [u32; 5]) -> [u32; 7]
    ensures { result ≡ slice_index_or words 0 0 ∷ slice_index_or (drop 1 words) 0 0 ∷ rest }
{
    [
        words[0], words[1], rest[0], rest[1], rest[2], rest[3], rest[4],
    ]
}

impl ItemTree {
    ghost use Rattle.row_table.specs.Trees.{items, owned, IsTree, Opens, Joins};

    // The tree without items.
    pub(crate) fn empty() -> ItemTree
        ensures tree { (s : Store) → IsTree s result }
        ensures items { (s : Store) → items s result ≡ [] }
        ensures owned { (s : Store) → owned s result ≡ [] }
        ensures root { result.root ≡ 0 }
    {
        ItemTree { root: 0 }
    }

    // The node at the top.
    pub(crate) fn open(self, elements: &Elements) -> Node
        requires tree { IsTree elements.now self }
        requires some { 0 < self.root }
        ensures { Opens elements.now self result }
    {
        let Element { next, words } = elements.get(self.root);
        Node {
            left: ItemTree { root: next },
            item: Item {
                id: self.root,
                words: last_six(words),
            },
            right: ItemTree { root: words[0] },
        }
    }

    // A live element becomes a node over two trees.
    pub(crate) fn join(
        elements: &mut Elements,
        left: ItemTree,
        item: Item,
        right: ItemTree,
    ) -> ItemTree
        requires left { IsTree elements.old left }
        requires right { IsTree elements.old right }
        requires distinct { Distinct (owned elements.old left ++ item.id ∷ owned elements.old right) }
        requires live { IsSome (at elements.old item.id) }
        ensures { Joins elements.old elements.new left item right result }
    {
        elements.ids_in_range();
        elements.set(
            item.id,
            Element {
                next: left.root,
                words: seven(right.root, item.words),
            },
        );
        ItemTree { root: item.id }
    }
}
