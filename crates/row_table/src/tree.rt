ghost use Rattle.std.specs.Prelude.{◌≡◌, ℕ, ◌<◌, ◌++◌, ◌∷◌, [], None, IsSome, Some, drop, ◌^◌, true, false};
ghost use Rattle.std.specs.Prelude.{IfNone, IfSome};
ghost use Rattle.std.specs.Prelude.{slice_set, slice_index_or, take, length};
ghost use Rattle.vsm_elements.specs.Store.{Store, at, among, Distinct};
ghost use Rattle.vsm_elements.specs.Ownership.{Leaves};
ghost use Rattle.vsm_elements.specs.Chain.{element};
ghost use Rattle.row_table.specs.Items.{key, item_in, item_from, last_item, item_named, id_or, Ascends};

use crate::item::Item;
use crate::shape::{Node, last_six, with_rest};
use vsm_elements::{Element, Elements, Id};

/// The head of a list of items, kept in elements as a search tree: their keys ascend.
#[derive(Clone, Copy)]
pub struct ItemTree {
    pub(crate) root: Id,
}

// An element of a higher rank is above one of a lower rank. The ranks are the ids, well mixed, so trees are as flat as
// those of random ranks. Nothing is proved about that.
fn rank(id: Id) -> u32 {
    let a = (id ^ (id >> 16)).wrapping_mul(0x7feb_352d);
    let b = (a ^ (a >> 15)).wrapping_mul(0x846c_a68b);
    b ^ (b >> 16)
}

impl ItemTree {
    ghost use Rattle.row_table.specs.Trees.{items, owned, words_at, key_at, tree_of, IsTree, Opens};
    ghost use Rattle.row_table.specs.Trees.{Merges, Splits, Puts, Takes, Writes};

    // The items of both, first those of this tree.
    pub(crate) fn merge(self, elements: &mut Elements, other: ItemTree) -> ItemTree
        requires first { IsTree elements.old self }
        requires second { IsTree elements.old other }
        requires distinct { Distinct (owned elements.old self ++ owned elements.old other) }
        ensures { Merges elements.old elements.new self other result }
    {
        if self.root == 0 {
            return other;
        }
        if other.root == 0 {
            return self;
        }
        if rank(self.root) > rank(other.root) {
            let node = self.open(elements);
            let rest = node.right.merge(elements, other);
            ItemTree::join(elements, node.left, node.item, rest)
        } else {
            let node = other.open(elements);
            let front = self.merge(elements, node.left);
            ItemTree::join(elements, front, node.item, node.right)
        }
    }

    // The items below a key, and the rest.
    pub(crate) fn split(self, elements: &mut Elements, k: u64) -> (ItemTree, ItemTree)
        requires tree { IsTree elements.old self }
        requires order { Ascends (items elements.old self) }
        ensures { Splits elements.old elements.new self k result.0 result.1 }
    {
        if self.root == 0 {
            return (self, self);
        }
        let node = self.open(elements);
        if u64::from(node.item.words[0]) < k {
            let (front, second) = node.right.split(elements, k);
            let first = ItemTree::join(elements, node.left, node.item, front);
            (first, second)
        } else {
            let (first, rest) = node.left.split(elements, k);
            let second = ItemTree::join(elements, rest, node.item, node.right);
            (first, second)
        }
    }

    /// A list without items. It has no element.
    pub fn new() -> ItemTree
        ensures tree { (s : Store) → IsTree s result }
        ensures items { (s : Store) → items s result ≡ [] }
        ensures owned { (s : Store) → owned s result ≡ [] }
    {
        ItemTree::empty()
    }

    /// The list as one word, to be kept in another element.
    pub fn head(self) -> u32
        ensures { tree_of result ≡ self }
    {
        self.root
    }

    /// The list whose head was kept in this word.
    pub fn from_head(head: u32) -> ItemTree
        ensures { result ≡ tree_of head }
    {
        ItemTree { root: head }
    }

    /// An item of the list, with what is before and after it; `None` if it has none.
    pub fn part(self, elements: &Elements) -> Option<Node>
        requires { IsTree elements.now self }
        ensures none { IfNone result (items elements.now self ≡ []) }
        ensures some { IfSome result (λ n. Opens elements.now self n) }
    {
        if self.root == 0 {
            return None;
        }
        Some(self.open(elements))
    }

    /// The item of this key.
    pub fn find(self, elements: &Elements, k: u64) -> Option<Item>
        requires tree { IsTree elements.now self }
        requires order { Ascends (items elements.now self) }
        ensures { result ≡ item_in k (items elements.now self) }
    {
        let mut tree = self;
        while tree.root != 0 {
            let node = tree.open(elements);
            let here = u64::from(node.item.words[0]);
            if k < here {
                tree = node.left;
            } else if k == here {
                return Some(node.item);
            } else {
                tree = node.right;
            }
        }
        None
    }

    // The id of the first item whose key is this one or above it, or `best` if there is none.
    fn first_from(self, elements: &Elements, k: u64, best: Id) -> Id
        requires tree { IsTree elements.now self }
        requires order { Ascends (items elements.now self) }
        ensures { result ≡ id_or best (item_from k (items elements.now self)) }
    {
        if self.root == 0 {
            return best;
        }
        let node = self.open(elements);
        if u64::from(node.item.words[0]) < k {
            node.right.first_from(elements, k, best)
        } else {
            node.left.first_from(elements, k, node.item.id)
        }
    }

    /// The first item whose key is this one or above it.
    pub fn find_from(self, elements: &Elements, k: u64) -> Option<Item>
        requires tree { IsTree elements.now self }
        requires order { Ascends (items elements.now self) }
        ensures { result ≡ item_from k (items elements.now self) }
    {
        let id = self.first_from(elements, k, 0);
        if id == 0 {
            return None;
        }
        Some(self.get(elements, id))
    }

    // The id of the last item, or `best` if there is none.
    fn last_or(self, elements: &Elements, best: Id) -> Id
        requires { IsTree elements.now self }
        ensures { result ≡ id_or best (last_item (items elements.now self)) }
    {
        if self.root == 0 {
            return best;
        }
        let node = self.open(elements);
        node.right.last_or(elements, node.item.id)
    }

    /// The last item.
    pub fn last(self, elements: &Elements) -> Option<Item>
        requires { IsTree elements.now self }
        ensures { result ≡ last_item (items elements.now self) }
    {
        let id = self.last_or(elements, 0);
        if id == 0 {
            return None;
        }
        Some(self.get(elements, id))
    }

    /// Makes a live element that isn't the tree's an item, under a key that none has.
    pub fn put(&mut self, elements: &mut Elements, item: Item)
        requires tree { IsTree elements.old self.old }
        requires order { Ascends (items elements.old self.old) }
        requires absent { item_in (key item) (items elements.old self.old) ≡ None }
        requires live { IsSome (at elements.old item.id) }
        requires out { among item.id (owned elements.old self.old) ≡ false }
        ensures { Puts elements.old elements.new self.old item self.new }
    {
        let (before, behind) = self.split(elements, u64::from(item.words[0]));
        let one = ItemTree::join(elements, ItemTree::empty(), item, ItemTree::empty());
        let front = before.merge(elements, one);
        *self = front.merge(elements, behind);
    }

    /// Removes the item of this key. Its element stays live, and is no tree's.
    pub fn take(&mut self, elements: &mut Elements, k: u64) -> Item
        requires tree { IsTree elements.old self.old }
        requires range { k < 2 ^ 63 }
        requires order { Ascends (items elements.old self.old) }
        requires there { IsSome (item_in k (items elements.old self.old)) }
        ensures { Takes elements.old elements.new self.old k result self.new }
    {
        let (before, rest) = self.split(elements, k);
        let (one, behind) = rest.split(elements, k + 1);
        let item = one.open(elements).item;
        *self = before.merge(elements, behind);
        item
    }

    /// The item of this id.
    pub fn get(self, elements: &Elements, id: Id) -> Item
        requires tree { IsTree elements.now self }
        requires there { among id (owned elements.now self) ≡ true }
        ensures named { result.id ≡ id }
        ensures stored { result.words ≡ drop 1 ((element elements.now id).words) }
        ensures item { item_named id (items elements.now self) ≡ Some result }
    {
        let words = elements.get(id).words;
        Item {
            id,
            words: last_six(words),
        }
    }

    /// Sets the words of this id's item after its key, which stays.
    pub fn set_rest(self, elements: &mut Elements, id: Id, rest: [u32; 5])
        requires tree { IsTree elements.old self }
        requires there { among id (owned elements.old self) ≡ true }
        ensures { Writes elements.old elements.new self id (key_at elements.old id ∷ rest) }
    {
        let old = elements.get(id);
        elements.set(
            id,
            Element {
                next: old.next,
                words: with_rest(old.words, rest),
            },
        );
    }

    /// Sets the word of this id's item at a place, and returns the old one.
    pub fn swap_word(self, elements: &mut Elements, id: Id, k: usize, word: u32) -> u32
        requires tree { IsTree elements.old self }
        requires there { among id (owned elements.old self) ≡ true }
        requires place { k < 6 }
        ensures writes { Writes elements.old elements.new self id (slice_set (words_at elements.old id) k word) }
        ensures answer { result ≡ slice_index_or (words_at elements.old id) k 0 }
        ensures here { slice_index_or (slice_set (words_at elements.old id) k word) k 0 ≡ word }
    {
        elements.swap_word(id, 1 + k, word)
    }

    /// Sets the last four words of this id's item.
    pub fn set_last(self, elements: &mut Elements, id: Id, four: [u32; 4])
        requires tree { IsTree elements.old self }
        requires there { among id (owned elements.old self) ≡ true }
        ensures writes { Writes elements.old elements.new self id (take 2 (words_at elements.old id) ++ four) }
        ensures six { length (words_at elements.old id) ≡ 6 }
    {
        elements.set_four(id, 3, four);
    }

    /// Gives back every element of the tree.
    pub fn discard(self, elements: &mut Elements)
        requires tree { IsTree elements.old self }
        ensures { Leaves elements.old elements.new (owned elements.old self) [] }
    {
        if self.root == 0 {
            return;
        }
        let node = self.open(elements);
        node.left.discard(elements);
        node.right.discard(elements);
        elements.give(node.item.id);
    }
}
