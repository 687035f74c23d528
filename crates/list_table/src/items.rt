//! Items of a list: a walk to a place, the words of the item there, and items inserted and removed.

ghost use Rattle.std.specs.Prelude.{◌≡◌, ◌+◌, ◌≤◌, ◌<◌, ◌++◌, ◌∷◌, Some, slice_get, take, drop};
ghost use Rattle.vsm_elements.specs.Chain.{links, owned, last_or, IsChain};
ghost use Rattle.vsm_elements.specs.Ownership.{Leaves};
ghost use Rattle.list_table.specs.Stocks.{items_of};

use vsm_elements::{Chain, Elements, Id};

/// The id of the item before place `k`, or 0 at the front.
pub fn before(list: Chain, elements: &Elements, k: u32) -> Id
    requires chain { IsChain elements.now list }
    requires within { k ≤ list.count }
    ensures { result ≡ last_or 0 (take k (links elements.now list)) }
{
    let mut id = 0;
    for i in 0..k {
        id = list.next(elements, i, id);
    }
    id
}

/// The words of the item at place `k`.
pub fn item(list: Chain, elements: &Elements, k: u32) -> [u32; 7]
    requires chain { IsChain elements.now list }
    requires within { k < list.count }
    ensures { slice_get (items_of (links elements.now list)) k ≡ Some result }
{
    let behind = before(list, elements, k);
    let id = list.next(elements, k, behind);
    list.words(elements, id)
}

/// Inserts an item at place `k`, before the one that was there. It takes one element.
pub fn insert(list: &mut Chain, elements: &mut Elements, k: u32, words: [u32; 7])
    requires chain { IsChain elements.old list.old }
    requires within { k ≤ list.old.count }
    requires room { 0 < elements.old.spare }
    ensures chain { IsChain elements.new list.new }
    ensures count { list.new.count ≡ list.old.count + 1 }
    ensures items { items_of (links elements.new list.new)
        ≡ take k (items_of (links elements.old list.old)) ++ words ∷ drop k (items_of (links elements.old list.old)) }
    ensures owned { Leaves elements.old elements.new (owned elements.old list.old) (owned elements.new list.new) }
    ensures spares { elements.new.spare + 1 ≡ elements.old.spare }
{
    let behind = before(*list, elements, k);
    list.insert(elements, k, behind, words);
}

/// Removes `count` items, from place `k` on. Their elements become spare ones.
pub fn remove(list: &mut Chain, elements: &mut Elements, k: u32, count: u32)
    requires chain { IsChain elements.old list.old }
    requires within { k + count ≤ list.old.count }
    ensures chain { IsChain elements.new list.new }
    ensures count { list.new.count + count ≡ list.old.count }
    ensures items { items_of (links elements.new list.new)
        ≡ take k (items_of (links elements.old list.old)) ++ drop (k + count) (items_of (links elements.old list.old)) }
    ensures owned { Leaves elements.old elements.new (owned elements.old list.old) (owned elements.new list.new) }
    ensures spares { elements.new.spare ≡ elements.old.spare + count }
{
    let behind = before(*list, elements, k);
    let mut left = count;
    while left > 0 {
        list.remove(elements, k, behind);
        left -= 1;
    }
}
