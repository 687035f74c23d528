ghost use Rattle.std.specs.Prelude.{◌≡◌, ◌≢◌, ℕ, ◌+◌, ◌-◌, ◌%◌, ◌^◌, ◌<◌, ◌≤◌, ◌++◌, ◌∷◌, []};
ghost use Rattle.std.specs.Prelude.{Some, IsSome, true, false, Bool, slice_get, slice_set, take, drop, length};
ghost use Rattle.vsm_elements.specs.Store.{Store, Distinct, at, among};
ghost use Rattle.vsm_elements.specs.Ownership.{Leaves};
ghost use Rattle.run_tree.specs.Shape.{longest, room_of, total};

use crate::run::Run;
use crate::shape::{Rooms, room};
use vsm_elements::{Element, Elements, Id};

/// The head of a list of runs, kept in elements as a search tree.
#[derive(Clone, Copy, Debug, PartialEq, Eq)]
pub struct RunTree {
    pub root: Id,
    pub count: u32,
}

/// The place that a search found, with the run before the place and the one at it, if these exist.
#[derive(Clone, Copy)]
pub struct FoundRun {
    pub index: u32,
    pub before: Run,
    pub behind: Run,
}

// An element of a higher rank is above one of a lower rank. The ranks are the ids, well mixed, so trees are as flat as
// those of random ranks. Nothing is proved about that.
fn rank(id: Id) -> u32 {
    let a = id.wrapping_mul(0x7feb_352d);
    (a ^ (a >> 15)).wrapping_mul(0x846c_a68b)
}

impl RunTree {
    ghost use Rattle.run_tree.specs.Trees.{runs, owned, IsTree, Merges, Splits, Puts, CutsOut, Writes};
    ghost use Rattle.run_tree.specs.Nodes.{AreRooms, top_place};
    ghost use Rattle.run_tree.specs.Searches.{SeeksTo, FindsRuns, RoomsTo, IsMost};

    // The runs of both, first those of this tree.
    pub(crate) fn merge(self, elements: &mut Elements, other: RunTree) -> RunTree
        requires first { IsTree elements.old self }
        requires second { IsTree elements.old other }
        requires distinct { Distinct (owned elements.old self ++ owned elements.old other) }
        ensures { Merges elements.old elements.new self other result }
    {
        if self.count == 0 {
            return other;
        }
        if other.count == 0 {
            return self;
        }
        if rank(self.root) > rank(other.root) {
            let node = self.open(elements);
            let rest = node.right.merge(elements, other);
            RunTree::join(elements, node.left, node.id, node.run, rest)
        } else {
            let node = other.open(elements);
            let front = self.merge(elements, node.left);
            RunTree::join(elements, front, node.id, node.run, node.right)
        }
    }

    // The first `k` runs, and the rest.
    pub(crate) fn split(self, elements: &mut Elements, k: u32) -> (RunTree, RunTree)
        requires tree { IsTree elements.old self }
        requires place { k ≤ self.count }
        ensures { Splits elements.old elements.new self k result.0 result.1 }
    {
        if self.count == 0 {
            return (self, self);
        }
        let node = self.open(elements);
        if k <= node.left.count {
            let (first, rest) = node.left.split(elements, k);
            let second = RunTree::join(elements, rest, node.id, node.run, node.right);
            (first, second)
        } else {
            let (front, second) = node.right.split(elements, k - node.left.count - 1);
            let first = RunTree::join(elements, node.left, node.id, node.run, front);
            (first, second)
        }
    }

    // Whether the top stays the top if this element is added to the tree.
    fn stays(self, id: Id) -> bool
        ensures { result ≡ true → 0 < self.count }
    {
        self.count > 0 && rank(id) <= rank(self.root)
    }

    // Makes a live element the run at `k`, and the top.
    fn put_over(self, elements: &mut Elements, k: u32, id: Id, run: Run) -> RunTree
        requires tree { IsTree elements.old self }
        requires place { k ≤ self.count }
        requires live { IsSome (at elements.old id) }
        requires apart { among id (owned elements.old self) ≡ false }
        ensures { Puts elements.old elements.new self k id run result }
    {
        let (before, behind) = self.split(elements, k);
        RunTree::join(elements, before, id, run, behind)
    }

    // Makes a live element the run at `k`, below the top, which stays. Each node on the way is updated in advance.
    fn put(self, elements: &mut Elements, k: u32, id: Id, run: Run)
        requires tree { IsTree elements.old self }
        requires some { 0 < self.count }
        requires place { k ≤ self.count }
        requires live { IsSome (at elements.old id) }
        requires apart { among id (owned elements.old self) ≡ false }
        ensures { Puts elements.old elements.new self k id run
            (record { root = self.root; count = self.count + 1 }) }
    {
        let node = self.open(elements);
        let middle = node.left.count;
        let rooms = node.rooms.with(Rooms::of(run));
        if k <= middle {
            if node.left.stays(id) {
                self.announce(elements, node, middle + 1, rooms);
                node.left.put(elements, k, id, run);
            } else {
                let left = node.left.put_over(elements, k, id, run);
                let _head = RunTree::join(elements, left, node.id, node.run, node.right);
            }
        } else if node.right.stays(id) {
            self.announce(elements, node, middle, rooms);
            node.right.put(elements, k - middle - 1, id, run);
        } else {
            let right = node.right.put_over(elements, k - middle - 1, id, run);
            let _head = RunTree::join(elements, node.left, node.id, node.run, right);
        }
    }

    // Makes a live element the run at `k`.
    fn put_in(self, elements: &mut Elements, k: u32, id: Id, run: Run) -> RunTree
        requires tree { IsTree elements.old self }
        requires place { k ≤ self.count }
        requires live { IsSome (at elements.old id) }
        requires apart { among id (owned elements.old self) ≡ false }
        ensures { Puts elements.old elements.new self k id run result }
    {
        if self.count == 0 {
            return RunTree::join(elements, self, id, run, self);
        }
        if !self.stays(id) {
            return self.put_over(elements, k, id, run);
        }
        elements.ids_in_range();
        self.put(elements, k, id, run);
        RunTree {
            root: self.root,
            count: self.count + 1,
        }
    }

    // The tree without the run at `k`, and the id of its element, which stays live.
    fn cut(self, elements: &mut Elements, k: u32) -> (RunTree, Id)
        requires tree { IsTree elements.old self }
        requires place { k < self.count }
        ensures cuts { CutsOut elements.old elements.new self k result.0 result.1 }
        ensures root { k ≢ top_place elements.old self → result.0.root ≡ self.root }
    {
        let node = self.open(elements);
        if k < node.left.count {
            let (left, id) = node.left.cut(elements, k);
            let rest = RunTree::join(elements, left, node.id, node.run, node.right);
            (rest, id)
        } else if k == node.left.count {
            let rest = node.left.merge(elements, node.right);
            (rest, node.id)
        } else {
            let (right, id) = node.right.cut(elements, k - node.left.count - 1);
            let rest = RunTree::join(elements, node.left, node.id, node.run, right);
            (rest, id)
        }
    }

    // Removes the run at `k`, which is this one, below the top, which stays. Each node on the way is updated in
    // advance, until the run's node is reached, or one in which no run had more room.
    fn cut_below(self, elements: &mut Elements, k: u32, was: Run) -> Id
        requires tree { IsTree elements.old self }
        requires place { k < self.count }
        requires below { k ≢ top_place elements.old self }
        requires was { slice_get (runs elements.old self) k ≡ Some was }
        ensures { CutsOut elements.old elements.new self k
            (record { root = self.root; count = self.count - 1 }) result }
    {
        let node = self.open(elements);
        let middle = node.left.count;
        if let Some(rooms) = node.rooms.changed(Rooms::of(was), Rooms::none()) {
            if k < middle {
                if k != node.left.top_place(elements) {
                    self.announce(elements, node, middle - 1, rooms);
                    return node.left.cut_below(elements, k, was);
                }
            } else if k > middle && k - middle - 1 != node.right.top_place(elements) {
                self.announce(elements, node, middle, rooms);
                return node.right.cut_below(elements, k - middle - 1, was);
            }
        }
        let (_rest, id) = self.cut(elements, k);
        id
    }

    // The tree without the run at `k`, which is this one, and the id of its element, which stays live.
    fn cut_out(self, elements: &mut Elements, k: u32, was: Run) -> (RunTree, Id)
        requires tree { IsTree elements.old self }
        requires place { k < self.count }
        requires was { slice_get (runs elements.old self) k ≡ Some was }
        ensures { CutsOut elements.old elements.new self k result.0 result.1 }
    {
        if k == self.top_place(elements) {
            return self.cut(elements, k);
        }
        let id = self.cut_below(elements, k, was);
        let rest = RunTree {
            root: self.root,
            count: self.count - 1,
        };
        (rest, id)
    }

    // Replaces the run at `k`. Returns the most room of the tree's runs after that, and their numbers.
    fn rewrite(self, elements: &mut Elements, k: u32, run: Run) -> Rooms
        requires tree { IsTree elements.old self }
        requires place { k < self.count }
        ensures writes { Writes elements.old elements.new self k run }
        ensures rooms { AreRooms result (runs elements.new self) }
    {
        let node = self.open(elements);
        let middle = node.left.count;
        if k < middle {
            let before = node.left.rewrite(elements, k, run);
            let behind = node.right.rooms(elements);
            RunTree::renew(elements, node, before, behind)
        } else if k == middle {
            RunTree::fill(elements, node.left, node.id, run, node.right)
        } else {
            let before = node.left.rooms(elements);
            let behind = node.right.rewrite(elements, k - middle - 1, run);
            RunTree::renew(elements, node, before, behind)
        }
    }

    // Replaces the run at `k`, which is this one. Each node on the way is updated in advance, until the run's node is
    // reached, or one in which no run had more room, and the new one has less.
    #[inline(never)]
    fn exchange(self, elements: &mut Elements, k: u32, was: Run, run: Run)
        requires tree { IsTree elements.old self }
        requires place { k < self.count }
        requires was { slice_get (runs elements.old self) k ≡ Some was }
        ensures { Writes elements.old elements.new self k run }
    {
        let node = self.open(elements);
        let middle = node.left.count;
        if let Some(rooms) = node.rooms.changed(Rooms::of(was), Rooms::of(run)) {
            if k < middle {
                self.announce(elements, node, middle, rooms);
                return node.left.exchange(elements, k, was, run);
            }
            if k > middle {
                self.announce(elements, node, middle, rooms);
                return node.right.exchange(elements, k - middle - 1, was, run);
            }
        }
        let _rooms = self.rewrite(elements, k, run);
    }

    // Replaces the run of a tree of one: that needs no descent.
    fn rewrite_one(self, elements: &mut Elements, run: Run)
        requires tree { IsTree elements.old self }
        requires one { self.count ≡ 1 }
        ensures { Writes elements.old elements.new self 0 run }
    {
        let none = RunTree::empty();
        let _rooms = RunTree::fill(elements, none, self.root, run, none);
    }

    /// A list without runs.
    pub fn new() -> RunTree
        ensures tree { (s : Store) → IsTree s result }
        ensures runs { (s : Store) → runs s result ≡ [] }
        ensures owned { (s : Store) → owned s result ≡ [] }
        ensures head { (result.root ≡ 0) × (result.count ≡ 0) }
    {
        RunTree::empty()
    }

    /// Inserts a run at `k`.
    pub fn insert(&mut self, elements: &mut Elements, k: u32, run: Run)
        requires tree { IsTree elements.old self.old }
        requires place { k ≤ self.old.count }
        requires room { 0 < elements.old.spare }
        ensures tree { IsTree elements.new self.new }
        ensures runs { runs elements.new self.new
            ≡ take k (runs elements.old self.old) ++ run ∷ drop k (runs elements.old self.old) }
        ensures owned { Leaves elements.old elements.new (owned elements.old self.old) (owned elements.new self.new) }
        ensures spares { elements.new.spare + 1 ≡ elements.old.spare }
    {
        let id = elements.take(Element::BLANK);
        *self = self.put_in(elements, k, id, run);
    }

    /// Removes the run at `k`, which is this one. Its element becomes a spare one.
    pub fn remove(&mut self, elements: &mut Elements, k: u32, was: Run)
        requires tree { IsTree elements.old self.old }
        requires place { k < self.old.count }
        requires was { slice_get (runs elements.old self.old) k ≡ Some was }
        ensures tree { IsTree elements.new self.new }
        ensures runs { runs elements.new self.new
            ≡ take k (runs elements.old self.old) ++ drop (k + 1) (runs elements.old self.old) }
        ensures owned { Leaves elements.old elements.new
            (owned elements.old self.old) (owned elements.new self.new) }
        ensures spares { elements.new.spare ≡ elements.old.spare + 1 }
    {
        let (rest, id) = self.cut_out(elements, k, was);
        elements.give(id);
        *self = rest;
    }

    /// Replaces the run at `k`, which is this one. The head stays.
    pub fn set(self, elements: &mut Elements, k: u32, was: Run, run: Run)
        requires tree { IsTree elements.old self }
        requires place { k < self.count }
        requires was { slice_get (runs elements.old self) k ≡ Some was }
        ensures tree { IsTree elements.new self }
        ensures runs { runs elements.new self
            ≡ take k (runs elements.old self) ++ run ∷ drop (k + 1) (runs elements.old self) }
        ensures owned { Leaves elements.old elements.new (owned elements.old self) (owned elements.new self) }
        ensures spares { elements.new.spare ≡ elements.old.spare }
    {
        if self.count == 1 {
            self.rewrite_one(elements, run);
        } else {
            self.exchange(elements, k, was, run);
        }
    }

    /// The run at `k`.
    pub fn get(self, elements: &Elements, k: u32) -> Run
        requires tree { IsTree elements.now self }
        requires place { k < self.count }
        ensures { slice_get (runs elements.now self) k ≡ Some result }
    {
        let node = self.open(elements);
        if k < node.left.count {
            node.left.get(elements, k)
        } else if k == node.left.count {
            node.run
        } else {
            node.right.get(elements, k - node.left.count - 1)
        }
    }

    /// How many runs end at `n` or before, if the runs ascend.
    pub fn seek(self, elements: &Elements, n: u32) -> u32
        requires tree { IsTree elements.now self }
        ensures { SeeksTo n (runs elements.now self) result }
    {
        if self.count == 0 {
            return 0;
        }
        let node = self.open(elements);
        if u64::from(n) < u64::from(node.run.start) + u64::from(node.run.len) {
            node.left.seek(elements, n)
        } else {
            let rest = node.right.seek(elements, n);
            node.left.count + 1 + rest
        }
    }

    /// The same, with the run before the place and the one at it; `before` and `behind` if there is none.
    pub fn find(self, elements: &Elements, n: u32, before: Run, behind: Run) -> FoundRun
        requires tree { IsTree elements.now self }
        ensures { FindsRuns n before behind (runs elements.now self) result }
    {
        let mut tree = self;
        let mut found = FoundRun {
            index: 0,
            before,
            behind,
        };
        while tree.count > 0 {
            let node = tree.open(elements);
            if u64::from(n) < u64::from(node.run.start) + u64::from(node.run.len) {
                found.behind = node.run;
                tree = node.left;
            } else {
                found.index += node.left.count + 1;
                found.before = node.run;
                tree = node.right;
            }
        }
        found
    }

    // The most room of all runs, from a number on a page or from any.
    fn longest_of(self, elements: &Elements, paged: bool) -> u32
        requires tree { IsTree elements.now self }
        ensures { result ≡ longest (room_of paged) (runs elements.now self) }
    {
        let rooms = self.rooms(elements);
        if paged { rooms.paged } else { rooms.plain }
    }

    /// The first place from `from` on whose run has room for `len`; the count of the runs if there is none.
    pub fn first_room(self, elements: &Elements, from: u32, len: u32, paged: bool) -> u32
        requires tree { IsTree elements.now self }
        requires place { from ≤ self.count }
        ensures { RoomsTo (room_of paged) (runs elements.now self) from len result }
    {
        if from == self.count {
            return self.count;
        }
        if self.longest_of(elements, paged) < len {
            return self.count;
        }
        let node = self.open(elements);
        let middle = node.left.count;
        if middle < from {
            let rest = node
                .right
                .first_room(elements, from - middle - 1, len, paged);
            return middle + 1 + rest;
        }
        let place = node.left.first_room(elements, from, len, paged);
        if place < middle {
            return place;
        }
        if room(node.run, paged) >= len {
            return middle;
        }
        let rest = node.right.first_room(elements, 0, len, paged);
        middle + 1 + rest
    }

    /// The most room of the runs from `from` to before `to`; 0 if there are none.
    pub fn most_room(self, elements: &Elements, from: u32, to: u32, paged: bool) -> u32
        requires tree { IsTree elements.now self }
        requires place { (from ≤ to) × (to ≤ self.count) }
        ensures { IsMost (room_of paged) (runs elements.now self) from to result }
    {
        if from == to {
            return 0;
        }
        if from == 0 && to == self.count {
            return self.longest_of(elements, paged);
        }
        let node = self.open(elements);
        let middle = node.left.count;
        if to <= middle {
            return node.left.most_room(elements, from, to, paged);
        }
        if middle < from {
            return node
                .right
                .most_room(elements, from - middle - 1, to - middle - 1, paged);
        }
        let before = node.left.most_room(elements, from, middle, paged);
        let behind = node.right.most_room(elements, 0, to - middle - 1, paged);
        before.max(room(node.run, paged)).max(behind)
    }

    /// How many numbers the first `k` runs have, modulo 2^32.
    pub fn total_before(self, elements: &Elements, k: u32) -> u32
        requires tree { IsTree elements.now self }
        requires place { k ≤ self.count }
        ensures { result ≡ total (take k (runs elements.now self)) % 2 ^ 32 }
    {
        let mut tree = self;
        let mut rest = k;
        let mut numbers = 0u32;
        while rest > 0 {
            let node = tree.open(elements);
            let middle = node.left.count;
            if rest <= middle {
                tree = node.left;
            } else {
                let before = node.left.rooms(elements);
                numbers = numbers
                    .wrapping_add(before.total)
                    .wrapping_add(node.run.len);
                rest = rest - middle - 1;
                tree = node.right;
            }
        }
        numbers
    }

    /// Gives back every element of the tree.
    pub fn discard(self, elements: &mut Elements)
        requires tree { IsTree elements.old self }
        ensures owned { Leaves elements.old elements.new (owned elements.old self) [] }
        ensures spares { elements.new.spare ≡ elements.old.spare + self.count }
    {
        if self.count == 0 {
            return;
        }
        let node = self.open(elements);
        node.left.discard(elements);
        node.right.discard(elements);
        elements.give(node.id);
    }
}
