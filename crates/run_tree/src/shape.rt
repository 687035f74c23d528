ghost use Rattle.std.specs.Prelude.{◌≡◌, ℕ, max, ◌+◌, ◌%◌, ◌^◌, ◌<◌, ◌∷◌, ◌++◌, IsSome, IfSome, []};
ghost use Rattle.vsm_elements.specs.Store.{Store, at, Distinct};
ghost use Rattle.run_tree.specs.Shape.{longest, plain, paged, room_of, total};

use crate::run::Run;
use crate::tree::RunTree;
use vsm_elements::{Element, Elements, Id};

/// A node: its run, its element, and the trees before and after it.
#[derive(Clone, Copy)]
pub(crate) struct RunNode {
    pub(crate) left: RunTree,
    pub(crate) id: Id,
    pub(crate) run: Run,
    pub(crate) right: RunTree,
    pub(crate) rooms: Rooms,
}

// How much room the longest run has, from its first number and from its first number on a page; and how many numbers
// all runs have, as far as a word holds it: modulo 2^32.
#[derive(Clone, Copy)]
pub(crate) struct Rooms {
    pub(crate) plain: u32,
    pub(crate) paged: u32,
    pub(crate) total: u32,
}

// How many numbers a page has.
const PAGE: u64 = 512;

// The room of a run from its first number on a page.
pub(crate) fn paged_room(run: Run) -> u32
    ensures { result ≡ paged run }
{
    let start = u64::from(run.start);
    let end = start + u64::from(run.len);
    let page = (start + PAGE - 1) / PAGE * PAGE;
    end.saturating_sub(page) as u32
}

// The room of a run from its first number, or from its first number on a page.
pub(crate) fn room(run: Run, paged: bool) -> u32
    ensures { result ≡ room_of paged run }
{
    if paged { paged_room(run) } else { run.len }
}

// The most of some numbers after one was replaced; `None` if the old one was the most and the new one is less.
fn most_after(most: u32, was: u32, now: u32) -> Option<u32>
    ensures { IfSome result (λ next. (others : ℕ) → most ≡ max others was → next ≡ max others now) }
{
    if now < was && was == most {
        None
    } else {
        Some(most.max(now))
    }
}

impl Rooms {
    ghost use Rattle.run_tree.specs.Nodes.{AreRooms, Adds, Changes};

    // The rooms of no run.
    pub(crate) fn none() -> Rooms
        ensures { AreRooms result [] }
    {
        Rooms {
            plain: 0,
            paged: 0,
            total: 0,
        }
    }

    // The rooms of one run.
    pub(crate) fn of(run: Run) -> Rooms
        ensures { AreRooms result (run ∷ []) }
    {
        Rooms {
            plain: run.len,
            paged: paged_room(run),
            total: run.len,
        }
    }

    // The rooms of a list to which some runs are added.
    pub(crate) fn with(self, more: Rooms) -> Rooms
        ensures { Adds self more result }
    {
        Rooms {
            plain: self.plain.max(more.plain),
            paged: self.paged.max(more.paged),
            total: self.total.wrapping_add(more.total),
        }
    }

    // The rooms of a list in which other runs replace some; `None` if all its runs have to be looked at.
    pub(crate) fn changed(self, was: Rooms, now: Rooms) -> Option<Rooms>
        ensures { IfSome result (λ next. Changes self was now next) }
    {
        let plain = most_after(self.plain, was.plain, now.plain)?;
        let paged = most_after(self.paged, was.paged, now.paged)?;
        Some(Rooms {
            plain,
            paged,
            total: self.total.wrapping_sub(was.total).wrapping_add(now.total),
        })
    }

    // The most room of two lists and a run between them, and their numbers.
    fn around(self, run: Run, behind: Rooms) -> Rooms
        ensures plain { result.plain ≡ max (max self.plain (plain run)) behind.plain }
        ensures paged { result.paged ≡ max (max self.paged (paged run)) behind.paged }
        ensures total { result.total ≡ (self.total + run.len + behind.total) % 2 ^ 32 }
    {
        Rooms {
            plain: self.plain.max(run.len).max(behind.plain),
            paged: self.paged.max(paged_room(run)).max(behind.paged),
            total: self.total.wrapping_add(run.len).wrapping_add(behind.total),
        }
    }
}

impl RunTree {
    ghost use Rattle.run_tree.specs.Trees.{runs, owned, IsTree, Opens, Joins};
    ghost use Rattle.run_tree.specs.Nodes.{IsLinked, AreRooms, Announces, top_place};

    // The tree without runs.
    pub(crate) fn empty() -> RunTree
        ensures tree { (s : Store) → IsTree s result }
        ensures runs { (s : Store) → runs s result ≡ [] }
        ensures owned { (s : Store) → owned s result ≡ [] }
        ensures root { result.root ≡ 0 }
        ensures count { result.count ≡ 0 }
    {
        RunTree { root: 0, count: 0 }
    }

    // The node at the top.
    pub(crate) fn open(self, elements: &Elements) -> RunNode
        requires tree { IsTree elements.now self }
        requires some { 0 < self.count }
        ensures opens { Opens elements.now self result }
        ensures linked { IsLinked elements.now result }
        ensures rooms { AreRooms result.rooms (runs elements.now self) }
        ensures place { result.left.count ≡ top_place elements.now self }
    {
        let element = elements.get(self.root);
        let words = element.words;
        RunNode {
            left: RunTree {
                root: element.next,
                count: words[1],
            },
            id: self.root,
            run: Run {
                start: words[2],
                len: words[3],
            },
            right: RunTree {
                root: words[0],
                count: self.count - 1 - words[1],
            },
            rooms: Rooms {
                plain: words[4],
                paged: words[5],
                total: words[6],
            },
        }
    }

    // How many runs are before the one at the top.
    pub(crate) fn top_place(self, elements: &Elements) -> u32
        requires tree { IsTree elements.now self }
        requires some { 0 < self.count }
        ensures { result ≡ top_place elements.now self }
    {
        elements.get(self.root).words[1]
    }

    // The node's element says in advance how many runs will be before it, and what room there will be.
    pub(crate) fn announce(self, elements: &mut Elements, node: RunNode, count: u32, rooms: Rooms)
        requires opens { Opens elements.old self node }
        requires linked { IsLinked elements.old node }
        ensures { Announces elements.old elements.new self node count rooms }
    {
        let words = [
            node.right.root,
            count,
            node.run.start,
            node.run.len,
            rooms.plain,
            rooms.paged,
            rooms.total,
        ];
        elements.set(
            node.id,
            Element {
                next: node.left.root,
                words,
            },
        );
    }

    // The most room of the tree's runs, and their numbers.
    pub(crate) fn rooms(self, elements: &Elements) -> Rooms
        requires tree { IsTree elements.now self }
        ensures plain { result.plain ≡ longest plain (runs elements.now self) }
        ensures paged { result.paged ≡ longest paged (runs elements.now self) }
        ensures total { result.total ≡ total (runs elements.now self) % 2 ^ 32 }
    {
        if self.count == 0 {
            return Rooms {
                plain: 0,
                paged: 0,
                total: 0,
            };
        }
        let words = elements.get(self.root).words;
        Rooms {
            plain: words[4],
            paged: words[5],
            total: words[6],
        }
    }

    // Rewrites in the node's element what it and the trees below it have, given what each tree has. Its run stays.
    pub(crate) fn renew(
        elements: &mut Elements,
        node: RunNode,
        before: Rooms,
        behind: Rooms,
    ) -> Rooms
        requires left { IsTree elements.old node.left }
        requires right { IsTree elements.old node.right }
        requires distinct { Distinct (owned elements.old node.left ++ node.id ∷ owned elements.old node.right) }
        requires live { IsSome (at elements.old node.id) }
        requires linked { IsLinked elements.old node }
        requires before { AreRooms before (runs elements.old node.left) }
        requires behind { AreRooms behind (runs elements.old node.right) }
        ensures joins { Joins elements.old elements.new node.left node.id node.run node.right
            (record { root = node.id; count = node.left.count + node.right.count + 1 }) }
        ensures rooms { AreRooms result
            (runs elements.old node.left ++ node.run ∷ runs elements.old node.right) }
    {
        let rooms = before.around(node.run, behind);
        elements.set_four(
            node.id,
            3,
            [node.run.len, rooms.plain, rooms.paged, rooms.total],
        );
        rooms
    }

    // Writes a node over two trees into a live element, with the most room of all their runs, and their numbers.
    pub(crate) fn fill(
        elements: &mut Elements,
        left: RunTree,
        id: Id,
        run: Run,
        right: RunTree,
    ) -> Rooms
        requires left { IsTree elements.old left }
        requires right { IsTree elements.old right }
        requires distinct { Distinct (owned elements.old left ++ id ∷ owned elements.old right) }
        requires live { IsSome (at elements.old id) }
        ensures joins { Joins elements.old elements.new left id run right
            (record { root = id; count = left.count + right.count + 1 }) }
        ensures rooms { AreRooms result (runs elements.old left ++ run ∷ runs elements.old right) }
    {
        let before = left.rooms(elements);
        let behind = right.rooms(elements);
        let rooms = before.around(run, behind);
        let words = [
            right.root,
            left.count,
            run.start,
            run.len,
            rooms.plain,
            rooms.paged,
            rooms.total,
        ];
        elements.set(
            id,
            Element {
                next: left.root,
                words,
            },
        );
        rooms
    }

    // A live element becomes a node over two trees.
    pub(crate) fn join(
        elements: &mut Elements,
        left: RunTree,
        id: Id,
        run: Run,
        right: RunTree,
    ) -> RunTree
        requires left { IsTree elements.old left }
        requires right { IsTree elements.old right }
        requires distinct { Distinct (owned elements.old left ++ id ∷ owned elements.old right) }
        requires live { IsSome (at elements.old id) }
        ensures { Joins elements.old elements.new left id run right result }
    {
        elements.ids_in_range();
        let _rooms = RunTree::fill(elements, left, id, run, right);
        RunTree {
            root: id,
            count: left.count + right.count + 1,
        }
    }
}
