//! The search for a free right, and the change of mates along the way to it.

ghost use Rattle.std.specs.Prelude.{◌≡◌, ◌+◌, ◌<◌, ◌≤◌, length};
ghost use Rattle.grid_core.specs.Augmenting.{AreMatesJoined, IsFrontierOf, IsFreeRight, ReachesFrom, IsAugmentingWay, IsFreeAt, Extends};

use crate::frontier::Frontier;
use crate::mates::Mates;
use crate::pairing::Edges;

/// The least right that is free for the left.
fn free_right<E: Edges>(edges: &E, mates: &Mates, left: usize) -> Option<usize>
    requires left_in { left < E.left_count edges.now }
    requires rights_fit { E.right_count edges.now ≤ mates.now.room }
    ensures { IsFreeRight (E.joins edges.now) (E.right_count edges.now)
        mates.now.mates left result }
{
    let mut from = 0;
    while let Some(right) = edges.next(left, from) {
        if mates.owner(right).is_none() {
            return Some(right);
        }
        from = right + 1;
    }
    None
}

/// Reaches the owners of the rights that are joined to the left at `head`.
fn reach_owners<E: Edges>(edges: &E, mates: &Mates, head: usize, frontier: &mut Frontier)
    requires rights_fit { E.right_count edges.now ≤ mates.now.room }
    requires root_in { length mates.now.mates < E.left_count edges.now }
    requires lefts_fit { E.left_count edges.now ≤ frontier.old.room }
    requires head_in { head < length frontier.old.lefts }
    requires reach { IsFrontierOf (E.joins edges.now) mates.now.mates frontier.old }
    ensures room { frontier.new.room ≡ frontier.old.room }
    ensures reach { IsFrontierOf (E.joins edges.now) mates.now.mates frontier.new }
    ensures grown { Extends frontier.old.lefts frontier.new.lefts }
    ensures owners { ReachesFrom (E.joins edges.now) (E.right_count edges.now)
        mates.now frontier.new head }
{
    let left = frontier.left(head);
    let mut from = 0;
    while let Some(right) = edges.next(left, from) {
        if let Some(owner) = mates.owner(right) {
            if !frontier.has(owner) {
                frontier.push(owner, head);
            }
        }
        from = right + 1;
    }
}

/// A right that is free for the left at a place of those reached.
#[derive(Drop)]
pub(crate) struct Way {
    pub(crate) place: usize,
    pub(crate) right: usize,
}

/// Searches for a free right, breadth first from the first left that has no mate.
pub(crate) fn explore<E: Edges>(edges: &E, mates: &Mates, frontier: &mut Frontier) -> Option<Way>
    requires root_in { length mates.now.mates < E.left_count edges.now }
    requires lefts_fit { E.left_count edges.now ≤ frontier.old.room }
    requires rights_fit { E.right_count edges.now ≤ mates.now.room }
    ensures room { frontier.new.room ≡ frontier.old.room }
    ensures reach { IsFrontierOf (E.joins edges.now) mates.now.mates frontier.new }
    ensures found { IsAugmentingWay (E.joins edges.now) (E.right_count edges.now)
        mates.now frontier.new result }
{
    frontier.clear();
    frontier.push(mates.count(), 0);
    let mut head = 0;
    while head < frontier.count() {
        if let Some(right) = free_right(edges, mates, frontier.left(head)) {
            return Some(Way { place: head, right });
        }
        reach_owners(edges, mates, head, frontier);
        head += 1;
    }
    None
}

/// Gives the free right to the left at its place, that left's mate to its parent, on to the root.
pub(crate) fn shift<E: Edges>(edges: &E, frontier: &Frontier, way: Way, mates: &mut Mates)
    requires joined { AreMatesJoined (E.joins edges.now) (E.right_count edges.now) mates.old.mates }
    requires rights_fit { E.right_count edges.now ≤ mates.old.room }
    requires root_fits { length mates.old.mates < mates.old.room }
    requires reach { IsFrontierOf (E.joins edges.now) mates.old.mates frontier.now }
    requires place_in { way.place < length frontier.now.lefts }
    requires free { IsFreeAt (E.joins edges.now) (E.right_count edges.now)
        mates.old frontier.now way }
    ensures room { mates.new.room ≡ mates.old.room }
    ensures more { length mates.new.mates ≡ length mates.old.mates + 1 }
    ensures joined { AreMatesJoined (E.joins edges.now) (E.right_count edges.now) mates.new.mates }
{
    let Way {
        mut place,
        mut right,
    } = way;
    while place > 0 {
        right = mates.replace(frontier.left(place), right);
        place = frontier.parent(place);
    }
    mates.push(right);
}
