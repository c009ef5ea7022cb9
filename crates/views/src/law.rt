//! Laws of views, for the crates above.

ghost use Rattle.std.specs.List.{slice_range};
ghost use Rattle.std.specs.Prelude.{◌≡◌, ◌+◌, ◌<◌, ◌≤◌, ℕ, List, [], Option, Some, length};
ghost use Rattle.views.specs.Building.{Building, Header, IsBorrowedSoFar, IsClosed, Waiting, begun, opened, with_leaf};
ghost use Rattle.views.specs.Tree.{AreBorrowed, IsBorrowed, IsBorrowedLeaf, Leaf, ViewMembers, ViewTree, alternative_in, bit_string_in, component, left_after, member, members_in, no_member, nodes_in, nodes_left, octets_in, text_in};

/// A view borrows the message: each string that was added with a place is the message's octets at that place. Nothing
/// is borrowed at the beginning, and each call of a builder keeps this, so it is true of the finished tree.
pub fn lemma_borrowed_while_built()
    ensures begun { (message : List ℕ) → IsBorrowedSoFar message begun }
    ensures with_leaf { (message : List ℕ) (number : ℕ) (l : Leaf) (b : Building)
        → IsBorrowedSoFar message b
        → IsBorrowedLeaf message l
        → IsBorrowedSoFar message (with_leaf number l b) }
    ensures opened { (message : List ℕ) (number : ℕ) (h : Header) (b : Building)
        → IsBorrowedSoFar message b
        → IsBorrowedSoFar message (opened number h b) }
    ensures closed { (message : List ℕ) (b c : Building) (w : Waiting) (ws : List Waiting) (t : ViewTree)
        → IsBorrowedSoFar message b
        → IsClosed b w ws t c
        → IsBorrowedSoFar message c }
    ensures finished { (message : List ℕ) (t : ViewTree)
        → IsBorrowedSoFar message (record { here = member 0 t no_member; waits = [] })
        → IsBorrowed message t }
{}

/// What a view that borrows the message shows with a place is the message's octets from that place on. The same is true
/// of its parts.
pub fn lemma_borrowed_parts()
    ensures octets { (message os : List ℕ) (at : ℕ) (t : ViewTree)
        → IsBorrowed message t
        → octets_in t ≡ Some (os, Some at)
        → slice_range message at (at + length os) ≡ os }
    ensures bits { (message os : List ℕ) (unused at : ℕ) (t : ViewTree)
        → IsBorrowed message t
        → bit_string_in t ≡ Some (unused, os, Some at)
        → slice_range message at (at + length os) ≡ os }
    ensures text { (message os : List ℕ) (at : ℕ) (t : ViewTree)
        → IsBorrowed message t
        → text_in t ≡ Some (os, Some at)
        → slice_range message at (at + length os) ≡ os }
    ensures members { (message : List ℕ) (t : ViewTree) → IsBorrowed message t → AreBorrowed message (members_in t) }
    ensures component { (message : List ℕ) (number : ℕ) (ms : ViewMembers) (t : ViewTree)
        → AreBorrowed message ms
        → component ms number ≡ Some t
        → IsBorrowed message t }
    ensures alternative { (message : List ℕ) (number : ℕ) (t u : ViewTree)
        → IsBorrowed message t
        → alternative_in t ≡ Some (number, u)
        → IsBorrowed message u }
{}

/// Members that are taken in the order of their numbers: each later one is found among those that are left, and no
/// more nodes are left than before. A component has no more nodes than the members among which it is, and each value
/// has some.
pub fn lemma_taken_members()
    ensures later { (i j : ℕ) (ms : ViewMembers) → i < j → component (left_after i ms) j ≡ component ms j }
    ensures fewer { (i : ℕ) (ms : ViewMembers) → nodes_left (left_after i ms) ≤ nodes_left ms }
    ensures within { (i : ℕ) (ms : ViewMembers) (t : ViewTree) → component ms i ≡ Some t → nodes_in t ≤ nodes_left ms }
    ensures some { (t : ViewTree) → 1 ≤ nodes_in t }
{}
