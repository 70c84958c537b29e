//! Laws of search trees whose sides differ in height by at most one, over every type of items.

ghost use Rattle.std.specs.Prelude.{◌≡◌, ℕ, ◌*◌, ◌≤◌, ◌<◌, ◌^◌, List, length, Option};
ghost use Rattle.std.specs.declared.cmp.Ordering.{Ordering};
ghost use Rattle.avl_trees.specs.Changes.{Grown, Shrunk};
ghost use Rattle.avl_trees.specs.Rising.{AreRising, below, Parts, Fits, find, above, enter, without, or_else};
ghost use Rattle.avl_trees.specs.Standing.{Item, Row, Stands, seen_by, root_of};
ghost use Rattle.avl_trees.specs.Trees.{Tree, height, items, IsBalanced, lookup, next, insert, remove, bits};

/// Where an item enters a balanced tree or is removed from it, the tree stays balanced, and its height changes by at most one.
pub fn trees_stay_balanced<A>()
    ensures entered { (probe : A → Ordering) (change : A → A) (new : A) (t : Tree A) → IsBalanced t → Grown t (insert probe change new t) }
    ensures removed { (probe : A → Ordering) (t : Tree A) → IsBalanced t → Shrunk t (remove probe t) }
{}

/// A search tree is the finite map of its items: looking up, the next key, entering and removing are those of the list of items in key order.
pub fn trees_are_finite_maps<A>()
    ensures found { (cmp : A → A → Ordering) (probe : A → Ordering) → Parts (below cmp) probe → (t : Tree A) → AreRising (below cmp) (items t) → lookup probe t ≡ find probe (items t) }
    ensures above { (cmp : A → A → Ordering) (probe : A → Ordering) → Parts (below cmp) probe → (t : Tree A) (other : Option A) → AreRising (below cmp) (items t) →
        next probe t other ≡ or_else (above probe (items t)) other }
    ensures entered { (cmp : A → A → Ordering) (probe : A → Ordering) → Parts (below cmp) probe → (change : A → A) (new : A) (t : Tree A) → AreRising (below cmp) (items t) →
        items (insert probe change new t) ≡ enter probe change new (items t) }
    ensures removed { (cmp : A → A → Ordering) (probe : A → Ordering) → Parts (below cmp) probe → (t : Tree A) → AreRising (below cmp) (items t) → items (remove probe t) ≡ without probe (items t) }
{}

/// The keys go on rising.
pub fn keys_stay_in_order<A>()
    ensures entered { (cmp : A → A → Ordering) (probe : A → Ordering) → Parts (below cmp) probe → (change : A → A) (new : A) → Fits (below cmp) probe change new → (xs : List A) →
        AreRising (below cmp) xs → AreRising (below cmp) (enter probe change new xs) }
    ensures removed { (cmp : A → A → Ordering) (probe : A → Ordering) → Parts (below cmp) probe → (xs : List A) → AreRising (below cmp) xs → AreRising (below cmp) (without probe xs) }
{}

/// A balanced tree of fewer than 2^64 items is at most twice as high as their number has binary digits.
pub fn heights_are_bounded<A>()
    ensures { (t : Tree A) → IsBalanced t → length (items t) < 2 ^ 64 → height t ≤ 2 * bits (length (items t)) }
{}

/// Nodes that have one row a name stand for at most one tree from a root.
pub fn one_tree_stands<N, K, V>()
    ensures { (rows : N → Option (Row N K V)) (t u : Tree (Item N K V)) → Stands (seen_by rows) t → Stands (seen_by rows) u → root_of t ≡ root_of u → t ≡ u }
{}
