// Trees of the caller's records: which are sound, and where a lookup ends. A tree is the slice of its nodes.
#![tactic(auto)]

ghost use Rattle.std.specs.Prelude.{◌≡◌, true, ℕ, ◌+◌, ◌-◌, ◌*◌, ◌≤◌, ◌<◌, cond, ℤ, eqb, ltb};
ghost use Rattle.std.specs.Prelude.{List, map, length, get_or, replicate};
ghost use Rattle.model.specs.Settings.{toks_per_row, max_nodes};
ghost use Rattle.model.specs.Rows.{rows_of};
ghost use Rattle.model.specs.Tree.{nodes_of, is_orderly, has_child, has_two_children, fault_from, fault_of};
ghost use Rattle.model.specs.Tree.{towards, leaf_reached};
ghost use Rattle.model.specs.Refuse.{fault_in};
ghost use Rattle.layout.specs.Records.{stored_of, node_is, node_at, no_record};
ghost use Rattle.tree.specs.Trees.{records_in, is_fine_in, IsSound, Routable, leaf_numbers, AllRoutable};
ghost use Rattle.tree.specs.Trees.{AtMost, Passed, weight, Counted};
ghost use Rattle.model.specs.Answered.{option_of};

use layout::{MaNode, NodeNumber};

// Whether a split is in order: its property is below 24, and both children stand behind it, below the count.
fn is_orderly_split(node: &MaNode, i: usize, count: usize) -> bool
    requires { eqb node.now.kind 1 ≡ true }
    ensures { result ≡ is_orderly count i node.now.info.pred (node_is node.now) }
{
    let gt = node.gt as usize;
    let le = node.le as usize;
    ((node.prop as usize) < model::NUM_MA_PROPS)
        & (((i < gt) & (i < le)) & ((gt < count) & (le < count)))
}

// Whether a leaf is in order: its predictor is below 14.
fn is_orderly_leaf(node: &MaNode) -> bool
    ensures { result ≡ ltb node.now.info.pred toks_per_row }
{
    (node.info.pred as usize) < model::NUM_MA_PREDS
}

// Whether a node is in order.
fn is_orderly(node: &MaNode, i: usize, count: usize) -> bool
    ensures { result ≡ is_orderly count i node.now.info.pred (node_is node.now) }
{
    if node.is_split() {
        return is_orderly_split(node, i, count);
    }
    is_orderly_leaf(node)
}

// One step down from a split: a property above the value leads to gt, else to le.
fn towards(props: &[i32], node: &MaNode) -> NodeNumber
    requires { node.now.prop < length props.now }
    ensures { result.0 ≡ towards props.now node.now.prop node.now.val node.now.gt node.now.le }
{
    if node.val < props[node.prop as usize] {
        return NodeNumber(node.gt);
    }
    NodeNumber(node.le)
}

// The leaf that the properties of a row lead to from node 0 of a sound tree, where every node is in order: nothing is
// tested.
fn leaf_reached(props: &[i32], tree: &[MaNode]) -> NodeNumber
    requires { Routable tree.now props.now }
    ensures { result.0 ≡ leaf_reached (nodes_of (records_in tree.now)) props.now }
{
    let mut node = NodeNumber(0);
    // Stays: the next node is known only once this one is read, which no iterator says plainer.
    while tree[node.0 as usize].is_split() {
        node = towards(props, &tree[node.0 as usize]);
    }
    node
}

// The leaf that each row reaches.
pub fn leaf_numbers(props: &[i32], tree: &[MaNode], number: &mut [u32])
    requires { AllRoutable tree.now props.now number.old }
    ensures { (toks : List ℕ) (res : List ℤ) → number.new
        ≡ leaf_numbers (records_in tree.now) (rows_of (length number.old) props.now toks res) }
{
    // Stays: the properties by number, as the leaves would be in a loop over `chunks_exact`: of a list that is written
    // through a `zip` of its `iter_mut` a proof knows only the length (`returns` stays open).
    for (row, leaf) in number.iter_mut().enumerate() {
        let at = row * model::NUM_MA_PROPS;
        *leaf = leaf_reached(&props[at..at + model::NUM_MA_PROPS], tree).0;
    }
}

// ---- soundness, at one pass
// A sound tree is known at one pass in the order of the numbers: children stand behind their split, so when the pass
// comes to a node, its parent has said how deep it is due. `due` holds one more than that depth, and 0 for a node that
// no split has as a child yet.

// A split that is due: its children are then due one deeper than it. False where it is out of order, or has not two
// children of its own.
fn pass_split(node: &MaNode, i: usize, due: &mut [u16]) -> bool
    requires split { eqb node.now.kind 1 ≡ true }
    requires place { (i < length due.old) × (get_or due.old i 0 ≤ max_nodes) }
    ensures { result ≡ true → Passed node.now i due.old due.new }
{
    let gt = node.gt as usize;
    let le = node.le as usize;
    if !is_orderly_split(node, i, due.len()) | (gt == le) {
        return false;
    }
    let are_own = (due[gt] == 0) & (due[le] == 0);
    let lower = due[i] + 1;
    due[gt] = lower;
    due[le] = lower;
    are_own
}

// Whether node i is due at its depth, and in order. Whether it is a split is asked once, since in a learnt tree the
// processor can't guess that.
fn pass_node(node: &MaNode, i: usize, due: &mut [u16]) -> bool
    requires { (i < length due.old) × (get_or due.old i 0 ≤ max_nodes) }
    ensures depth { result ≡ true → get_or due.old i 0 ≡ node.now.depth + 1 }
    ensures passed { result ≡ true → Passed node.now i due.old due.new }
{
    if due[i] as u64 != node.depth as u64 + 1 {
        return false;
    }
    if node.is_split() {
        return pass_split(node, i, due);
    }
    is_orderly_leaf(node)
}

// Whether each node is due and in order: then the tree is sound. False is not relied on: what is at fault is then found
// by counts. Node 0 is due at depth 0.
fn pass_nodes(tree: &[MaNode], due: &mut [u16]) -> bool
    requires few { (0 < length tree.now) × (length tree.now ≤ max_nodes) }
    requires zeros { due.old ≡ replicate (length tree.now) 0 }
    ensures { result ≡ true → IsSound tree.now }
{
    due[0] = 1;
    for (i, node) in tree.iter().enumerate() {
        if !pass_node(node, i, due) {
            return false;
        }
    }
    true
}

// ---- the lowest node at fault

// Split i counts as a parent of its child: once if the child lies one deeper, and else twice, so that 1 says that there
// is one parent and that the depth is right. A child past the last node is no node.
fn add_parent(tree: &[MaNode], i: usize, child: u32, parents: &mut [u16])
    requires places { (i < length tree.now) × (length parents.old ≡ length tree.now) }
    requires room { AtMost (2 * max_nodes) parents.old }
    ensures { (k : ℕ) → k < length parents.old → get_or parents.new k 0
        ≡ cond (eqb child k) (weight tree.now k (get_or tree.now i no_record)) 0
        + get_or parents.old k 0 }
{
    if (child as usize) < tree.len() {
        let is_deeper = tree[child as usize].depth as u64 == tree[i].depth as u64 + 1;
        parents[child as usize] += if is_deeper { 1 } else { 2 };
    }
}

// A split is one parent, also where both its children are the same node.
fn count_children(tree: &[MaNode], i: usize, parents: &mut [u16])
    requires places { (i < length tree.now) × (length parents.old ≡ length tree.now) }
    requires room { AtMost (2 * (max_nodes - 1)) parents.old }
    ensures { (k : ℕ) → k < length parents.old → get_or parents.new k 0
        ≡ cond (has_child k (node_at tree.now i)) (weight tree.now k (get_or tree.now i no_record)) 0
        + get_or parents.old k 0 }
{
    let node = &tree[i];
    if node.is_split() {
        let gt = node.gt;
        let le = node.le;
        add_parent(tree, i, gt, parents);
        if gt != le {
            add_parent(tree, i, le, parents);
        }
    }
}

// The parents of each node: each counts once, or twice if the node doesn't lie one deeper than it.
fn count_parents(tree: &[MaNode], parents: &mut [u16])
    requires { (length tree.now ≤ max_nodes) × (parents.old ≡ replicate (length tree.now) 0) }
    ensures { Counted tree.now parents.new }
{
    for i in 0..tree.len() {
        count_children(tree, i, parents);
    }
}

fn has_two_children(node: &MaNode) -> bool
    ensures { result ≡ has_two_children (node_is node.now) }
{
    !node.is_split() | (node.gt != node.le)
}

// The node is not at fault: in order, no split with equal children, and node 0 at depth 0, or the child of exactly one
// split and one deeper than it.
fn is_fine(node: &MaNode, i: usize, count: usize, parents: u16) -> bool
    ensures { result ≡ is_fine_in count i parents node.now }
{
    let is_placed = if i == 0 {
        node.depth == 0
    } else {
        parents == 1
    };
    is_orderly(node, i, count) & (has_two_children(node) & is_placed)
}

fn lowest_fault(tree: &[MaNode], parents: &[u16]) -> Option<u32>
    requires { Counted tree.now parents.now }
    ensures { option_of result ≡ fault_from (records_in tree.now) 0 (records_in tree.now) }
{
    let count = tree.len();
    let mut nodes = tree.iter().zip(parents).enumerate();
    let fault = nodes.position(|(i, (node, parents))| !is_fine(node, i, count, *parents))?;
    Some(fault as u32)
}

// The lowest node at fault, or none where the tree is sound; node 0 stands for a wrong count. Only where one pass does
// not tell that it is sound are the parents of each node counted. One local list holds first how deep each node is due,
// and then its parents: a fault is a refusal, after which every lent list reads as before, and the lists lent for
// contexts may be too short, since an unsound tree is named before too little room.
pub fn fault_of(tree: &[MaNode]) -> Option<u32>
    ensures { option_of result ≡ fault_of (records_in tree.now) }
{
    let count = tree.len();
    if (count == 0) | (layout::MAX_NODES < count) {
        return Some(0);
    }
    let mut numbers = [0u16; layout::MAX_NODES];
    let due = &mut numbers[..count];
    if pass_nodes(tree, due) {
        return None;
    }
    let parents = due;
    parents.fill(0);
    count_parents(tree, parents);
    lowest_fault(tree, parents)
}

// The node to name of the tree of the first `count` nodes: as above, and 0 also where the list is shorter.
pub fn fault_in(nodes: &[MaNode], count: usize) -> Option<u32>
    ensures { option_of result ≡ fault_in count (map stored_of nodes.now) }
{
    if nodes.len() < count {
        return Some(0);
    }
    fault_of(&nodes[..count])
}
