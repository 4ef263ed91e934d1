// The nodes of a sound tree, breadth first: from the root, gt before le.
#![tactic(auto)]

ghost use Rattle.std.specs.Prelude.{◌≡◌, ◌+◌, ◌≤◌, true, length, take, eqb};
ghost use Rattle.model.specs.Tree.{nodes_of};
ghost use Rattle.model.specs.Contexts.{breadth_order};
ghost use Rattle.tree.specs.Trees.{records_in, IsSound};
ghost use Rattle.breadth.specs.Queue.{queued, end_after};

use layout::MaNode;

// The children of a node, if it is a split, go to the end of the queue, gt before le.
fn queue_children(node: &MaNode, queue: &mut [u32], end: usize) -> usize
    requires { eqb node.now.kind 1 ≡ true → end + 2 ≤ length queue.old }
    ensures answer { result ≡ end_after (eqb node.now.kind 1) end }
    ensures queue { queue.new
        ≡ queued (eqb node.now.kind 1) node.now.gt node.now.le end queue.old }
{
    if !node.is_split() {
        return end;
    }
    queue[end] = node.gt;
    queue[end + 1] = node.le;
    end + 2
}

// The walk over a list that holds the tree alone. Each node enters its queue once, so the queue has as many places as
// there are nodes, and is the order once the walk is done.
fn walk(tree: &[MaNode], order: &mut [u32])
    requires { IsSound tree.now × (length order.old ≡ length tree.now) }
    ensures { order.new ≡ breadth_order (nodes_of (records_in tree.now)) }
{
    order[0] = 0;
    let mut end: usize = 1;
    let mut head: usize = 0;
    // Stays: the list that is gone over is written at its end meanwhile, which no iterator over it allows; and that it
    // never runs out before every node stands in it is known only at the end.
    while head < end {
        end = queue_children(&tree[order[head] as usize], order, end);
        head += 1;
    }
}

// The nodes of a sound tree in breadth-first order, gt before le. The order has a place for each node, so the tree is
// the front of the list, which may hold more.
pub fn breadth_order(tree: &[MaNode], order: &mut [u32])
    requires { (length order.old ≤ length tree.now) × IsSound (take (length order.old) tree.now) }
    ensures { order.new
        ≡ breadth_order (nodes_of (records_in (take (length order.old) tree.now))) }
{
    walk(&tree[..order.len()], order);
}
