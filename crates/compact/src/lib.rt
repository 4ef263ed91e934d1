// The nodes that pruning leaves, moved into their new order with their spans; the entries that are vacated become
// blank.
#![tactic(auto)]

ghost use Rattle.std.specs.Prelude.{◌≡◌, true, ◌<◌, ◌≤◌, length};
ghost use Rattle.model.specs.Lists.{written_over};
ghost use Rattle.layout.specs.Tree.{node_lists, holding, HasRoom};
ghost use Rattle.layout.specs.Lent.{lists_in, SameNodesLent};
ghost use Rattle.compact.specs.Moves.{record_from, entries_from, compacted, AllMovable};

use layout::{MaNode, NodeInfo, Nodes, Span};

// The new order of a tree's nodes, as pruning leaves it: of each old node whether it is a split still, the old numbers
// of those that are left in their new order, and each of their new numbers at its old one.
// Stays: three lists and none of triples: `splits` and `places` go by the old numbers, and `order` by the new ones.
#[derive(Clone, Copy)]
pub struct NewOrder<'a> {
    pub splits: &'a [bool],
    pub order: &'a [u32],
    pub places: &'a [u32],
}

// The node for its new place: a split that is kept, with its children's new numbers; or else a leaf. It stays as deep
// as it was, since all splits above it are kept.
fn renumbered(node: MaNode, kept: bool, places: &[u32]) -> MaNode
    requires { kept ≡ true → (node.gt < length places.now) × (node.le < length places.now) }
    ensures { result ≡ record_from node kept places.now }
{
    if !kept {
        return MaNode::leaf(node.info, node.depth);
    }
    MaNode {
        kind: 1,
        gt: places[node.gt as usize],
        le: places[node.le as usize],
        ..node
    }
}

// The nodes in the new order, each with its span.
fn gather(from: &Nodes, new_order: NewOrder, nodes: &mut [MaNode], spans: &mut [Span])
    requires all_movable { AllMovable (lists_in from.now)
        new_order.splits.now new_order.order.now new_order.places.now }
    requires has_room { HasRoom (length new_order.order.now) (node_lists nodes.old spans.old) }
    ensures { node_lists nodes.new spans.new
        ≡ holding (entries_from (lists_in from.now)
        new_order.entry.splits.now new_order.entry.places.now new_order.entry.order.now)
        (node_lists nodes.old spans.old) }
{
    // Stays: by number, since of a list that is written through a `zip` of its `iter_mut` a proof knows only the length
    // (`returns` stays open).
    for (q, old) in new_order.order.iter().enumerate() {
        let i = *old as usize;
        nodes[q] = renumbered(from.nodes[i], new_order.splits[i], new_order.places);
        spans[q] = from.spans[i];
    }
}

// One list over the front of another.
fn copy_front<T: Copy>(from: &[T], to: &mut [T])
    requires { length from.now ≤ length to.old }
    ensures { to.new ≡ written_over from.now to.old }
{
    to[..from.len()].copy_from_slice(from);
}

// The nodes go by way of blank records, so that the entries that are vacated become blank.
pub fn move_nodes(at: &mut Nodes, new_order: NewOrder)
    requires { AllMovable (lists_in at.old)
        new_order.splits.now new_order.order.now new_order.places.now }
    ensures lent { SameNodesLent at.old at.new }
    ensures lists { lists_in at.new
        ≡ holding (compacted (lists_in at.old)
        new_order.entry.splits.now new_order.entry.places.now new_order.entry.order.now)
        (lists_in at.old) }
{
    let blank = MaNode::leaf(NodeInfo::default(), 0);
    let count = new_order.splits.len();
    let mut nodes = [blank; layout::MAX_NODES];
    let mut spans = [Span::default(); layout::MAX_NODES];
    gather(at, new_order, &mut nodes, &mut spans);
    copy_front(&nodes[..count], at.nodes);
    copy_front(&spans[..count], at.spans);
}
