// Pruning of a grown tree, after the Rust's prune_tree: prices from the last node back, the new order from the root by
// `preorder`, and the nodes moved into that order by `compact`.
#![tactic(auto)]

ghost use Rattle.std.specs.Prelude.{◌≡◌, List, ℕ, ◌≤◌, ◌<◌, length, take};
ghost use Rattle.model.specs.Single.{singles};
ghost use Rattle.model.specs.Grow.{Entry};
ghost use Rattle.layout.specs.Tree.{NodeLists};
ghost use Rattle.layout.specs.Lent.{lists_in, SameNodesLent};
ghost use Rattle.model.specs.Tree.{Node};
ghost use Rattle.preorder.specs.Order.{ShowsNodes, Walkable, Ordered};
ghost use Rattle.prune.specs.Prices.{leaf_priced, kept_split, split_priced, IsNumber, Priceable};
ghost use Rattle.prune.specs.Prices.{AllPriceable, ShowsTree, IsPriced, PricedAs};
ghost use Rattle.prune.specs.Held.{HoldsTree, Prunable, PrunedAs};

use compact::NewOrder;
use layout::{MaNode, NodeInfo, Nodes, Tree};
use preorder::Numbers;

// The bits of the leaves under a node, and these with a price for each split that is kept.
#[derive(Clone, Copy)]
struct Priced {
    bits: f64,
    priced: f64,
}

// A leaf's price is its own cost.
fn price_leaf(info: NodeInfo) -> Priced
    requires { IsNumber info.cost }
    ensures { result ≡ leaf_priced info.cost }
{
    let own = f64::from(info.cost);
    Priced {
        bits: own,
        priced: own,
    }
}

// What a split comes to that stays one, from its two sides. It becomes a leaf if its own cost is at most what its two
// sides and the price come to.
fn price_split(info: NodeInfo, gt: Priced, le: Priced, price: f32) -> Option<Priced>
    requires { IsNumber info.cost × IsNumber price }
    ensures { result ≡ kept_split info.cost gt le price }
{
    let own = f64::from(info.cost);
    let kept = gt.priced + le.priced + f64::from(price);
    if own <= kept {
        return None;
    }
    Some(Priced {
        bits: gt.bits + le.bits,
        priced: kept,
    })
}

// What a node comes to that stays a split; its children stand behind it and are priced.
fn price_node(node: &MaNode, prices: &[Priced], price: f32) -> Option<Priced>
    requires { Priceable node.now price prices.now }
    ensures { result ≡ split_priced node.now price prices.now }
{
    if !node.is_split() {
        return None;
    }
    let gt = prices[node.gt as usize];
    let le = prices[node.le as usize];
    price_split(node.info, gt, le, price)
}

// Every node's price, from the last node back, and whether it stays a split.
// Stays: `splits` is a list of its own, since the walk in preorder and the move read just these, and no prices.
fn price_all(tree: &[MaNode], prices: &mut [Priced], splits: &mut [bool], price: f32)
    requires all_priceable { AllPriceable tree.now price splits.old }
    requires count_in_bounds { length tree.now ≤ length prices.old }
    ensures { (entries : List (Entry singles)) → ShowsTree entries tree.now
        → (i : ℕ) → i < length tree.now → IsPriced price entries i prices.new splits.new }
{
    // Stays: a node's price is made of its children's, which stand behind it in the list that is written.
    for i in (0..tree.len()).rev() {
        let split = price_node(&tree[i], prices, price);
        splits[i] = split.is_some();
        prices[i] = split.unwrap_or(price_leaf(tree[i].info));
    }
}

// Which nodes are splits still, and the bits of the leaves that survive. There is a flag for each node of the tree.
fn price_nodes(at: &Nodes, splits: &mut [bool], price: f32) -> f64
    requires { Prunable (lists_in at.now) (length splits.old) price }
    ensures { (tree : List (Entry singles)) (lent : NodeLists)
        → HoldsTree (lists_in at.now) (length splits.old) price tree lent
        → PricedAs price tree result splits.new }
{
    let tree = &at.nodes[..splits.len()];
    let mut prices = [Priced {
        bits: 0.0,
        priced: 0.0,
    }; layout::MAX_NODES];
    price_all(tree, &mut prices, splits, price);
    prices[0].bits
}

// The nodes that are left, in their new order, and the place of each. There is a flag for each node of the tree. A
// function of its own, since of a part of a lent struct's list that is handed on the caller's proof knows no more.
fn order_nodes(at: &Nodes, splits: &[bool], places: &mut [u32], order: &mut Numbers)
    requires there { length splits.now ≤ length at.now.nodes.now }
    requires walkable { Walkable (take (length splits.now) at.now.nodes.now) splits.now places.old }
    ensures { (nodes : List Node)
        → ShowsNodes nodes (take (length splits.now) at.now.nodes.now) splits.now
        → Ordered nodes order.new.items places.new }
{
    preorder::order_nodes(&at.nodes[..splits.len()], splits, places, order)
}

// Folds each split whose own cost is at most what its two sides and the price come to, and renumbers what is left from
// the root, gt first.
pub fn prune_tree(at: &mut Nodes, count: usize, price: f32) -> Tree
    requires { Prunable (lists_in at.old) count price }
    ensures lent { SameNodesLent at.old at.new }
    ensures lists { (tree : List (Entry singles)) (lent : NodeLists)
        → HoldsTree (lists_in at.old) count price tree lent
        → PrunedAs price tree lent (lists_in at.new) result }
{
    let mut flags = [false; layout::MAX_NODES];
    let mut places = [0u32; layout::MAX_NODES];
    let splits = &mut flags[..count];
    let bits = price_nodes(at, splits, price);
    let mut order = Numbers::new();
    order_nodes(at, splits, &mut places, &mut order);
    let new_order = NewOrder {
        splits,
        order: &order,
        places: &places,
    };
    compact::move_nodes(at, new_order);
    Tree {
        nodes: order.len(),
        bits,
    }
}
