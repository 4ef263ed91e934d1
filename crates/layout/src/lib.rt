// The caller's node and span records as the learner works on them: the constants, the records, and the functions that
// write one place. Beside them the values that the learner's parts pass to one another. What the records hold is said
// in specs/.
#![tactic(auto)]

ghost use Rattle.std.specs.Prelude.{◌≡◌, ◌+◌, ◌/◌, ◌≤◌, ◌<◌, eqb, length};
ghost use Rattle.model.specs.Settings.{max_nodes};
ghost use Rattle.model.specs.Deepen.{rowless};
ghost use Rattle.model.specs.Rows.{span_size};
ghost use Rattle.layout.specs.Records.{node_is, node_at, leaf_record, span_is};
ghost use Rattle.layout.specs.Tree.{HasRoom, put, info_at, depth_at, leaf_with, put_split, entry_record};
ghost use Rattle.layout.specs.Values.{info_is};
ghost use Rattle.layout.specs.Lent.{lists_in, SameNodesLent};

// Most nodes of a tree.
pub const MAX_NODES: usize = 8191;

// A node's place in the node list. A leaf's context is another type (crate `contexts`), so that a context never
// indexes the node list.
#[derive(Clone, Copy, PartialEq, Eq, Debug)]
pub struct NodeNumber(pub u32);

// The cost of a node in bits, its predictor and its offset.
#[repr(C)]
#[derive(Clone, Copy, Default)]
pub struct NodeInfo {
    pub cost: f32,
    pub pred: u32,
    pub offset: i32,
}

// A node as a caller holds it: its kind, 1 for a split and any other number for a leaf; a split's property, threshold
// and children, for which a leaf has no use; and beside every node its cost, predictor and offset, and its depth, which
// is how many splits stand above it. Nine numbers of 32 bits with nothing between them, and each may hold any bits.
// Stays: `kind` is a number and no enum with data, since the C interface lends the record, and a lent one may hold any.
#[repr(C)]
#[derive(Clone, Copy)]
pub struct MaNode {
    pub kind: u32,
    pub prop: u32,
    pub val: i32,
    pub gt: u32,
    pub le: u32,
    pub info: NodeInfo,
    pub depth: u32,
}

impl MaNode {
    // A leaf: fields that it has no use for hold 0.
    pub fn leaf(info: NodeInfo, depth: u32) -> MaNode
        ensures { result ≡ leaf_record info depth }
    {
        MaNode {
            kind: 0,
            prop: 0,
            val: 0,
            gt: 0,
            le: 0,
            info,
            depth,
        }
    }

    // A seed's node that stays without rows: a split keeps its fields, costs without end, and has predictor and offset
    // 0; a leaf keeps its predictor and offset and costs nothing. Its depth stays.
    pub fn kept(&self) -> MaNode
        ensures { result
            ≡ entry_record (rowless (node_is self.now) (info_is self.now.info) self.now.depth) }
    {
        let node = *self;
        if !node.is_split() {
            let info = NodeInfo {
                cost: 0.0,
                ..node.info
            };
            return MaNode::leaf(info, node.depth);
        }
        let info = NodeInfo {
            cost: f32::INFINITY,
            ..NodeInfo::default()
        };
        MaNode {
            kind: 1,
            info,
            ..node
        }
    }

    pub fn is_split(&self) -> bool
        ensures { result ≡ eqb self.now.kind 1 }
    {
        self.kind == 1
    }
}

// The rows of a node: the first, and the one behind the last.
#[repr(C)]
#[derive(Clone, Copy, Default, PartialEq, Eq, Debug)]
pub struct Span {
    pub first: u32,
    pub end: u32,
}

impl Span {
    // How many rows it has.
    pub fn rows(self) -> u32
        ensures { result ≡ span_size (span_is self) }
    {
        self.end.saturating_sub(self.first)
    }
}

// The split that a leaf offers, with its gain in bits, and how many rows then go below, to le.
#[derive(Clone, Copy)]
pub struct Offer {
    pub prop: u32,
    pub val: i32,
    pub gain: f32,
    pub below: u32,
}

// A leaf that was evaluated, with the split that it offers, if there is one.
#[derive(Clone, Copy)]
pub struct Leaf {
    pub info: NodeInfo,
    pub offer: Option<Offer>,
}

// A tree in the lists: how many nodes it has, and its estimated bits.
#[repr(C)]
#[derive(Clone, Copy)]
pub struct Tree {
    pub nodes: usize,
    pub bits: f64,
}

// How many leaves a tree of so many nodes has: each split has two children, so there is one leaf more than splits.
pub fn leaves_of(nodes: usize) -> usize
    requires { nodes ≤ max_nodes }
    ensures { result ≡ (nodes + 1) / 2 }
{
    (nodes + 1) / 2
}

// The caller's nodes, with the span of each.
// Stays: two lists and none of pairs, since the C interface lends nodes and spans each as a list of its own.
#[derive(Drop)]
pub struct Nodes<'a> {
    pub nodes: &'a mut [MaNode],
    pub spans: &'a mut [Span],
}

impl<'a> Nodes<'a> {
    #[tactic(auto, unfolding(crate::specs::Tree::put))]
    // Node i is a leaf over a span of rows, at a depth.
    pub fn put_leaf(&mut self, i: usize, info: NodeInfo, span: Span, depth: u32)
        requires { HasRoom (i + 1) (lists_in self.old) }
        ensures lent { SameNodesLent self.old self.new }
        ensures lists { lists_in self.new
            ≡ put i (leaf_with info span.first span.end depth) (lists_in self.old) }
    {
        self.nodes[i] = MaNode::leaf(info, depth);
        self.spans[i] = span;
    }

    // Node i becomes a split over the nodes gt and gt + 1. What stands beside it, its depth and its span stay.
    pub fn put_split(&mut self, i: usize, prop: u32, val: i32, gt: u32)
        requires { (i < length self.old.nodes.now) × (gt < max_nodes) }
        ensures lent { SameNodesLent self.old self.new }
        ensures lists { lists_in self.new ≡ put_split i prop val gt (lists_in self.old) }
    {
        let node = self.nodes[i];
        self.nodes[i] = MaNode {
            kind: 1,
            prop,
            val,
            gt,
            le: gt + 1,
            ..node
        };
    }

    #[tactic(auto, unfolding(crate::specs::Tree::put))]
    // A node without rows, with the span (0, 0).
    pub fn keep_node(&mut self, i: usize)
        requires { HasRoom (i + 1) (lists_in self.old) }
        ensures lent { SameNodesLent self.old self.new }
        ensures lists { lists_in self.new
            ≡ put i (rowless (node_at self.old.nodes.now i)
            (info_at (lists_in self.old) i) (depth_at (lists_in self.old) i)) (lists_in self.old) }
    {
        self.nodes[i] = self.nodes[i].kept();
        self.spans[i] = Span::default();
    }
}
