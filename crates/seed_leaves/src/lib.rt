// A seed planted for growth (document 01, "Deepening"; the Rust's `deepen_ma_tree` before `grow_tree`): its leaves with
// rows evaluated at their depth, and what stands beside its nodes.
#![tactic(auto)]

ghost use Rattle.std.specs.Prelude.{◌≡◌, List};
ghost use Rattle.model.specs.Rows.{Row};
ghost use Rattle.layout.specs.Records.{span_is};
ghost use Rattle.lent.specs.Lent.{SameLent};
ghost use Rattle.lent.specs.Lists.{lists_now, work_in};
ghost use Rattle.seed_leaves.specs.Sown.{LeafReady, LeafPlanted, NodeFits, NodePlanted};
ghost use Rattle.seed_leaves.specs.Sown.{Plants, Sowable, PlantedTo};
ghost use Rattle.seed_leaves.specs.Seeded.{Seedable, Seeded};

use layout::{Span, Tree};
use lent::Lists;
use refuse::Job;
use rows::RowTokens;

// The next node, a leaf with rows: it takes its mode and is evaluated at its depth. Its cost is added, and it waits if
// it offers a split.
// Stays: `score_split` is nothing that this function goes by: it is handed on to where the leaf is evaluated, and two
// functions in its place would repeat all the rest.
fn plant_leaf(
    lists: &mut Lists,
    job: Job,
    span: Span,
    depth: u32,
    score_split: bool,
    tree: Tree,
) -> Tree
    requires { LeafReady job (work_in lists.old) tree (span_is span) score_split }
    ensures lent { SameLent lists.old lists.new }
    ensures planted { LeafPlanted job.entry (work_in lists.old) (work_in lists.new)
        tree result (span_is span) depth score_split }
{
    let rows = &mut *lists.rows;
    let props = &mut *rows.props;
    let tok = &mut *rows.tok;
    let res = &mut *rows.res;
    let mut tokens = RowTokens { props, tok, res };
    let leaf = leaf::make_leaf(&mut tokens, lists.counts, job, span, depth, score_split);
    lists.at.put_leaf(tree.nodes, leaf.info, span, depth);
    lists.queue.enqueue(tree.nodes, depth, leaf.offer);
    let bits = tree.bits + f64::from(leaf.info.cost);
    Tree {
        nodes: tree.nodes + 1,
        bits,
    }
}

// The next node of the seed, whose span already stands beside it. It keeps the depth that it stores.
fn plant_node(lists: &mut Lists, job: Job, score_split: bool, tree: Tree) -> Tree
    requires { NodeFits job (work_in lists.old) tree score_split }
    ensures lent { SameLent lists.old lists.new }
    ensures planted { NodePlanted job.entry (work_in lists.old) (work_in lists.new)
        tree result score_split }
{
    let i = tree.nodes;
    let span = lists.at.spans[i];
    if lists.at.nodes[i].is_split() | (span.first == span.end) {
        lists.at.keep_node(i);
        return Tree {
            nodes: i + 1,
            bits: tree.bits,
        };
    }
    let depth = lists.at.nodes[i].depth;
    plant_leaf(lists, job, span, depth, score_split, tree)
}

// The seed's nodes in ascending order. The rows stand in the order of its leaves, and each node's span beside it.
// Stays: growth appends behind the seed, so the lists can't be cut to it; only deepening has a seed, so its `count` is
// no field of the lists.
fn plant_nodes(lists: &mut Lists, job: Job, count: usize, score_split: bool) -> Tree
    requires { Sowable job (lists_now lists.old) count score_split }
    ensures lent { SameLent lists.old lists.new }
    ensures planted { (given : List Row)
        → Plants job.entry (lists_now lists.old) count score_split given
        → PlantedTo job.entry (lists_now lists.old) (work_in lists.new)
        result count count score_split given }
{
    lists.queue.waiting = 0;
    let mut tree = Tree {
        nodes: 0,
        bits: 0.0,
    };
    for _ in 0..count {
        tree = plant_node(lists, job, score_split, tree);
    }
    tree
}

// The seed of `count` nodes, planted. Leaves are scored only if more are wanted.
// Stays: growth appends behind the seed, so the lists can't be cut to it; only deepening has a seed, so its `count` is
// no field of the lists.
pub fn plant_seed(lists: &mut Lists, job: Job, count: usize) -> Tree
    requires { Seedable job (lists_now lists.old) count }
    ensures lent { SameLent lists.old lists.new }
    ensures planted { Seeded job.entry (lists_now lists.old) (work_in lists.new) count result }
    ensures zeros { lists.new.counts.now ≡ lists.old.counts.now }
{
    let leaves = layout::leaves_of(count);
    let score_split = leaves < job.settings.max_leaves as usize;
    let at = &mut *lists.at;
    let nodes = &mut *at.nodes;
    let spans = &mut *at.spans;
    seed_rows::order_by_leaf(lists.rows, nodes, spans, lists.counts, count);
    plant_nodes(lists, job, count, score_split)
}
