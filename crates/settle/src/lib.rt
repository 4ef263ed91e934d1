// Settling: the mode step once more on each leaf's span, since pruning may have joined the rows of several leaves.
#![tactic(auto)]

ghost use Rattle.std.specs.Prelude.{◌≡◌, List, take, true};
ghost use Rattle.model.specs.Single.{singles};
ghost use Rattle.model.specs.Grow.{Entry};
ghost use Rattle.model.specs.Settle.{settled};
ghost use Rattle.layout.specs.Tree.{NodeLists, node_lists};
ghost use Rattle.rows.specs.Flat.{Changed};
ghost use Rattle.rows.specs.Lent.{flat_with, SameTokensLent};
ghost use Rattle.mode.specs.Column.{mode_at};
ghost use Rattle.mode.specs.Lent.{Rebasable, LowTokens};
ghost use Rattle.settle.specs.Leaves.{stepped, leaf_settled, leaves_settled, LeafSettles};
ghost use Rattle.settle.specs.Leaves.{Settleable, HoldsLeaves};

use layout::{MaNode, Span};
use rows::RowTokens;

// The mode step on the rows of a span; their mode.
pub fn step_span(rows: &mut RowTokens, span: Span, counts: &mut [u32]) -> i32
    requires { Rebasable rows.old.tok.now rows.old.res.now span.first span.end counts.old }
    ensures lent { SameTokensLent rows.old rows.new }
    ensures answer { result ≡ mode_at span.first span.end rows.old.res.now }
    ensures rows { flat_with rows.new ≡ stepped (flat_with rows.old) span }
    ensures zeros { counts.new ≡ counts.old }
    ensures low { LowTokens span.first span.end rows.new.tok.now }
{
    let tok = &mut *rows.tok;
    let end = span.end as usize;
    mode::rebase_zero(tok, rows.res, counts, span.first as usize, end)
}

// The mode step on the span of a node, if it is a leaf.
fn settle_leaf(rows: &mut RowTokens, node: MaNode, span: Span, counts: &mut [u32])
    requires { LeafSettles node span (flat_with rows.old) counts.old }
    ensures lent { SameTokensLent rows.old rows.new }
    ensures rows { flat_with rows.new ≡ leaf_settled (flat_with rows.old) node span }
    ensures zeros { counts.new ≡ counts.old }
{
    if !node.is_split() {
        step_span(rows, span, counts);
    }
}

// Makes the zero predictor's tokens anew on each leaf's span, in ascending order of the nodes' numbers.
// The first 4,096 counts are 0, before and after.
// Stays: growth appended to the lists and pruning left the tree at their front, so `count` says where it ends: no
// plainer otherwise, since the caller would cut two slices for that one number.
pub fn settle_leaves(
    rows: &mut RowTokens,
    nodes: &[MaNode],
    spans: &[Span],
    counts: &mut [u32],
    count: usize,
)
    requires { Settleable (node_lists nodes.now spans.now) count (flat_with rows.old) counts.old }
    ensures lent { SameTokensLent rows.old rows.new }
    ensures rows { (tree : List (Entry singles)) (lent : NodeLists)
        → HoldsLeaves (node_lists nodes.now spans.now) count (flat_with rows.old) tree lent
        → Changed (settled true tree) (flat_with rows.old) (flat_with rows.new) }
    ensures settled { flat_with rows.new ≡ leaves_settled (take count nodes.now)
        (take count spans.now) (flat_with rows.old) }
    ensures zeros { counts.new ≡ counts.old }
{
    for (node, span) in nodes[..count].iter().zip(&spans[..count]) {
        settle_leaf(rows, *node, *span, counts);
    }
}
