// A seed's rows as deepening takes them (document 01, "Deepening"; the Rust's `deepen_ma_tree`): ordered by leaf.
#![tactic(auto)]

ghost use Rattle.std.specs.Prelude.{◌≡◌};
ghost use Rattle.model.specs.Tree.{nodes_of};
ghost use Rattle.layout.specs.Tree.{node_lists};
ghost use Rattle.order.specs.Leaves.{leaf_numbers};
ghost use Rattle.rows.specs.Flat.{held_in};
ghost use Rattle.rows.specs.Lent.{flat_in, SameRowsLent};
ghost use Rattle.seed_rows.specs.Ordered.{seed_of, numbers_in, Numberable, Paired, Pairs};
ghost use Rattle.seed_rows.specs.Ordered.{Orderable, OrderedBy};

use layout::{MaNode, Span};
use rows::Rows;

// The number of the leaf that each row reaches.
// Stays: `count`, as in `order_by_leaf`, which calls it.
fn number_rows(rows: &Rows, nodes: &[MaNode], numbers: &mut [u32], count: usize)
    requires { Numberable (flat_in rows.now) nodes.now count numbers.old }
    ensures { numbers.new ≡ leaf_numbers (nodes_of (seed_of count nodes.now)) (held_in (flat_in rows.now)) }
{
    tree::leaf_numbers(rows.props, &nodes[..count], numbers);
}

// Each number's first row and end, which stand apart, become the span beside the number's node.
fn pair_spans(firsts: &[u32], ends: &[u32], spans: &mut [Span])
    requires { Paired firsts.now ends.now spans.old }
    ensures { Pairs firsts.now ends.now spans.old spans.new }
{
    // Stays: by number, since of a list that is written through a `zip` of its `iter_mut` a proof knows only the length
    // (`returns` stays open).
    for (k, (first, end)) in firsts.iter().zip(ends).enumerate() {
        spans[k] = Span {
            first: *first,
            end: *end,
        };
    }
}

// Orders the rows by the leaf that each reaches, and writes each node's span. The count space is used and cleared
// again.
// Stays: growth appends behind the seed, so `count` says where it ends: no plainer otherwise, since the caller would
// cut two lists for that one number.
pub fn order_by_leaf(
    rows: &mut Rows,
    nodes: &[MaNode],
    spans: &mut [Span],
    counts: &mut [u32],
    count: usize,
)
    requires { Orderable (flat_in rows.old) (node_lists nodes.now spans.old) counts.old count }
    ensures lent { SameRowsLent rows.old rows.new }
    ensures rows { OrderedBy
        (numbers_in count (node_lists nodes.now spans.old) (held_in (flat_in rows.old))) count
        (flat_in rows.old) (flat_in rows.new)
        (node_lists nodes.now spans.old) (node_lists nodes.now spans.new) }
    ensures zeros { counts.new ≡ counts.old }
{
    let row_count = rows.count();
    let ends = row_count + count;
    let space = ends + count;
    number_rows(rows, nodes, &mut counts[..row_count], count);
    order::order_by_number(rows, &mut counts[..space]);
    pair_spans(&counts[row_count..ends], &counts[ends..space], spans);
    counts[row_count..space].fill(0);
}
