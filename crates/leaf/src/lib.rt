// A new leaf over a span of rows: its mode and zero-predictor tokens, and then what it costs and offers.
#![tactic(auto)]

ghost use Rattle.std.specs.Prelude.{◌≡◌};
ghost use Rattle.layout.specs.Records.{span_is};
ghost use Rattle.rows.specs.Lent.{flat_with, SameTokensLent};
ghost use Rattle.lent.specs.Fitting.{LeafFits};
ghost use Rattle.leaf.specs.Made.{MadeLeaf};

use layout::{Leaf, Span};
use refuse::Job;
use rows::RowTokens;

// The mode step on the rows of the span, if modes are in use, and then their evaluation at the depth. Splits are scored
// only if asked for: after the last split nothing reads them.
// Stays: the depth, and whether splits are scored, as `evaluate::evaluate_counts` says of them.
pub fn make_leaf(
    rows: &mut RowTokens,
    counts: &mut [u32],
    job: Job,
    span: Span,
    depth: u32,
    score_split: bool,
) -> Leaf
    requires { LeafFits (flat_with rows.old) span.first span.end job counts.old }
    ensures lent { SameTokensLent rows.old rows.new }
    ensures answer { MadeLeaf score_split job.entry depth (span_is span)
        (flat_with rows.old) (flat_with rows.new) result }
    ensures zeros { counts.new ≡ counts.old }
{
    let mode = if lent::uses_modes(rows.view(), job) {
        settle::step_span(rows, span, counts)
    } else {
        0
    };
    evaluate::evaluate_rows(rows.view(), counts, job, span, depth, mode, score_split)
}
