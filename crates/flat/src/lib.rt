// Flat bits (document 01, "Flat bits"; the Rust's `flat_cost`): the rows grouped by property 0, and the groups' lowest
// costs added in double precision.
#![tactic(auto)]

ghost use Rattle.std.specs.Prelude.{◌≡◌, List, ◌*◌, false, ℤ, replicate};
ghost use Rattle.model.specs.Single.{singles};
ghost use Rattle.model.specs.Settings.{Settings};
ghost use Rattle.model.specs.Flat.{clamped, flat_bits};
ghost use Rattle.model.specs.Rows.{rows_held};
ghost use Rattle.rows.specs.Flat.{row_count};
ghost use Rattle.rows.specs.Lent.{flat_seen};
ghost use Rattle.model.specs.Lists.{is_empty};
ghost use Rattle.cost.specs.Predictors.{Uses, NodeCounted, usable_predictors};
ghost use Rattle.flat.specs.Flat.{RowsFit, GroupsEmpty, CountsGroups, with_lowest, groups_bits};
ghost use Rattle.flat.specs.Flat.{GroupsCounted, FlatFits};

use cost::{Allowed, NodeCounts};
use rows::RowsView;

// The flat group of a row: its property 0, held to 0 to 3.
fn group_of(v: i32) -> usize
    ensures { result ≡ clamped v }
{
    v.clamp(0, 3) as usize
}

// Counts the rows of each flat group, and their tokens under each predictor, in one pass over the rows.
fn count_groups(rows: RowsView, hist: &mut [u32], sizes: &mut [u32], alphabet: usize)
    requires rows_fit { RowsFit (flat_seen rows) alphabet }
    requires groups_empty { GroupsEmpty alphabet hist.old sizes.old }
    ensures { CountsGroups rows.entry.props.now rows.entry.tok.now (row_count (flat_seen rows.entry)) alphabet
        hist.new sizes.new }
{
    let count = rows.count();
    let props = &rows.props[..count * model::NUM_MA_PROPS];
    let tok = &rows.tok[..count * model::NUM_MA_PREDS];
    let rows = props
        .chunks_exact(model::NUM_MA_PROPS)
        .zip(tok.chunks_exact(model::NUM_MA_PREDS));
    for (props, tokens) in rows {
        let group = group_of(props[0]);
        cost::bump(sizes, group);
        cost::count_row(
            tokens,
            group * (model::NUM_MA_PREDS * alphabet),
            alphabet,
            hist,
        );
    }
}

// The total with a group's lowest cost. An empty group is passed over.
fn add_group(group: NodeCounts, allowed: Allowed, logs: &[f32], total: f64) -> f64
    requires counted { NodeCounted group.hist.now group.total group.alphabet logs.now }
    requires some { is_empty (usable_predictors allowed.weighted allowed.preds) ≡ false }
    ensures { result ≡ with_lowest group.entry.hist.now group.entry.total group.entry.alphabet
        allowed.weighted allowed.preds logs.now total }
{
    if group.total == 0 {
        return total;
    }
    let mut costs = [0.0f32; model::NUM_MA_PREDS];
    let best = cost::predictor_costs(group, allowed, &mut costs, logs);
    total + f64::from(best.bits)
}

// The groups' lowest costs, added in double precision.
fn groups_cost(hist: &[u32], sizes: &[u32], alphabet: usize, allowed: Allowed, logs: &[f32]) -> f64
    requires { GroupsCounted hist.now sizes.now alphabet allowed.weighted allowed.preds logs.now }
    ensures { result ≡ groups_bits hist.now sizes.now alphabet allowed.weighted allowed.preds
        logs.now 4 }
{
    let width = model::NUM_MA_PREDS * alphabet;
    let mut total = 0.0f64;
    // Stays: by the group's number, since `chunks_exact` asks for a width over 0, and of no rows the alphabet may be 0.
    for (group, size) in sizes.iter().enumerate() {
        let first = group * width;
        let counts = NodeCounts {
            hist: &hist[first..first + width],
            total: *size,
            alphabet,
        };
        total = add_group(counts, allowed, logs, total);
    }
    total
}

// Flat bits: the rows grouped by property 0 held to 0 to 3, each group at its lowest cost. The counts are zero again.
pub fn flat_cost(
    rows: RowsView,
    hist: &mut [u32],
    alphabet: usize,
    allowed: Allowed,
    logs: &[f32],
) -> f64
    requires { FlatFits (flat_seen rows) alphabet allowed.weighted allowed.preds logs.now
        hist.old }
    ensures answer { (t : Settings singles) (rs : List ℤ)
        → Uses t alphabet allowed.weighted allowed.preds
        → result ≡ flat_bits t logs.now (rows_held rows.entry.props.now rows.entry.tok.now rs) }
    ensures zeros { hist.new ≡ replicate (56 * alphabet) 0 }
{
    let mut sizes = [0u32; 4];
    count_groups(rows, hist, &mut sizes, alphabet);
    let total = groups_cost(hist, &sizes, alphabet, allowed, logs);
    hist.fill(0);
    total
}
