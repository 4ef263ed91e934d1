// What learning and deepening share (specs/): their lists as one value, lists that fit an accepted job, and what they
// hold while a tree grows. Flat bits (document 01, "Flat bits"), and what both answer.
#![tactic(auto)]

ghost use Rattle.std.specs.Prelude.{◌≡◌, ◌≤◌, List, ℤ};
ghost use Rattle.model.specs.Settings.{max_nodes};
ghost use Rattle.model.specs.Flat.{flat_bits};
ghost use Rattle.model.specs.Rows.{rows_held};
ghost use Rattle.refuse.specs.Given.{settings_of};
ghost use Rattle.rows.specs.Lent.{flat_seen};
ghost use Rattle.lent.specs.Answer.{tree_of, answer_of};
ghost use Rattle.lent.specs.Fitting.{uses_of};
ghost use Rattle.lent.specs.Starts.{Flattened};

use layout::Nodes;
use queue::Queue;
use refuse::Job;
use rows::{Rows, RowsView};

// What a caller lends for a job: rows, nodes with their spans, queue, count space.
// Stays: references, each for a lifetime of its own. Where the parts are held by value, the prover loses what their
// lists hold when the function ends that made the struct; where they share a lifetime, it does not cover that function.
#[derive(Drop)]
pub struct Lists<'r, 'p, 't, 'n, 'q, 'w, 'c> {
    pub rows: &'r mut Rows<'p>,
    pub at: &'t mut Nodes<'n>,
    pub queue: &'q mut Queue<'w>,
    pub counts: &'c mut [u32],
}

// The answer: how many nodes and leaves the tree has, its estimated bits and the flat bits.
#[derive(Clone, Copy, PartialEq)]
pub struct Learned {
    pub nodes: u32,
    pub leaves: u32,
    pub bits: f64,
    pub flat: f64,
}

// A finished tree: its nodes; how many entries of the node and span lists were written while it grew, those that
// pruning vacated included; its estimated bits; the flat bits.
#[derive(Clone, Copy)]
pub struct Finished {
    pub nodes: usize,
    pub written: usize,
    pub bits: f64,
    pub flat: f64,
}

// Modes are in use: modal offsets are on, and residuals given.
pub fn uses_modes(rows: RowsView, job: Job) -> bool
    ensures { result ≡ uses_of job.entry.settings (flat_seen rows.entry) }
{
    job.settings.modal_offsets & rows.has_residuals()
}

// Flat bits of the rows as first given, whatever their residuals. The counts are zero, before and after.
pub fn flat_bits(rows: RowsView, counts: &mut [u32], job: Job) -> f64
    requires { Flattened job counts.old (flat_seen rows) }
    ensures answer { (rs : List ℤ) → result
        ≡ flat_bits (settings_of job.entry.settings) job.entry.logs.now
        (rows_held rows.entry.props.now rows.entry.tok.now rs) }
    ensures zeros { counts.new ≡ counts.old }
{
    let alphabet = job.settings.alphabet as usize;
    let wide = refuse::FLAT_COUNTS * alphabet;
    let allowed = job.settings.allowed();
    flat::flat_cost(rows, &mut counts[..wide], alphabet, allowed, job.logs)
}

// The answer for a finished tree.
// Stays: no `From`, since a caller has to show that the tree is no larger than the largest, and `from` may ask nothing.
pub fn answer(tree: Finished) -> Learned
    requires { tree.nodes ≤ max_nodes }
    ensures { tree_of result ≡ answer_of tree }
{
    let nodes = tree.nodes;
    Learned {
        nodes: nodes as u32,
        leaves: layout::leaves_of(nodes) as u32,
        bits: tree.bits,
        flat: tree.flat,
    }
}
