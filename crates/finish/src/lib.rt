// From a state to the finished tree: growth, pruning if the price is above 0, settling if it is asked for (document 01,
// "Growth" and "Pruning").
#![tactic(auto)]

ghost use Rattle.std.specs.Prelude.{◌≡◌, Bool, List, ℕ};
ghost use Rattle.model.specs.Single.{singles};
ghost use Rattle.model.specs.Rows.{Row};
ghost use Rattle.model.specs.Grow.{State, steps};
ghost use Rattle.model.specs.Learn.{finished};
ghost use Rattle.layout.specs.Lent.{lists_in, SameNodesLent};
ghost use Rattle.layout.specs.Tree.{NodeLists};
ghost use Rattle.queue.specs.Lent.{queue_in};
ghost use Rattle.queue.specs.Room.{cleared};
ghost use Rattle.rows.specs.Lent.{flat_in, SameRowsLent};
ghost use Rattle.lent.specs.Grows.{job_in, Grows, Growable};
ghost use Rattle.lent.specs.Lent.{SameLent};
ghost use Rattle.lent.specs.Lists.{work_in};
ghost use Rattle.finish.specs.Finished.{Grew, Finishable, FinishedTo};

use layout::{Nodes, Tree};
use lent::{Finished, Lists};
use refuse::Job;
use rows::{RowTokens, Rows};

// Prunes what has grown, if the price is above 0, and repeats the mode step on each leaf's span, if it is asked for.
fn finish_tree(
    rows: &mut Rows,
    at: &mut Nodes,
    counts: &mut [u32],
    job: Job,
    grown: Tree,
    flat_bits: f64,
) -> Finished
    requires { Finishable job counts.old (flat_in rows.old) (lists_in at.old) grown }
    ensures lent { SameRowsLent rows.old rows.new × SameNodesLent at.old at.new }
    ensures finished { (lent : NodeLists) (st : State singles) (seeds : ℕ → Bool) (given : List Row)
        → Grew job.entry counts.old (flat_in rows.old) (lists_in at.old) grown lent st seeds given
        → FinishedTo (flat_in rows.old) (flat_in rows.new) (lists_in at.new) result lent
        (finished (job_in job.entry (flat_in rows.old)) st flat_bits) }
    ensures zeros { counts.new ≡ counts.old }
{
    let s = job.settings;
    let price = s.prune_leaf_bits;
    let kept = if 0.0 < price {
        prune::prune_tree(at, grown.nodes, price)
    } else {
        grown
    };
    if s.settle & lent::uses_modes(rows.view(), job) {
        let props = &mut *rows.props;
        let tok = &mut *rows.tok;
        let res = &mut *rows.res;
        let mut tokens = RowTokens { props, tok, res };
        let nodes = &mut *at.nodes;
        let spans = &mut *at.spans;
        settle::settle_leaves(&mut tokens, nodes, spans, counts, kept.nodes);
    }
    Finished {
        nodes: kept.nodes,
        written: grown.nodes,
        bits: kept.bits,
        flat: flat_bits,
    }
}

// Grows the tree by at most `more` splits, and finishes it. Nothing waits any more.
pub fn grow_and_finish(
    lists: &mut Lists,
    job: Job,
    tree: Tree,
    more: usize,
    flat_bits: f64,
) -> Finished
    requires { Growable job (work_in lists.old) tree more }
    ensures lent { SameLent lists.old lists.new }
    ensures finished { (lent : NodeLists) (st : State singles) (seeds : ℕ → Bool) (given : List Row)
        → Grows job.entry (work_in lists.old) tree more lent st seeds given
        → FinishedTo (flat_in lists.old.rows.now) (flat_in lists.new.rows.now)
        (lists_in lists.new.at.now) result lent
        (finished (job_in job.entry (flat_in lists.old.rows.now))
        (steps (job_in job.entry (flat_in lists.old.rows.now)) more st) flat_bits) }
    ensures zeros { lists.new.counts.now ≡ lists.old.counts.now }
    ensures queue { queue_in lists.new.queue.now ≡ cleared (queue_in lists.old.queue.now) }
    ensures waiting { lists.new.queue.now.waiting ≡ 0 }
{
    let grown = grow::grow_tree(lists, job, tree, more);
    let made = finish_tree(lists.rows, lists.at, lists.counts, job, grown, flat_bits);
    lists.queue.clear();
    made
}
