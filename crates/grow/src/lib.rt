// Growth: the waiting leaf with the greatest gain, of equal gains the one with more rows and only then the one with the
// lower number, is split, again and again, until so many splits are made or no leaf waits. The Rust's `grow_tree`
// without its threads and speculation.
#![tactic(auto)]

ghost use Rattle.std.specs.Prelude.{◌≡◌, Bool, List, ◌++◌, ℕ, ◌+◌, ◌<◌, ◌≤◌, ltb};
ghost use Rattle.std.specs.Float.{binary32};
ghost use Rattle.std.specs.Float.Ieee.{add, sub};
ghost use Rattle.model.specs.Settings.{max_nodes, max_depth};
ghost use Rattle.model.specs.Rows.{Row, within};
ghost use Rattle.model.specs.Single.{singles};
ghost use Rattle.model.specs.Accepting.{rows_below};
ghost use Rattle.model.specs.Lent.{Waiting};
ghost use Rattle.model.specs.Grow.{State, grown_bits, step, steps};
ghost use Rattle.layout.specs.Lent.{lists_in, SameNodesLent};
ghost use Rattle.layout.specs.Records.{span_is};
ghost use Rattle.layout.specs.Tree.{NodeLists, HasRoom};
ghost use Rattle.layout.specs.Values.{offer_is};
ghost use Rattle.layout.specs.Waiting.{Queued, QueueRoom, SameQueue, without, waits};
ghost use Rattle.queue.specs.Lent.{queue_in, SameQueueLent};
ghost use Rattle.rows.specs.Flat.{held_in, SameSize};
ghost use Rattle.rows.specs.Lent.{flat_in, SameRowsLent};
ghost use Rattle.grow.specs.Parts.{RowsFit, RowsSplit, split_nodes};
ghost use Rattle.lent.specs.Lent.{SameLent};
ghost use Rattle.lent.specs.Lists.{work_in};
ghost use Rattle.lent.specs.Grows.{job_in, Number, Grows, Growable};
ghost use Rattle.grow.specs.Grown.{Splits, GrownTo};

use layout::{Leaf, Nodes, Offer, Span, Tree};
use lent::Lists;
use queue::{Pending, Queue};
use refuse::Job;
use rows::{RowTokens, Rows};

// ---- one split, part by part

// A new leaf and its rows.
#[derive(Clone, Copy)]
struct Side {
    span: Span,
    leaf: Leaf,
}

// The two leaves that a leaf's rows are split into, and how deep they stand.
#[derive(Clone, Copy)]
struct Sides {
    gt: Side,
    le: Side,
    depth: u32,
}

// Rows above the threshold go first, and both parts take their own mode. Where le's rows begin follows from how many
// they are, which scoring counted. Splits of the new leaves are scored only if some are left.
fn split_rows(
    rows: &mut Rows,
    counts: &mut [u32],
    job: Job,
    span: Span,
    pending: Pending,
    left: usize,
) -> Sides
    requires fits { RowsFit job counts.old pending.offer.prop (span_is span) (flat_in rows.old) }
    requires below { pending.offer.below ≡ rows_below pending.offer.prop pending.offer.val
        (within (span_is span) (held_in (flat_in rows.old))) }
    requires shallow { pending.depth < max_depth }
    ensures lent { SameRowsLent rows.old rows.new }
    ensures split { RowsSplit (ltb 0 left) job.entry counts.old (pending.depth + 1)
        pending.offer.prop pending.offer.val (span_is span)
        (flat_in rows.old) (flat_in rows.new) result }
    ensures zeros { counts.new ≡ counts.old }
{
    let first = span.first as usize;
    let end = span.end as usize;
    let offer = pending.offer;
    rows.partition(first, end, offer.prop as usize, offer.val);
    let middle = span.end - offer.below;
    let above = Span {
        first: span.first,
        end: middle,
    };
    let others = Span {
        first: middle,
        end: span.end,
    };
    let depth = pending.depth + 1;
    let props = &mut *rows.props;
    let tok = &mut *rows.tok;
    let res = &mut *rows.res;
    let mut tokens = RowTokens { props, tok, res };
    let gt = leaf::make_leaf(&mut tokens, counts, job, above, depth, 0 < left);
    let le = leaf::make_leaf(&mut tokens, counts, job, others, depth, 0 < left);
    Sides {
        gt: Side {
            span: above,
            leaf: gt,
        },
        le: Side {
            span: others,
            leaf: le,
        },
        depth,
    }
}

// Node i becomes a split, and its leaves gt and le are appended.
fn split_nodes(at: &mut Nodes, i: usize, count: usize, offer: Offer, sides: Sides)
    requires has_room { HasRoom (count + 2) (lists_in at.old) }
    requires i_lt_count { (i < count) × (count + 2 ≤ max_nodes) }
    ensures lent { SameNodesLent at.old at.new }
    ensures nodes { lists_in at.new ≡ split_nodes i offer.prop offer.val count sides (lists_in at.old) }
{
    at.put_split(i, offer.prop, offer.val, count as u32);
    at.put_leaf(count, sides.gt.leaf.info, sides.gt.span, sides.depth);
    at.put_leaf(count + 1, sides.le.leaf.info, sides.le.span, sides.depth);
}

// The leaf at place k no longer waits, and the new leaves wait if they offer a split.
fn requeue(queue: &mut Queue, k: usize, count: usize, sides: Sides)
    requires { (k < queue.old.waiting) × (count + 2 ≤ max_nodes)
        × QueueRoom (queue.old.waiting + 1) (queue_in queue.old) }
    ensures lent { SameQueueLent queue.old queue.new }
    ensures queue { (leaves : List (Waiting singles))
        → Queued queue.old.waiting (queue_in queue.old) leaves
        → Queued queue.new.waiting (queue_in queue.new)
        (without k leaves ++ waits count sides.depth (offer_is sides.gt.leaf.offer)
        ++ waits (count + 1) sides.depth (offer_is sides.le.leaf.offer)) }
    ensures lengths { (queue.new.waiting ≤ queue.old.waiting + 1)
        × SameQueue (queue_in queue.old) (queue_in queue.new) }
{
    queue.unqueue(k);
    queue.enqueue(count, sides.depth, sides.gt.leaf.offer);
    queue.enqueue(count + 1, sides.depth, sides.le.leaf.offer);
}

// Estimated bits gain gt + le - parent, formed in single, added in double.
fn grown_bits(bits: f64, gt: f32, le: f32, parent: f32) -> f64
    requires { Number (sub binary32 (add binary32 gt le) parent) }
    ensures { result ≡ grown_bits singles bits gt le parent }
{
    bits + f64::from(gt + le - parent)
}

// ---- one split

// Splits the leaf that waits at place k, after which `left` splits may follow. After the last split nothing reads what
// the new leaves offer, so they are not scored.
fn split_leaf(lists: &mut Lists, job: Job, tree: Tree, left: usize, k: usize) -> Tree
    requires { Splits job (work_in lists.old) tree left k }
    ensures lent { SameLent lists.old lists.new }
    ensures grown { (lent : NodeLists) (st : State singles) (seeds : ℕ → Bool) (given : List Row)
        → Grows job.entry (work_in lists.old) tree (left + 1) lent st seeds given
        → Grows job.entry (work_in lists.new) result left lent
        (step (job_in job.entry (flat_in lists.old.rows.now)) st) seeds given }
    ensures lengths { SameSize (flat_in lists.old.rows.now) (flat_in lists.new.rows.now)
        × SameQueue (queue_in lists.old.queue.now) (queue_in lists.new.queue.now) }
    ensures zeros { lists.new.counts.now ≡ lists.old.counts.now }
{
    let pending = lists.queue.at(k);
    let i = pending.node as usize;
    let span = lists.at.spans[i];
    let parent = lists.at.nodes[i].info.cost;
    let sides = split_rows(lists.rows, lists.counts, job, span, pending, left);
    split_nodes(lists.at, i, tree.nodes, pending.offer, sides);
    requeue(lists.queue, k, tree.nodes, sides);
    Tree {
        nodes: tree.nodes + 2,
        bits: grown_bits(
            tree.bits,
            sides.gt.leaf.info.cost,
            sides.le.leaf.info.cost,
            parent,
        ),
    }
}

// ---- growth

// Makes `more` splits, or as many as there are.
pub fn grow_tree(lists: &mut Lists, job: Job, tree: Tree, more: usize) -> Tree
    requires { Growable job (work_in lists.old) tree more }
    ensures lent { SameLent lists.old lists.new }
    ensures grown { (lent : NodeLists) (st : State singles) (seeds : ℕ → Bool) (given : List Row)
        → Grows job.entry (work_in lists.old) tree more lent st seeds given
        → GrownTo job.entry lists.old.counts.now (flat_in lists.old.rows.now)
        (flat_in lists.new.rows.now) (lists_in lists.new.at.now) result lent
        (steps (job_in job.entry (flat_in lists.old.rows.now)) more st) }
    ensures zeros { lists.new.counts.now ≡ lists.old.counts.now }
    ensures lengths { SameQueue (queue_in lists.old.queue.now) (queue_in lists.new.queue.now) }
{
    let mut tree = tree;
    for left in (0..more).rev() {
        if lists.queue.waiting == 0 {
            break;
        }
        let k = lists.queue.foremost(lists.at);
        tree = split_leaf(lists, job, tree, left, k);
    }
    tree
}
