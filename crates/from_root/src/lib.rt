// From the root to the finished tree (document 01, "Growth", "Pruning"; the Rust's `learn_ma_tree_in_place` from the
// root on): one leaf over all rows, then growth, pruning and settling.
#![tactic(auto)]

ghost use Rattle.std.specs.Prelude.{◌≡◌, ◌-◌};
ghost use Rattle.model.specs.Learn.{root_state};
ghost use Rattle.model.specs.Flat.{flat_bits as flat_bits_of};
ghost use Rattle.model.specs.Kept.{no_seeds};
ghost use Rattle.refuse.specs.Given.{settings_of};
ghost use Rattle.layout.specs.Lent.{lists_in};
ghost use Rattle.layout.specs.Waiting.{SameQueue};
ghost use Rattle.queue.specs.Lent.{queue_in};
ghost use Rattle.queue.specs.Room.{cleared};
ghost use Rattle.rows.specs.Flat.{held_in, SameSize};
ghost use Rattle.rows.specs.Lent.{flat_in};
ghost use Rattle.lent.specs.Grows.{job_in, Grows};
ghost use Rattle.lent.specs.Lent.{SameLent};
ghost use Rattle.lent.specs.Lists.{lists_now, work_in};
ghost use Rattle.lent.specs.Starts.{Plantable};
ghost use Rattle.finish.specs.Finished.{FinishedTo};
ghost use Rattle.from_root.specs.Result.{result_in};

use layout::{Span, Tree};
use lent::{Finished, Lists};
use refuse::Job;
use rows::RowTokens;

// One leaf over all rows, and nothing else waits. It is scored only if a split may follow.
fn plant_root(lists: &mut Lists, job: Job) -> Tree
    requires { Plantable job (lists_now lists.old) }
    ensures lent { SameLent lists.old lists.new }
    ensures planted { Grows job.entry (work_in lists.new) result
        (job.entry.settings.max_leaves - 1) (lists_in lists.old.at.now)
        (root_state (job_in job.entry (flat_in lists.old.rows.now))
        (held_in (flat_in lists.old.rows.now)))
        no_seeds (held_in (flat_in lists.old.rows.now)) }
    ensures lengths { SameSize (flat_in lists.old.rows.now) (flat_in lists.new.rows.now)
        × SameQueue (queue_in lists.old.queue.now) (queue_in lists.new.queue.now) }
    ensures zeros { lists.new.counts.now ≡ lists.old.counts.now }
{
    let all = Span {
        first: 0,
        end: lists.rows.count() as u32,
    };
    let rows = &mut *lists.rows;
    let props = &mut *rows.props;
    let tok = &mut *rows.tok;
    let res = &mut *rows.res;
    let mut tokens = RowTokens { props, tok, res };
    let root = leaf::make_leaf(
        &mut tokens,
        lists.counts,
        job,
        all,
        0,
        1 < job.settings.max_leaves,
    );
    lists.at.put_leaf(0, root.info, all, 0);
    lists.queue.waiting = 0;
    lists.queue.enqueue(0, 0, root.offer);
    Tree {
        nodes: 1,
        bits: f64::from(root.info.cost),
    }
}

// From the root to the finished tree.
pub fn grow_from_root(lists: &mut Lists, job: Job, flat_bits: f64) -> Finished
    requires plantable { Plantable job (lists_now lists.old) }
    requires flat_bits_value { flat_bits
        ≡ flat_bits_of (settings_of job.settings) job.logs.now
        (held_in (flat_in lists.old.rows.now)) }
    ensures lent { SameLent lists.old lists.new }
    ensures finished { FinishedTo (flat_in lists.old.rows.now) (flat_in lists.new.rows.now)
        (lists_in lists.new.at.now) result (lists_in lists.old.at.now)
        (result_in job.entry (flat_in lists.old.rows.now)) }
    ensures zeros { lists.new.counts.now ≡ lists.old.counts.now }
    ensures queue { queue_in lists.new.queue.now ≡ cleared (queue_in lists.old.queue.now) }
{
    let root = plant_root(lists, job);
    let more = job.settings.max_leaves as usize - 1;
    finish::grow_and_finish(lists, job, root, more, flat_bits)
}
