// From a sound seed to the finished tree (document 01, "Deepening"; the Rust's `deepen_ma_tree` from the seed on): its
// leaves planted, then growth, pruning and settling as in learning.
#![tactic(auto)]

ghost use Rattle.std.specs.Prelude.{◌≡◌, ◌+◌, ◌-◌, ◌/◌, ◌≤◌};
ghost use Rattle.model.specs.Settings.{max_nodes};
ghost use Rattle.model.specs.Flat.{flat_bits as flat_bits_of};
ghost use Rattle.refuse.specs.Given.{settings_of};
ghost use Rattle.layout.specs.Lent.{lists_in};
ghost use Rattle.queue.specs.Lent.{queue_in};
ghost use Rattle.queue.specs.Room.{cleared};
ghost use Rattle.rows.specs.Flat.{held_in};
ghost use Rattle.rows.specs.Lent.{flat_in};
ghost use Rattle.lent.specs.Lent.{SameLent};
ghost use Rattle.lent.specs.Lists.{lists_now};
ghost use Rattle.finish.specs.Finished.{FinishedTo};
ghost use Rattle.seed_leaves.specs.Seeded.{Seedable};
ghost use Rattle.from_seed.specs.Result.{deepened_in};

use lent::{Finished, Lists};
use refuse::Job;

// How many leaves the limit leaves room for: none where a seed of so many nodes has as many already.
fn leaves_left(limit: usize, nodes: usize) -> usize
    requires { nodes ≤ max_nodes }
    ensures { result ≡ limit - (nodes + 1) / 2 }
{
    limit.saturating_sub(layout::leaves_of(nodes))
}

// From the seed to the finished tree.
// Stays: growth appends behind the seed, so the lists can't be cut to it; only deepening has a seed, so its `count` is
// no field of the lists.
pub fn grow_from_seed(lists: &mut Lists, job: Job, count: usize, flat_bits: f64) -> Finished
    requires seedable { Seedable job (lists_now lists.old) count }
    requires flat_bits_value { flat_bits ≡ flat_bits_of (settings_of job.settings) job.logs.now
        (held_in (flat_in lists.old.rows.now)) }
    ensures lent { SameLent lists.old lists.new }
    ensures finished { FinishedTo (flat_in lists.old.rows.now) (flat_in lists.new.rows.now)
        (lists_in lists.new.at.now) result (lists_in lists.old.at.now)
        (deepened_in job.entry count (flat_in lists.old.rows.now) (lists_in lists.old.at.now)) }
    ensures zeros { lists.new.counts.now ≡ lists.old.counts.now }
    ensures queue { queue_in lists.new.queue.now ≡ cleared (queue_in lists.old.queue.now) }
{
    let planted = seed_leaves::plant_seed(lists, job, count);
    let more = leaves_left(job.settings.max_leaves as usize, planted.nodes);
    finish::grow_and_finish(lists, job, planted, more, flat_bits)
}
