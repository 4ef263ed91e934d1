// Deepening a tree from rows (document 01; the Rust's `deepen_ma_tree`), of a job that the checks accept and a sound
// seed: flat bits, the seed's leaves, growth, pruning and settling.
#![tactic(auto)]

ghost use Rattle.std.specs.Prelude.{◌≡◌};
ghost use Rattle.layout.specs.Lent.{lists_in};
ghost use Rattle.rows.specs.Lent.{flat_in};
ghost use Rattle.lent.specs.Lists.{lists_now, lists_after};
ghost use Rattle.lent.specs.Lent.{SameLent};
ghost use Rattle.lent.specs.Answer.{LearnedAs};
ghost use Rattle.from_seed.specs.Result.{deepened_in};
ghost use Rattle.deepen.specs.Deepens.{Deepenable};

use lent::{Finished, Lists};
use refuse::Job;

// Deepens the tree of the first `count` nodes.
// Stays: growth appends behind the seed, so the lists can't be cut to it; only deepening has a seed, so its `count` is
// no field of the lists.
pub fn deepen_ma_tree(lists: &mut Lists, job: Job, count: usize) -> Finished
    requires { Deepenable job (lists_now lists.old) count }
    ensures lent { SameLent lists.old lists.new }
    ensures finished { LearnedAs (deepened_in job.entry count
        (flat_in lists.old.rows.now) (lists_in lists.old.at.now)) result }
    ensures lists { lists_now lists.new
        ≡ lists_after (deepened_in job.entry count
        (flat_in lists.old.rows.now) (lists_in lists.old.at.now))
        (lists_now lists.old) }
{
    lists.counts.fill(0);
    let flat_bits = lent::flat_bits(lists.rows.view(), lists.counts, job);
    from_seed::grow_from_seed(lists, job, count, flat_bits)
}
