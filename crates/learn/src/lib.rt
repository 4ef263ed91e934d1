// Learning a tree from rows (document 01; the Rust's `learn_ma_tree_in_place`), of a job that the checks accept: flat
// bits, the root, growth, pruning and settling.
#![tactic(auto)]

ghost use Rattle.std.specs.Prelude.{◌≡◌};
ghost use Rattle.rows.specs.Lent.{flat_in};
ghost use Rattle.lent.specs.Answer.{LearnedAs};
ghost use Rattle.lent.specs.Lent.{SameLent};
ghost use Rattle.lent.specs.Lists.{lists_now, lists_after};
ghost use Rattle.from_root.specs.Result.{result_in};
ghost use Rattle.learn.specs.Learns.{Learnable};

use lent::{Finished, Lists};
use refuse::Job;

// Learns a tree from the rows.
pub fn learn_ma_tree_in_place(lists: &mut Lists, job: Job) -> Finished
    requires { Learnable job (lists_now lists.old) }
    ensures lent { SameLent lists.old lists.new }
    ensures finished { LearnedAs (result_in job.entry (flat_in lists.old.rows.now)) result }
    ensures lists { lists_now lists.new
        ≡ lists_after (result_in job.entry (flat_in lists.old.rows.now))
        (lists_now lists.old) }
{
    lists.counts.fill(0);
    let flat_bits = lent::flat_bits(lists.rows.view(), lists.counts, job);
    from_root::grow_from_root(lists, job, flat_bits)
}
