// The border: a job is refused here, by the true lengths of the caller's lists, and the core takes the jobs that are
// accepted.
#![tactic(auto)]

ghost use Rattle.std.specs.Prelude.{◌≡◌, ◌≤◌, true, false, length, map};
ghost use Rattle.model.specs.Tree.{fault_of};
ghost use Rattle.model.specs.Lent.{tree_in};
ghost use Rattle.layout.specs.Records.{stored_of};
ghost use Rattle.model.specs.Answered.{option_of};
ghost use Rattle.refuse.specs.Given.{settings_of};
ghost use Rattle.lent.specs.Answer.{tree_outcome};
ghost use Rattle.lent.specs.Lent.{SameLent};
ghost use Rattle.answers.specs.Answers.{learned_in};
ghost use Rattle.border.specs.Lists.{records_in, rooms_in, Worked};

use layout::Nodes;
use lent::{Learned, Lists};
use model::Refusal;
use refuse::{Job, Rooms};

// How many entries the caller's lists have.
fn rooms_of(lists: &Lists) -> Rooms
    ensures { result ≡ rooms_in (records_in lists.now) }
{
    Rooms {
        nodes: lists.at.nodes.len(),
        spans: lists.at.spans.len(),
        queue: lists.queue.room(),
        counts: lists.counts.len(),
    }
}

// The lowest of the first `count` nodes at fault; none where they are a sound tree.
fn seed_fault(at: &Nodes, count: u32) -> Option<u32>
    requires { count ≤ length at.now.nodes.now }
    ensures { option_of result ≡ fault_of (tree_in count (map stored_of at.now.nodes.now)) }
{
    tree::fault_of(&at.nodes[..count as usize])
}

// Learns, unless one of conditions 1 to 7 holds.
pub fn learn_on(lists: &mut Lists, job: Job) -> Result<Learned, Refusal>
    ensures lent { SameLent lists.old lists.new }
    ensures worked { Worked (settings_of job.entry.settings) job.entry.logs.now false 0
        (records_in lists.old) (records_in lists.new) (learned_in (tree_outcome result)) }
{
    let rooms = rooms_of(lists);
    refuse::check_learn(lists.rows.view(), job, rooms)?;
    let tree = learn::learn_ma_tree_in_place(lists, job);
    Ok(lent::answer(tree))
}

// Deepens the first `count` nodes, unless one of conditions 1 to 7 holds or they are no sound tree (8).
pub fn deepen_on(lists: &mut Lists, job: Job, count: u32) -> Result<Learned, Refusal>
    ensures lent { SameLent lists.old lists.new }
    ensures worked { Worked (settings_of job.entry.settings) job.entry.logs.now true count
        (records_in lists.old) (records_in lists.new) (learned_in (tree_outcome result)) }
{
    let seeds = count as usize;
    let rooms = rooms_of(lists);
    refuse::check_deepen(lists.rows.view(), job, rooms, seeds)?;
    if let Some(node) = seed_fault(lists.at, count) {
        return Err(Refusal::UnsoundTree(node));
    }
    let tree = deepen::deepen_ma_tree(lists, job, seeds);
    Ok(lent::answer(tree))
}
