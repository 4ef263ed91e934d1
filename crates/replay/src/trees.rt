// Leaf contexts of stored trees.
ghost use Rattle.std.specs.Prelude.{◌≤◌, IfOk};

use crate::rooms;
use crate::small::expect_answer;
use crate::stored::{Fault, Stored};
use layout::{MaNode, NodeInfo};

// Most entries of a node list, a context list and a queue.
const MOST_ENTRIES: usize = 128;

// The bytes of a record.
const RECORD_BYTES: u64 = 36;

// How many entries a list has, as the job says next.
fn entries(job: &mut Stored) -> Result<usize, Fault>
    ensures { IfOk result (λ n. n ≤ 128) }
{
    let entries = job.word() as usize;
    if entries > MOST_ENTRIES {
        return Err(Fault::TooLarge);
    }
    Ok(entries)
}

// The next record: kind, property, threshold, gt, le, cost, predictor, offset and depth; the cost is of no use here.
fn record(job: &mut Stored) -> MaNode {
    let kind = job.word();
    let prop = job.word();
    let val = job.signed();
    let gt = job.word();
    let le = job.word();
    let _cost = job.word();
    let info = NodeInfo {
        cost: 0.0,
        pred: job.word(),
        offset: job.signed(),
    };
    let depth = job.word();
    MaNode {
        kind,
        prop,
        val,
        gt,
        le,
        info,
        depth,
    }
}

// What an entry holds that the job does not give.
fn pattern(v: u32) -> MaNode {
    let z = v.cast_signed();
    let info = NodeInfo {
        cost: 0.0,
        pred: v % model::NUM_MA_PREDS as u32,
        offset: z,
    };
    MaNode {
        kind: v % 2,
        prop: v % model::NUM_MA_PROPS as u32,
        val: z,
        gt: v,
        le: v,
        info,
        depth: v,
    }
}

// The tree's entries as a job goes on with them: the records given, as many as there are entries, and patterns behind
// them by the fill, which is answered.
fn put_nodes(job: &mut Stored, tree: &mut [MaNode]) -> u32 {
    let given = job.word();
    let kept = (given as usize).min(tree.len());
    let (front, behind) = tree.split_at_mut(kept);
    for node in front {
        *node = record(job);
    }
    job.skip(RECORD_BYTES * (given as usize - kept) as u64);
    let fill = job.word();
    for (i, node) in (given..u32::MAX).zip(behind) {
        *node = pattern(fill.wrapping_add(i));
    }
    fill
}

// What a queue entry prints as.
fn printed(entry: u32, fill: u32) -> u32 {
    if entry == 0 || entry == fill {
        entry
    } else {
        4294967294
    }
}

// The queue as runs of entries that print alike: entries, runs, and each run's value and length.
fn expect_runs(answer: &mut Stored, queue: &[u32], fill: u32) -> Result<(), Fault> {
    let alike = |a: &u32, b: &u32| printed(*a, fill) == printed(*b, fill);
    answer.expect_count(queue.len())?;
    answer.expect_count(queue.chunk_by(alike).count())?;
    for run in queue.chunk_by(alike) {
        if let Some(&entry) = run.first() {
            answer.expect(printed(entry, fill))?;
        }
        answer.expect_count(run.len())?;
    }
    Ok(())
}

// A job of leaf contexts: a count, a node list, a fill, and the lengths of the context list and the queue.
pub fn contexts(mut job: Stored, answer: &mut Stored) -> Result<(), Fault> {
    let count = job.word();
    let mut nodes = rooms::nodes();
    let tree = &mut nodes[..entries(&mut job)?];
    let fill = put_nodes(&mut job, tree);
    // Every entry of a list holds the job's fill beforehand.
    let mut context_room = rooms::entries();
    let contexts = &mut context_room[..entries(&mut job)?];
    contexts.fill(fill);
    let mut queue_room = rooms::entries();
    let queue = &mut queue_room[..entries(&mut job)?];
    queue.fill(fill);
    let r = contexts::leaf_contexts(tree, contexts, queue, count);
    expect_answer(answer, r)?;
    answer.expect_list(contexts)?;
    expect_runs(answer, queue, fill)
}
