// The queue of waiting leaves, in the order of their node numbers: so the first that none goes before has the lowest
// number. It stands in three flat lists of numbers, as the C interface lends them: node, property, depth and how many
// rows go below, then the threshold, then the gain. How many rows a leaf has is read in its node's span.
#![tactic(auto)]

ghost use Rattle.std.specs.Prelude.{◌≡◌, List, ◌++◌, ◌+◌, ◌-◌, ◌≤◌, ◌<◌, length, get_or};
ghost use Rattle.std.specs.Float.{nan};
ghost use Rattle.model.specs.Settings.{max_nodes};
ghost use Rattle.model.specs.Single.{singles};
ghost use Rattle.model.specs.Lent.{Waiting};
ghost use Rattle.layout.specs.Values.{offer_is};
ghost use Rattle.layout.specs.Waiting.{leaf_at, claim_at, goes_before, foremost, HaveSpans};
ghost use Rattle.layout.specs.Waiting.{Queued, QueueRoom, SameQueue, without, waits};
ghost use Rattle.queue.specs.Room.{RoomFor, leaves_lent, cleared};
ghost use Rattle.queue.specs.Lent.{queue_in, SameQueueLent, PendingAt, waiting_is, put_waiting};

use layout::{Nodes, Offer};

// How many words a waiting leaf has: node, property, depth and how many rows go below.
const LEAF_WORDS: usize = 4;

// A waiting leaf, with its depth and the split that it offers.
#[derive(Clone, Copy)]
pub struct Pending {
    pub node: u32,
    pub depth: u32,
    pub offer: Offer,
}

// The three lists, and how many leaves wait in them.
// Stays: three lists of numbers and not one of leaves, since the C interface lends them so.
#[derive(Drop)]
pub struct Queue<'a> {
    pub words: &'a mut [u32],
    pub values: &'a mut [i32],
    pub gains: &'a mut [f32],
    pub waiting: usize,
}

impl<'a> Queue<'a> {
    // For how many waiting leaves there is room: those that have all their words, a threshold and a gain.
    pub fn room(&self) -> usize
        ensures { result ≡ leaves_lent (queue_in self.now) }
    {
        (self.words.len() / LEAF_WORDS)
            .min(self.values.len())
            .min(self.gains.len())
    }

    // How many rows the leaf at place k has.
    fn rows(&self, at: &Nodes, k: usize) -> u32
        requires { QueueRoom (k + 1) (queue_in self.now)
            × (leaf_at (queue_in self.now) k < length at.now.spans.now) }
        ensures { result ≡ (claim_at (queue_in self.now) at.now.spans.now k).rows }
    {
        at.spans[self.words[k * LEAF_WORDS] as usize].rows()
    }

    // Whether the leaf at place k is taken before the one at the lower place `best`, whose gain is `top`: it has the
    // greater gain, or of equal gains more rows. Most leaves offer less than the best so far, so that is asked first.
    fn goes_before(&self, at: &Nodes, k: usize, best: usize, top: f32) -> bool
        requires places { (k < self.now.waiting) × (best < self.now.waiting)
            × QueueRoom self.now.waiting (queue_in self.now)
            × HaveSpans self.now.waiting (queue_in self.now) at.now.spans.now }
        requires top { top ≡ get_or self.now.gains.now best nan }
        ensures { result ≡ goes_before (queue_in self.now) at.now.spans.now k best }
    {
        let gain = self.gains[k];
        !(gain < top) && (top < gain || self.rows(at, best) < self.rows(at, k))
    }

    // The place of the leaf that is taken next: the first that none goes before. The gain to beat is at hand, since it
    // changes so seldom that no turn waits for it.
    pub fn foremost(&self, at: &Nodes) -> usize
        requires { (0 < self.now.waiting) × QueueRoom self.now.waiting (queue_in self.now)
            × HaveSpans self.now.waiting (queue_in self.now) at.now.spans.now }
        ensures { result ≡ foremost (queue_in self.now) at.now.spans.now self.now.waiting }
    {
        let mut best = 0;
        let mut top = self.gains[0];
        for k in 1..self.waiting {
            if self.goes_before(at, k, best, top) {
                best = k;
                top = self.gains[k];
            }
        }
        best
    }

    // The leaf that waits at place k.
    pub fn at(&self, k: usize) -> Pending
        requires { QueueRoom (k + 1) (queue_in self.now) }
        ensures { PendingAt (queue_in self.now) k result }
    {
        let at = k * LEAF_WORDS;
        Pending {
            node: self.words[at],
            depth: self.words[at + 2],
            offer: Offer {
                prop: self.words[at + 1],
                val: self.values[k],
                gain: self.gains[k],
                below: self.words[at + 3],
            },
        }
    }

    // Takes the leaf at place k out; those behind it keep their order.
    pub fn unqueue(&mut self, k: usize)
        requires { (k < self.old.waiting) × QueueRoom self.old.waiting (queue_in self.old) }
        ensures lent { SameQueueLent self.old self.new }
        ensures queue { (leaves : List (Waiting singles))
            → Queued self.old.waiting (queue_in self.old) leaves
            → Queued self.new.waiting (queue_in self.new) (without k leaves) }
        ensures waiting { self.new.waiting ≡ self.old.waiting - 1 }
        ensures lengths { SameQueue (queue_in self.old) (queue_in self.new) }
    {
        let waiting = self.waiting;
        let start = (k + 1) * LEAF_WORDS;
        let end = waiting * LEAF_WORDS;
        self.words.copy_within(start..end, k * LEAF_WORDS);
        self.values.copy_within(k + 1..waiting, k);
        self.gains.copy_within(k + 1..waiting, k);
        self.waiting = waiting - 1;
    }

    // Stores a leaf at place k.
    fn put(&mut self, k: usize, leaf: Pending)
        requires { QueueRoom (k + 1) (queue_in self.old) }
        ensures lent { SameQueueLent self.old self.new }
        ensures queue { queue_in self.new ≡ put_waiting k (waiting_is leaf) (queue_in self.old) }
        ensures waiting { self.new.waiting ≡ self.old.waiting }
    {
        let at = k * LEAF_WORDS;
        self.words[at] = leaf.node;
        self.words[at + 1] = leaf.offer.prop;
        self.words[at + 2] = leaf.depth;
        self.words[at + 3] = leaf.offer.below;
        self.values[k] = leaf.offer.val;
        self.gains[k] = leaf.offer.gain;
    }

    // Puts a leaf behind the others, if it offers a split.
    pub fn enqueue(&mut self, node: usize, depth: u32, offer: Option<Offer>)
        requires { (node < max_nodes) × RoomFor offer self.old.waiting (queue_in self.old) }
        ensures lent { SameQueueLent self.old self.new }
        ensures queue { (leaves : List (Waiting singles))
            → Queued self.old.waiting (queue_in self.old) leaves
            → Queued self.new.waiting (queue_in self.new)
            (leaves ++ waits node depth (offer_is offer)) }
        ensures waiting { self.new.waiting
            ≡ self.old.waiting + length (waits node depth (offer_is offer)) }
        ensures lengths { SameQueue (queue_in self.old) (queue_in self.new) }
    {
        let Some(split) = offer else {
            return;
        };
        let k = self.waiting;
        let leaf = Pending {
            node: node as u32,
            depth,
            offer: split,
        };
        self.put(k, leaf);
        self.waiting = k + 1;
    }

    // Nothing waits, and the lists hold zeros.
    pub fn clear(&mut self)
        ensures lent { SameQueueLent self.old self.new }
        ensures queue { queue_in self.new ≡ cleared (queue_in self.old) }
        ensures waiting { self.new.waiting ≡ 0 }
    {
        self.words.fill(0);
        self.values.fill(0);
        self.gains.fill(0.0);
        self.waiting = 0;
    }
}
