// What the exports answer. Enums do not cross over to C, so an answer is a struct of numbers: number 0 says that the
// call was accepted, and any other number is document 01's, with its place; the rest of a refusal is 0.
// Stays: a number and a place beside each answer, since enums do not cross over to C; `Read` and `Count` hold the same
// numbers, and are two types in C's header.
#![tactic(auto)]

ghost use Rattle.std.specs.Prelude.{◌≡◌};
ghost use Rattle.model.specs.Answered.{outcome_of_result};
ghost use Rattle.lookup.specs.Ways.{found_outcome};
ghost use Rattle.lent.specs.Answer.{tree_outcome};
ghost use Rattle.answers.specs.Answers.{value_in, found_in, count_in, learned_in};

use lent::Learned;
use lookup::Found;
use model::Refusal;

// The value of a token and its extra bits.
#[repr(C)]
#[derive(Clone, Copy)]
pub struct Read {
    pub number: u32,
    pub place: u32,
    pub value: u32,
}

// The leaf of a lookup and its predictor.
#[repr(C)]
#[derive(Clone, Copy)]
pub struct FoundLeaf {
    pub number: u32,
    pub place: u32,
    pub leaf: u32,
    pub pred: u32,
}

// How many were written.
#[repr(C)]
#[derive(Clone, Copy)]
pub struct Count {
    pub number: u32,
    pub place: u32,
    pub count: u32,
}

// A learned tree: how many nodes and leaves it has, its estimated bits and the flat bits.
#[repr(C)]
#[derive(Clone, Copy)]
pub struct LearnedTree {
    pub number: u32,
    pub place: u32,
    pub nodes: u32,
    pub leaves: u32,
    pub bits: f64,
    pub flat: f64,
}

impl From<Result<u32, Refusal>> for Read {
    ghost from_gives = { λ r it. it ≡ value_in (outcome_of_result r) };

    fn from(r: Result<u32, Refusal>) -> Read {
        match r {
            Ok(value) => Read {
                number: 0,
                place: 0,
                value,
            },
            Err(refusal) => Read {
                number: refusal.number(),
                place: refusal.place(),
                value: 0,
            },
        }
    }
}

impl From<Result<u32, Refusal>> for Count {
    ghost from_gives = { λ r it. it ≡ count_in (outcome_of_result r) };

    fn from(r: Result<u32, Refusal>) -> Count {
        match r {
            Ok(count) => Count {
                number: 0,
                place: 0,
                count,
            },
            Err(refusal) => Count {
                number: refusal.number(),
                place: refusal.place(),
                count: 0,
            },
        }
    }
}

impl From<Result<Found, Refusal>> for FoundLeaf {
    ghost from_gives = { λ r it. it ≡ found_in (found_outcome r) };

    fn from(r: Result<Found, Refusal>) -> FoundLeaf {
        match r {
            Ok(found) => FoundLeaf {
                number: 0,
                place: 0,
                leaf: found.leaf,
                pred: found.pred,
            },
            Err(refusal) => FoundLeaf {
                number: refusal.number(),
                place: refusal.place(),
                leaf: 0,
                pred: 0,
            },
        }
    }
}

impl From<Result<Learned, Refusal>> for LearnedTree {
    ghost from_gives = { λ r it. it ≡ learned_in (tree_outcome r) };

    fn from(r: Result<Learned, Refusal>) -> LearnedTree {
        match r {
            Ok(tree) => LearnedTree {
                number: 0,
                place: 0,
                nodes: tree.nodes,
                leaves: tree.leaves,
                bits: tree.bits,
                flat: tree.flat,
            },
            Err(refusal) => LearnedTree {
                number: refusal.number(),
                place: refusal.place(),
                nodes: 0,
                leaves: 0,
                bits: 0.0,
                flat: 0.0,
            },
        }
    }
}
