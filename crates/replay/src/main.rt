// Replays stored jobs through the proved crates and holds each answer to the stored one, byte for byte. Standard input
// has a job and its answer by turns, each as document JOBS describes it: kind, bytes in the body, body. It prints how
// many of each kind were replayed and how many came out wrong. Learning, deepening and lookup are not among them:
// interface/check replays these through the C interface, and the other public operations too.
// To add a kind: a function like those of `small`, an arm in `replayed`, and its number and name in `kinds`.
#![tactic(auto)]

mod kinds;
mod parts;
mod rooms;
mod small;
mod stored;
mod trees;

ghost use Rattle.std.specs.Iterator.{at_most};
ghost use Rattle.std.specs.Prelude.{◌≤◌, length, IfOk};

use kinds::{KINDS, Kind};
use std::alloc::{AllocError, Global};
use std::io::{self, Read};
use stored::{Fault, Message, Stored};
use tally::Tally;

// A job of a kind, held to its answer. Of all kinds marks alone take memory.
fn replayed(alloc: Global, kind: Kind, job: Stored, answer: &mut Stored) -> Result<(), Fault> {
    match kind {
        Kind::Contexts => trees::contexts(job, answer),
        Kind::Sampling => small::sampling(job, answer),
        Kind::Pack => small::pack(job, answer),
        Kind::Token => small::token(job, answer),
        Kind::Value => small::value(job, answer),
        Kind::ModeStep => parts::mode_step(job, answer),
        Kind::Candidates => parts::pick_candidates(job, answer),
        Kind::Partition => parts::partition(job, answer),
        Kind::Marks => parts::marks(alloc, job, answer),
    }
}

// A job and its answer.
#[derive(Clone, Copy)]
struct Case<'a> {
    asked: Message<'a>,
    answered: Message<'a>,
}

// The cases in the bytes that are left to read. Where no whole one follows, none is read.
#[derive(Drop)]
struct Cases<'a> {
    stored: Stored<'a>,
}

impl<'a> Iterator for Cases<'a> {
    type Item = Case<'a>;

    ghost remaining = { λ s. at_most (length s.stored.rest.now) };

    fn next(&mut self) -> Option<Case<'a>> {
        let mut stored = self.stored;
        let asked = stored.message().ok()?;
        let answered = stored.message().ok()?;
        self.stored = stored;
        Some(Case { asked, answered })
    }
}

// Whether a case of a kind comes out as stored: the answer is of its kind, alike, and ends where it should.
fn hold(alloc: Global, kind: Kind, case: Case) -> Result<(), Fault> {
    let mut answer = case.answered.body;
    if case.answered.kind != case.asked.kind {
        return Err(Fault::Differs);
    }
    // A job may read on behind its body: what it asks for there has to fit the answer all the same.
    replayed(alloc, kind, case.asked.open, &mut answer)?;
    answer.expect_end()
}

// Whether a case is right. One for which memory is refused is neither right nor wrong.
fn is_right(alloc: Global, kind: Kind, case: Case) -> Result<bool, AllocError> {
    match hold(alloc, kind, case) {
        Err(Fault::OutOfMemory) => Err(AllocError),
        held => Ok(held.is_ok()),
    }
}

// Replays all cases; what is left to read is nothing unless the input is damaged.
fn replay(alloc: Global, cases: &mut Cases) -> Result<[Tally; 9], AllocError> {
    let mut tallies = [Tally::none(); 9];
    for (number, case) in (0..u32::MAX).zip(cases) {
        let asked = case.asked.kind;
        // A kind that is not known is wrong, and told under the one whose number its last five bits are.
        let known = Kind::try_from(asked);
        if let Ok(kind) = known.or(Kind::try_from(asked % 32)) {
            let right = known.is_ok() && is_right(alloc, kind, case)?;
            // Stays: a kind's place is looked for, since `kind as usize` names a place in the tallies only as long as
            // `KINDS` is in the order of the enum, which nothing would say; a list of kinds with their tallies would be
            // searched the same.
            if let Some(place) = KINDS.iter().position(|k| *k == kind) {
                tallies[place] = tallies[place].with(right, number);
            }
        }
    }
    Ok(tallies)
}

// Reads until the buffer is full or the input ends; answers how many bytes were read.
// Stays: read by hand into an array, since a `Vec` can fail for want of memory, and only marks need any.
fn read_full<R: Read>(from: &mut R, buf: &mut [u8]) -> io::Result<usize>
    ensures { IfOk result (λ n. n ≤ length buf.new) }
{
    let mut n = 0;
    while n < buf.len() {
        let more = from.read(&mut buf[n..])?;
        if more == 0 {
            return Ok(n);
        }
        n += more;
    }
    Ok(n)
}

fn main(rt: HostRuntime) -> io::Result<()> {
    let mut bytes = rooms::stored();
    let mut from = rt.reader();
    let n = read_full(&mut from, &mut bytes)?;
    let mut cases = Cases {
        stored: Stored { rest: &bytes[..n] },
    };
    let tallies = replay(rt.alloc(), &mut cases)?;
    for (kind, tally) in KINDS.iter().zip(&tallies) {
        println!(rt; "{kind}: {tally}")?;
    }
    if !cases.stored.rest.is_empty() {
        println!(rt; "damaged input")?;
    }
    Ok(())
}
