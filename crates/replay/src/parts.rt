// Single parts of the learner: mode step, candidates and partition on one column, and the walk of marks.
ghost use Rattle.std.specs.Prelude.{◌<◌};

use crate::rooms;
use crate::stored::{Fault, Stored};
use candidates::{Candidates, Probe};
use model::{NUM_MA_PREDS, NUM_MA_PROPS};
use rows::Rows;
use std::alloc::Global;

// Most rows of a mode step and of a partition.
const FEW: usize = 64;

// Most rows of candidates.
const MANY: usize = 2064;

// Most words of marks.
const MOST_WORDS: usize = 4096;

pub fn mode_step(mut job: Stored, answer: &mut Stored) -> Result<(), Fault> {
    let n = job.word() as usize;
    if n > FEW {
        return Err(Fault::TooLarge);
    }
    let mut residuals = rooms::residuals();
    let res = &mut residuals[..n];
    job.numbers(res);
    let mut tokens = rooms::tokens();
    let tok = &mut tokens[..n * NUM_MA_PREDS];
    let mut counts = rooms::counts();
    let mode = mode::rebase_zero(tok, res, &mut counts, 0, n);
    answer.expect(mode.cast_unsigned())?;
    answer.expect_count(n)?;
    for row in tok.chunks_exact(NUM_MA_PREDS) {
        answer.expect_byte(row[0])?;
    }
    Ok(())
}

// The properties of rows, whose property `prop` the job gives.
fn put_column(job: &mut Stored, props: &mut [i32], prop: usize)
    requires { prop < 24 }
{
    for row in props.chunks_exact_mut(NUM_MA_PROPS) {
        row[prop] = job.signed();
    }
}

pub fn pick_candidates(mut job: Stored, answer: &mut Stored) -> Result<(), Fault> {
    let n = job.word() as usize;
    if n > MANY {
        return Err(Fault::TooLarge);
    }
    let mut properties = rooms::many_properties();
    let props = &mut properties[..n * NUM_MA_PROPS];
    put_column(&mut job, props, 7);
    let limit = job.word() as usize;
    let mut flags = rooms::counts();
    let probe = Probe {
        props,
        first: 0,
        end: n,
        prop: 7,
    };
    let mut picked = Candidates::new();
    candidates::pick_candidates(probe, &mut flags, limit, &mut picked);
    answer.expect_count(picked.len())?;
    for candidate in picked.iter() {
        answer.expect(candidate.cast_unsigned())?;
    }
    Ok(())
}

pub fn partition(mut job: Stored, answer: &mut Stored) -> Result<(), Fault> {
    let n = job.word() as usize;
    if n > FEW {
        return Err(Fault::TooLarge);
    }
    let mut properties = rooms::few_properties();
    let props = &mut properties[..n * NUM_MA_PROPS];
    put_column(&mut job, props, 5);
    let threshold = job.signed();
    let mut tokens = rooms::tokens();
    let mut residuals = rooms::residuals();
    let mut rows = Rows {
        props,
        tok: &mut tokens[..n * NUM_MA_PREDS],
        res: &mut residuals[..n],
    };
    let above = rows.partition(0, n, 5, threshold);
    answer.expect_count(above)?;
    answer.expect_count(n)?;
    for row in rows.props.chunks_exact(NUM_MA_PROPS) {
        answer.expect(row[5].cast_unsigned())?;
    }
    Ok(())
}

pub fn marks(alloc: Global, mut job: Stored, answer: &mut Stored) -> Result<(), Fault> {
    let count = job.word() as usize;
    if count > MOST_WORDS {
        return Err(Fault::TooLarge);
    }
    let mut words = vec![in alloc; 0u64; count]?;
    job.longs(&mut words);
    let mut places = vec![in alloc; 0u32; count * 64]?;
    let found = distinct::walk_words(&words, 0, &mut places);
    answer.expect_list(&places[..found])
}
