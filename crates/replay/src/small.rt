// Packing, tokens, values and even sampling. A function takes the stored bytes from the job's body on, and holds what
// comes out to the stored answer.
use crate::rooms;
use crate::stored::{Fault, Stored};
use model::{Encoded, Refusal};

// Most entries of an even sample's list.
const MOST_ENTRIES: usize = 512;

pub fn pack(mut job: Stored, answer: &mut Stored) -> Result<(), Fault> {
    let n = job.word();
    answer.expect(n)?;
    for _ in 0..n {
        answer.expect(entropy::pack_signed(job.signed()))?;
    }
    Ok(())
}

pub fn token(mut job: Stored, answer: &mut Stored) -> Result<(), Fault> {
    let n = job.word();
    answer.expect(n)?;
    for _ in 0..n {
        let Encoded { token, nbits, bits } = entropy::uint_encode(job.word());
        answer.expect(token)?;
        answer.expect(nbits)?;
        answer.expect(bits)?;
    }
    Ok(())
}

// A number, place and value: 0, 0 and the value; or a refusal's, and 0.
pub fn expect_answer(answer: &mut Stored, r: Result<u32, Refusal>) -> Result<(), Fault> {
    match r {
        Ok(value) => {
            answer.expect(0)?;
            answer.expect(0)?;
            answer.expect(value)
        }
        Err(refusal) => {
            answer.expect(refusal.number())?;
            answer.expect(refusal.place())?;
            answer.expect(0)
        }
    }
}

pub fn value(mut job: Stored, answer: &mut Stored) -> Result<(), Fault> {
    let n = job.word();
    answer.expect(n)?;
    for _ in 0..n {
        let token = job.word();
        let extra = job.word();
        expect_answer(answer, entropy::token_value(token, extra))?;
    }
    Ok(())
}

pub fn sampling(mut job: Stored, answer: &mut Stored) -> Result<(), Fault> {
    let rows = job.long() as usize;
    let target = job.long() as usize;
    let entries = job.word() as usize;
    let fill = job.word();
    if entries > MOST_ENTRIES {
        return Err(Fault::TooLarge);
    }
    // Every entry of a list holds the job's fill beforehand.
    let mut sample = rooms::sample();
    let out = &mut sample[..entries];
    out.fill(fill);
    let r = sampling::evenly_sampled_indices(rows, target, out);
    expect_answer(answer, r)?;
    answer.expect_list(out)
}
