// Even sampling (document 01, "Even sampling"; the Rust's `evenly_sampled_indices`).
#![tactic(auto)]

ghost use Rattle.std.specs.Prelude.{◌≡◌};
ghost use Rattle.model.specs.Lists.{written_over};
ghost use Rattle.model.specs.Sampling.{even_sample};
ghost use Rattle.model.specs.Operations.{sample};
ghost use Rattle.sampling.specs.Sampled.{Picks, after};

use model::Refusal;

// Row numbers spread evenly. The product stays below 2^32 (65,535 * 65,536) and is formed in 64 bits, as sizes are;
// where none is picked nothing is divided.
fn pick_rows(rows: usize, picked: usize, out: &mut [u32])
    requires { Picks rows picked out.old }
    ensures { out.new ≡ written_over (even_sample rows picked) out.old }
{
    for (k, row) in out[..picked].iter_mut().enumerate() {
        *row = (k * rows / picked) as u32;
    }
}

// Which rows an even sample of at most `target` rows takes: their numbers are written to the front of `out`.
pub fn evenly_sampled_indices(rows: usize, target: usize, out: &mut [u32]) -> Result<u32, Refusal>
    ensures { after result out.new ≡ sample rows target out.old }
{
    if rows > model::MAX_ROWS {
        return Err(Refusal::UnevenRows);
    }
    let picked = rows.min(target);
    if out.len() < picked {
        return Err(Refusal::ShortOfRoom);
    }
    pick_rows(rows, picked, out);
    Ok(picked as u32)
}
