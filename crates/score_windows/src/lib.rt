// The window of each side predictor: the tokens that it has at a node
// (document 01, "Scoring"; the Rust's `SymbolWindow`).
#![tactic(auto)]

ghost use Rattle.std.specs.Prelude.{◌≡◌, ◌+◌, ◌-◌, ◌*◌, ◌≤◌, ◌<◌, length};
ghost use Rattle.score_windows.specs.Windows.{window_of, preds_of, Windowable, Windows};

use arrayvec::ArrayVec;

// A side predictor with its window (the Rust's `PredictorSpan`): the first token, how many there are, and where the
// window starts in a bin.
#[repr(C)]
#[derive(Clone, Copy, Default)]
pub struct Lane {
    pub pred: usize,
    pub first: usize,
    pub width: usize,
    pub off: usize,
}

// The side predictors of a node with their windows, packed one after the other, and the length of a bin.
#[derive(Clone, Copy)]
pub struct SideWindows<'a> {
    pub lanes: &'a [Lane],
    pub stride: usize,
}

// The least window outside which every count is zero: its first token and its end, 0 and 0 if none is counted.
fn window_of(hist: &[u32]) -> (usize, usize)
    requires { length hist.now ≤ 256 }
    ensures first { result.0 ≡ (window_of hist.now (length hist.now)).first }
    ensures end { result.1 ≡ (window_of hist.now (length hist.now)).end }
{
    let first = hist.iter().position(|&count| count != 0).unwrap_or(0);
    let end = hist
        .iter()
        .rposition(|&count| count != 0)
        .map_or(0, |last| last + 1);
    (first, end)
}

// The windows of the side predictors in the node's histograms, packed one after the other, and the length of a bin.
pub fn set_windows(
    hist: &[u32],
    preds: &[u32],
    alphabet: usize,
) -> (ArrayVec<Lane, { model::NUM_MA_PREDS }>, usize)
    requires { Windowable hist.now alphabet preds.now }
    ensures windows { Windows hist.now alphabet result.0.items result.1 }
    ensures preds { preds_of result.0.items ≡ preds.now }
{
    let mut lanes = ArrayVec::new();
    let mut stride = 0;
    for &pred in preds {
        let pred = pred as usize;
        let start = pred * alphabet;
        let (first, end) = window_of(&hist[start..start + alphabet]);
        let width = end - first;
        lanes.push(Lane {
            pred,
            first,
            width,
            off: stride,
        });
        stride += width;
    }
    (lanes, stride)
}
