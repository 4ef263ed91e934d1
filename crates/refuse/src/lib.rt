// Refusals 1 to 7 of learning and deepening (document 01, "Which number comes back"): the first condition that holds,
// in 01's order. Nothing is written.
#![tactic(auto)]

ghost use Rattle.std.specs.Prelude.{◌≡◌, false, not, ◌/◌, ◌<◌, length, pos};
ghost use Rattle.std.specs.Float.{fin};
ghost use Rattle.model.specs.Settings.{toks_per_row};
ghost use Rattle.model.specs.Single.{singles};
ghost use Rattle.model.specs.Profile.{is_between, single};
ghost use Rattle.model.specs.Lent.{Lent, row_count};
ghost use Rattle.model.specs.Refuse.{is_outside, has_no_predictor, is_uneven};
ghost use Rattle.model.specs.Refuse.{bad_row_from, is_short_alphabet, is_bad_logs};
ghost use Rattle.model.specs.Refuse.{counts_wanted, is_short_of_room, is_short_of_seed_room, room_besides};
ghost use Rattle.model.specs.Refuse.{refused_before, learn_refusal};
ghost use Rattle.model.specs.Operations.{outcome_of};
ghost use Rattle.model.specs.Answered.{outcome_of_result};
ghost use Rattle.model.specs.Accepting.{InRange};
ghost use Rattle.rows.specs.Lent.{flat_seen};
ghost use Rattle.refuse.specs.Given.{settings_of, allowed_in, Holds, HasRooms, Lends, WholeRows, found_of};

use cost::Allowed;
use model::Refusal;
use rows::RowsView;

// The first part of the count space: the mode step counts residuals there, and the candidates mark values.
const FIRST_COUNTS: usize = 4096;

// How many counts flat bits take for each token of the alphabet: one for each predictor, in four groups of rows.
pub const FLAT_COUNTS: usize = 4 * model::NUM_MA_PREDS;

// The settings of a job, in 01's order and under the names of the Rust's `MaLearnParams`.
#[repr(C)]
#[derive(Clone, Copy)]
pub struct Settings {
    pub alphabet: u32,
    pub max_leaves: u32,
    pub split_cost_bits: f32,
    pub prune_leaf_bits: f32,
    pub min_node: u32,
    pub side_preds: u32,
    pub max_candidates: u32,
    pub allow_wp: bool,
    pub allowed_preds: u16,
    pub modal_offsets: bool,
    pub settle: bool,
}

impl Settings {
    // The predictors that a leaf may use.
    pub fn allowed(self) -> Allowed
        ensures { result ≡ allowed_in self }
    {
        Allowed {
            weighted: self.allow_wp,
            preds: u32::from(self.allowed_preds),
        }
    }
}

// What a job goes by besides its rows: the settings, and the logarithms of the counts.
#[derive(Clone, Copy)]
pub struct Job<'a> {
    pub settings: Settings,
    pub logs: &'a [f32],
}

// How many entries of nodes, spans, queue and count space the caller lends.
#[derive(Clone, Copy)]
pub struct Rooms {
    pub nodes: usize,
    pub spans: usize,
    pub queue: usize,
    pub counts: usize,
}

// ---- 1: the settings

// A split cost or price: finite and 0 to 1,048,576. A NaN passes neither test.
pub fn price_fits(x: f32) -> bool
    ensures { result ≡ single.price_fits x }
{
    (0.0 <= x) & (x <= 1048576.0)
}

// Every setting lies in 01's range.
pub fn settings_fit(s: Settings) -> bool
    ensures { result ≡ not (is_outside single (settings_of s)) }
{
    let alphabet = (1 <= s.alphabet) & (s.alphabet <= 256);
    let limit = (1 <= s.max_leaves) & (s.max_leaves <= model::MAX_LEAVES as u32);
    let prices = price_fits(s.split_cost_bits) & price_fits(s.prune_leaf_bits);
    let counts = (s.min_node <= model::MAX_ROWS as u32)
        & (s.side_preds <= model::NUM_MA_PREDS as u32)
        & (s.max_candidates <= 32);
    alphabet & limit & prices & counts
}

// ---- 2: a predictor is left

// At least one predictor may be used.
pub fn any_usable(s: Settings) -> bool
    ensures { result ≡ not (has_no_predictor (settings_of s)) }
{
    let allowed = s.allowed();
    (0..model::NUM_MA_PREDS as u32).any(|p| allowed.has(p))
}

// ---- 3: the lists are whole rows

// Goes by the lengths of the property, token and residual lists: each holds whole rows, and as many.
pub fn shape_fits(props: usize, tok: usize, res: usize) -> bool
    ensures { (x : Lent singles) → Holds props tok res x → result ≡ not (is_uneven x) }
{
    let rows = props / model::NUM_MA_PROPS;
    let uneven = (props % model::NUM_MA_PROPS != 0)
        | (model::MAX_ROWS < rows)
        | (tok != model::NUM_MA_PREDS * rows);
    !(uneven | !((res == 0) | (res == rows)))
}

// ---- 4: every token is below the alphabet

// The lowest row with a token that is not below the alphabet.
pub fn first_bad_row(tok: &[u8], alphabet: u32) -> Option<u32>
    requires { WholeRows (length tok.now) }
    ensures { result ≡ found_of (bad_row_from alphabet (length tok.now / toks_per_row) 0 tok.now) }
{
    let cell = tok.iter().position(|&t| alphabet <= u32::from(t))?;
    Some((cell / model::NUM_MA_PREDS) as u32)
}

// ---- 5: the alphabet has room for every zero token, where modal offsets are in use

// The alphabet fits a job of `rows` rows and `res` residuals.
pub fn alphabet_fits(s: Settings, rows: usize, res: usize) -> bool
    ensures { (x : Lent singles) → row_count x ≡ rows → length x.res ≡ res
        → result ≡ not (is_short_alphabet (settings_of s) x) }
{
    !(s.modal_offsets & (0 < res) & (0 < rows) & (s.alphabet < 128))
}

// ---- 6: the logarithms

// A logarithm: finite and 0 to 32.
pub fn log_fits(x: f32) -> bool
    ensures { result ≡ is_between (fin false 0 (pos 0)) (fin false 1 (pos 5)) x }
{
    (0.0 <= x) & (x <= 32.0)
}

// The logarithms of a job of `rows` rows: entries 1 to rows are looked at, no others.
pub fn logs_fit(logs: &[f32], rows: usize) -> bool
    ensures { (x : Lent singles) → row_count x ≡ rows → result ≡ not (is_bad_logs single logs.now x) }
{
    rows < logs.len() && logs[1..rows + 1].iter().all(|&x| log_fits(x))
}

// ---- 7: the rooms

// How many numbers of count space a job asks for.
pub fn counts_wanted(s: Settings) -> usize
    requires { InRange single (settings_of s) }
    ensures { result ≡ counts_wanted (settings_of s) }
{
    let a = s.alphabet as usize;
    let sides = (s.side_preds as usize).max(1);
    let scored = model::NUM_MA_PREDS * a + sides * a * (s.max_candidates as usize + 2);
    FIRST_COUNTS + (FLAT_COUNTS * a).max(scored)
}

// What learning and deepening ask for: a node and a span for each node of the largest tree, a place in the queue for
// each leaf, and the count space.
pub fn rooms_fit(s: Settings, rooms: Rooms) -> bool
    requires { InRange single (settings_of s) }
    ensures { (x : Lent singles) → HasRooms rooms x → result ≡ not (is_short_of_room (settings_of s) x) }
{
    let limit = s.max_leaves as usize;
    let most = 2 * limit - 1;
    let short = (rooms.nodes < most) | (rooms.spans < most) | (rooms.queue < limit);
    !(short | (rooms.counts < counts_wanted(s)))
}

// What deepening asks for besides, for a seed of `count` nodes. The sum rows + 2 * count could wrap, so it is taken
// apart.
pub fn seed_rooms_fit(rooms: Rooms, rows: usize, count: usize) -> bool
    ensures { (x : Lent singles) → row_count x ≡ rows → HasRooms rooms x
        → result ≡ not (is_short_of_seed_room count x) }
{
    if rooms.counts < rows {
        return false;
    }
    let rest = rooms.counts - rows;
    !((rooms.nodes < count) | (rooms.spans < count) | (rest / 2 < count))
}

// ---- the first condition that holds

// Conditions 1 to 7 of learning; how many rows there are.
pub fn check_learn(rows: RowsView, job: Job, rooms: Rooms) -> Result<usize, Refusal>
    ensures { (x : Lent singles) → Lends (flat_seen rows.entry) rooms x
        → outcome_of_result result
        ≡ outcome_of (learn_refusal single (settings_of job.entry.settings) job.entry.logs.now x) (row_count x) }
{
    let s = job.settings;
    if !settings_fit(s) {
        return Err(Refusal::BadSetting);
    }
    if !any_usable(s) {
        return Err(Refusal::NoPredictor);
    }
    if !shape_fits(rows.props.len(), rows.tok.len(), rows.res.len()) {
        return Err(Refusal::UnevenRows);
    }
    if let Some(row) = first_bad_row(rows.tok, s.alphabet) {
        return Err(Refusal::BadToken(row));
    }
    let count = rows.count();
    if !alphabet_fits(s, count, rows.res.len()) {
        return Err(Refusal::ShortAlphabet);
    }
    if !logs_fit(job.logs, count) {
        return Err(Refusal::BadLogarithms);
    }
    if !rooms_fit(s, rooms) {
        return Err(Refusal::ShortOfRoom);
    }
    Ok(count)
}

// Conditions 1 to 7 of deepening a seed of `seeds` nodes: those of learning, and then the seed's room. Whether the seed
// is a sound tree (8) is asked after a pass.
pub fn check_deepen(rows: RowsView, job: Job, rooms: Rooms, seeds: usize) -> Result<usize, Refusal>
    ensures { (x : Lent singles) → Lends (flat_seen rows.entry) rooms x
        → outcome_of_result result ≡ outcome_of
        (refused_before single (settings_of job.entry.settings) job.entry.logs.now x
        (room_besides (is_short_of_seed_room seeds x))) (row_count x) }
{
    let count = check_learn(rows, job, rooms)?;
    if !seed_rooms_fit(rooms, count, seeds) {
        return Err(Refusal::ShortOfRoom);
    }
    Ok(count)
}
