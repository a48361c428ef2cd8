//! What a push will answer, settled before anything is fetched.
ghost use Rattle.std.specs.Prelude.{◌≡◌, ℕ, ◌+◌, ◌-◌, ◌*◌, ◌/◌, ◌^◌, ◌<◌, ◌≤◌, List, ◌++◌, map, length, None};
ghost use Rattle.std.specs.List.{range_with_len, AllByRecursion};
ghost use Rattle.selection.specs.declared.selections.Selection.TheVariants.{Bitmap, Indices, Runs};
ghost use Rattle.selection.specs.Refusals.{answered, first};
ghost use Rattle.selection.specs.Selected.{window_positions};
ghost use Rattle.selection.specs.Items.{listed_fault, listed_positions};
ghost use Rattle.settle.specs.Prices.{price};
ghost use Rattle.settle.specs.Bounds.{boundary};
ghost use Rattle.settle.specs.Tallies.{Tallied};
ghost use Rattle.settle.specs.Pushes.{answer, answer_to, fee as fee_under, grant_fault, moved, past_source, receipt, room_fault};

use selection::{Item, Refusal, Run, Selection, Window, check_len};
use source::CHUNK;

/// A selection, and what is added to each of its positions.
#[derive(Clone, Copy)]
pub struct Push<'a> {
    pub offset: u64,
    pub selection: Selection<'a>,
}

/// What an accepted push did: how many values it wrote, and what it paid.
#[derive(Clone, Copy, PartialEq, Eq, Debug)]
pub struct Receipt {
    pub count: u64,
    pub fee: u64,
}

/// What a push is measured against.
#[derive(Clone, Copy)]
pub struct Terms {
    /// The sparse limit of the element type.
    pub limit: u64,
    /// The chunks of the source.
    pub chunks: u64,
    /// The allowance left.
    pub left: u64,
    /// The free places of the output.
    pub free: u64,
    /// The places of scratch.
    pub scratch: u64,
}

impl Terms {
    /// Refuses an offset that is too large, or a scratch that is too small.
    fn check_room(&self, offset: u64) -> Result<(), Refusal>
        ensures { result ≡ answered (room_fault self.now.scratch offset) tt }
    {
        if offset > CHUNK {
            return Err(Refusal::Offset);
        }
        if self.scratch < CHUNK {
            return Err(Refusal::Scratch);
        }
        Ok(())
    }

    /// The receipt for so many values at such a fee, unless the output or the allowance is short.
    fn grant(&self, count: u64, fee: u64) -> Result<Receipt, Refusal>
        ensures { result ≡ answered (grant_fault self.now count fee) (record { count = count; fee = fee }) }
    {
        if self.free < count {
            return Err(Refusal::Output);
        }
        if self.left < fee {
            return Err(Refusal::Spent { place: fee });
        }
        Ok(Receipt { count, fee })
    }
}

/// What `n` readings of one chunk cost.
fn chunk_price(limit: u64, n: u64) -> u64
    ensures { result ≡ price limit n }
{
    if n <= limit { n } else { CHUNK }
}

/// What the places so far cost, chunk by chunk.
#[derive(Clone, Copy)]
struct Tally {
    /// The price of the chunks before the current one.
    fee: u64,
    /// The current chunk.
    chunk: u64,
    /// How many places lie in it so far.
    count: u64,
    /// The first chunk past the source.
    beyond: Option<u64>,
}

impl Tally {
    /// No places yet.
    fn new() -> Self
        ensures { result ≡ record { fee = 0; chunk = 0; count = 0; beyond = None } }
    {
        Tally {
            fee: 0,
            chunk: 0,
            count: 0,
            beyond: None,
        }
    }

    /// Takes the next `n` places, which lie in one chunk.
    fn take(&mut self, terms: &Terms, chunk: u64, n: u64)
        requires ahead { self.old.chunk ≤ chunk }
        requires some { 0 < n }
        requires fits { self.old.fee + 1024 * (self.old.count + n) < 2 ^ 64 }
        ensures tallied { (ps ys : List ℕ) → Tallied terms.now self.old ps → AllByRecursion (λ p. p / 1024 ≡ chunk) ys → length ys ≡ n → Tallied terms.now self.new (ps ++ ys) }
        ensures current { self.new.chunk ≡ chunk }
        ensures weight { self.new.fee + 1024 * self.new.count ≤ self.old.fee + 1024 * (self.old.count + n) }
    {
        if chunk != self.chunk {
            self.fee += chunk_price(terms.limit, self.count);
            self.chunk = chunk;
            self.count = 0;
        }
        self.count += n;
        if chunk >= terms.chunks && self.beyond.is_none() {
            self.beyond = Some(chunk);
        }
    }

    /// Takes the places from `from` up to `to`, which mostly lie in the chunk that is counted already.
    fn take_run(&mut self, terms: &Terms, from: u64, to: u64)
        requires ahead { self.old.chunk * 1024 ≤ from }
        requires order { from < to }
        requires bound { to < 2 ^ 63 }
        requires fits { self.old.fee + 1024 * (self.old.count + (to - from)) < 2 ^ 64 }
        ensures tallied { (ps : List ℕ) → Tallied terms.now self.old ps → Tallied terms.now self.new (ps ++ range_with_len from (to - from)) }
        ensures current { self.new.chunk * 1024 ≤ to }
        ensures weight { self.new.fee + 1024 * self.new.count ≤ self.old.fee + 1024 * (self.old.count + (to - from)) }
    {
        if self.count > 0 && to <= (self.chunk + 1) * CHUNK {
            self.count += to - from;
        } else {
            self.take_parts(terms, from, to);
        }
    }

    /// Takes the places from `from` up to `to`, chunk by chunk.
    fn take_parts(&mut self, terms: &Terms, from: u64, to: u64)
        requires ahead { self.old.chunk * 1024 ≤ from }
        requires order { from < to }
        requires bound { to < 2 ^ 63 }
        requires fits { self.old.fee + 1024 * (self.old.count + (to - from)) < 2 ^ 64 }
        ensures tallied { (ps : List ℕ) → Tallied terms.now self.old ps → Tallied terms.now self.new (ps ++ range_with_len from (to - from)) }
        ensures current { self.new.chunk * 1024 ≤ to }
        ensures weight { self.new.fee + 1024 * self.new.count ≤ self.old.fee + 1024 * (self.old.count + (to - from)) }
    {
        let mut at = from;
        let mut chunk = from / CHUNK;
        let mut end = (chunk + 1) * CHUNK;
        // from chunk to chunk
        while end < to {
            self.take(terms, chunk, end - at);
            at = end;
            chunk += 1;
            end += CHUNK;
        }
        self.take(terms, chunk, to - at);
    }

    /// The fee of all the places, or the first chunk past the source.
    fn end(self, terms: &Terms) -> Result<u64, Refusal>
        requires { self.fee + 1024 * self.count < 2 ^ 64 }
        ensures { (ps : List ℕ) → Tallied terms.now self ps → result ≡ answered (first (past_source terms.now.chunks) ps) (fee_under terms.now ps) }
    {
        match self.beyond {
            Some(chunk) => Err(Refusal::Beyond { place: chunk }),
            None => Ok(self.fee + chunk_price(terms.limit, self.count)),
        }
    }
}

/// What a push of a list of items, indices or runs, will answer.
fn settle_items<I: Item>(
    terms: &Terms,
    offset: u64,
    items: &[I],
    len: u64,
) -> Result<Receipt, Refusal>
    ensures { let runs = map I.as_run items.now in result ≡ answer_to terms.now offset (listed_fault len runs) (listed_positions len runs) }
{
    check_len(len)?;
    let up = offset.min(CHUNK);
    let mut least = 0;
    let mut total = 0;
    let mut tally = Tally::new();
    for (place, item) in items.iter().enumerate() {
        least = item.check(place, least, len)?;
        let start = item.first();
        total += least - start;
        tally.take_run(terms, start + up, least + up);
    }
    terms.check_room(offset)?;
    let fee = tally.end(terms)?;
    terms.grant(total, fee)
}

/// The first position of a selection of length `len` that lies in a chunk or past it.
pub fn chunk_boundary(chunk: u64, offset: u64, len: u64) -> u64
    requires { chunk ≤ 2 ^ 32 }
    ensures { result ≡ boundary offset len chunk }
{
    (chunk * CHUNK).saturating_sub(offset).min(len)
}

/// Count and fee of a bitmap, or the first chunk past the source.
#[tactic(auto, using(crate::proofs::Bitmaps::kept_few, crate::proofs::Bitmaps::ones_next))]
fn price_bitmap(terms: &Terms, offset: u64, window: Window<'_>) -> Result<Receipt, Refusal>
    requires small { offset ≤ 1024 }
    requires short { window.len ≤ 16777216 }
    ensures { result ≡ answered (first (past_source terms.now.chunks) (map (moved offset) (window_positions window.entry))) (receipt terms.now (map (moved offset) (window_positions window.entry))) }
{
    let mut count = 0;
    let mut tally = Tally::new();
    // chunks are numbers here, no items of a list
    for chunk in 0..(offset + window.len).div_ceil(CHUNK) {
        let from = chunk_boundary(chunk, offset, window.len);
        let to = chunk_boundary(chunk + 1, offset, window.len);
        let n = window.ones_between(from, to);
        if n == 0 {
            continue;
        }
        count += n;
        tally.take(terms, chunk, n);
    }
    let fee = tally.end(terms)?;
    Ok(Receipt { count, fee })
}

/// What a push of a bitmap will answer.
pub fn settle_bitmap(terms: &Terms, offset: u64, window: Window<'_>) -> Result<Receipt, Refusal>
    ensures { result ≡ answer terms.now (record { offset = offset; selection = Bitmap window.entry }) }
{
    window.check()?;
    terms.check_room(offset)?;
    let receipt = price_bitmap(terms, offset, window)?;
    terms.grant(receipt.count, receipt.fee)
}

/// What a push of an index list will answer.
pub fn settle_indices(
    terms: &Terms,
    offset: u64,
    indices: &[u64],
    len: u64,
) -> Result<Receipt, Refusal>
    ensures { result ≡ answer terms.now (record { offset = offset; selection = Indices indices.entry len }) }
{
    settle_items(terms, offset, indices, len)
}

/// What a push of a run list will answer.
pub fn settle_runs(terms: &Terms, offset: u64, runs: &[Run], len: u64) -> Result<Receipt, Refusal>
    ensures { result ≡ answer terms.now (record { offset = offset; selection = Runs runs.entry len }) }
{
    settle_items(terms, offset, runs, len)
}

/// What a push will answer, in whichever form it comes.
pub fn settle_push(terms: &Terms, push: Push<'_>) -> Result<Receipt, Refusal>
    ensures { result ≡ answer terms.now push.entry }
{
    match push.selection {
        Selection::Bitmap(window) => settle_bitmap(terms, push.offset, window),
        Selection::Indices { indices, len } => settle_indices(terms, push.offset, indices, len),
        Selection::Runs { runs, len } => settle_runs(terms, push.offset, runs, len),
    }
}
