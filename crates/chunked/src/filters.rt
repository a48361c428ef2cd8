//! A filter over a source.
ghost use Rattle.std.specs.Prelude.{◌≡◌, ◌-◌};
ghost use Rattle.selection.specs.declared.selections.Selection.TheVariants.{Bitmap, Indices, Runs};
ghost use Rattle.kernels.specs.Moved.{limit_at_width};
ghost use Rattle.source.specs.Fetched.{chunks_of};
ghost use Rattle.settle.specs.Pushes.{answer};
ghost use Rattle.chunked.specs.Served.{next, state_of, terms_of};

use super::serve::Delivery;
use kernels::sparse_limit;
use selection::{Refusal, Run, Selection, Window};
use settle::{Push, Receipt, Terms, settle_push};
use source::ChunkDecoder;

/// Picks readings from a source that it owns, and keeps two totals.
#[derive(Drop)]
pub struct ChunkedFilter<D> {
    source: D,
    written: u64,
    fees: u64,
}

impl<D: ChunkDecoder> ChunkedFilter<D> {
    /// A filter that has written and paid nothing yet.
    pub fn new(source: D) -> Self
        ensures { result ≡ record { source = source; written = 0; fees = 0 } }
    {
        ChunkedFilter {
            source,
            written: 0,
            fees: 0,
        }
    }

    /// How many values were written, modulo 2^64.
    pub fn written(&self) -> u64
        ensures { result ≡ self.now.written }
    {
        self.written
    }

    /// What was paid, modulo 2^64.
    pub fn fees(&self) -> u64
        ensures { result ≡ self.now.fees }
    {
        self.fees
    }

    /// How much of the source's allowance is left.
    pub fn left(&self) -> u64
        ensures { result ≡ D.ChunkDecoder.allowance self.now.source }
    {
        self.source.left()
    }

    /// Ends the filter, and gives its source back.
    pub fn finish(self) -> D
        ensures { result ≡ self.source }
    {
        let ChunkedFilter {
            source,
            written: _,
            fees: _,
        } = self;
        source
    }

    /// What a push is measured against, with an output and a scratch of such lengths.
    fn terms(&self, output: usize, scratch: usize) -> Terms
        ensures { result ≡ record { limit = (limit_at_width D.Item.Element.WIDTH); chunks = chunks_of (D.ChunkDecoder.readings self.now.source); left = D.ChunkDecoder.allowance self.now.source; free = output - self.now.written; scratch = scratch } }
    {
        Terms {
            limit: sparse_limit::<D::Item>(),
            chunks: self.source.chunks(),
            left: self.source.left(),
            free: (output as u64).saturating_sub(self.written),
            scratch: scratch as u64,
        }
    }

    /// Writes the readings at ascending indices, each moved by the offset, to the next places of
    /// `output`, and pays for them; or refuses, and leaves everything as it was.
    pub fn push_mask_indices(
        &mut self,
        offset: u64,
        indices: &[u64],
        len: u64,
        output: &mut [D::Item],
        scratch: &mut [D::Item],
    ) -> Result<Receipt, Refusal>
        ensures value { result ≡ answer (terms_of (limit_at_width D.Item.Element.WIDTH) (state_of D.ChunkDecoder.readings D.ChunkDecoder.allowance self.old output.old scratch.old)) (record { offset = offset; selection = Indices indices.entry len }) }
        ensures after { state_of D.ChunkDecoder.readings D.ChunkDecoder.allowance self.new output.new scratch.new ≡ next (limit_at_width D.Item.Element.WIDTH) (state_of D.ChunkDecoder.readings D.ChunkDecoder.allowance self.old output.old scratch.old) (record { offset = offset; selection = Indices indices.entry len }) }
    {
        let selection = Selection::Indices { indices, len };
        self.push(Push { offset, selection }, output, scratch)
    }

    /// Writes the readings of ascending runs, each moved by the offset, to the next places of
    /// `output`, and pays for them; or refuses, and leaves everything as it was.
    pub fn push_slices(
        &mut self,
        offset: u64,
        runs: &[Run],
        len: u64,
        output: &mut [D::Item],
        scratch: &mut [D::Item],
    ) -> Result<Receipt, Refusal>
        ensures value { result ≡ answer (terms_of (limit_at_width D.Item.Element.WIDTH) (state_of D.ChunkDecoder.readings D.ChunkDecoder.allowance self.old output.old scratch.old)) (record { offset = offset; selection = Runs runs.entry len }) }
        ensures after { state_of D.ChunkDecoder.readings D.ChunkDecoder.allowance self.new output.new scratch.new ≡ next (limit_at_width D.Item.Element.WIDTH) (state_of D.ChunkDecoder.readings D.ChunkDecoder.allowance self.old output.old scratch.old) (record { offset = offset; selection = Runs runs.entry len }) }
    {
        let selection = Selection::Runs { runs, len };
        self.push(Push { offset, selection }, output, scratch)
    }

    /// Writes the readings at the positions of a bitmap, each moved by the offset, to the next places of
    /// `output`, and pays for them; or refuses, and leaves everything as it was.
    pub fn push_bitmap(
        &mut self,
        offset: u64,
        window: Window<'_>,
        output: &mut [D::Item],
        scratch: &mut [D::Item],
    ) -> Result<Receipt, Refusal>
        ensures value { result ≡ answer (terms_of (limit_at_width D.Item.Element.WIDTH) (state_of D.ChunkDecoder.readings D.ChunkDecoder.allowance self.old output.old scratch.old)) (record { offset = offset; selection = Bitmap window.entry }) }
        ensures after { state_of D.ChunkDecoder.readings D.ChunkDecoder.allowance self.new output.new scratch.new ≡ next (limit_at_width D.Item.Element.WIDTH) (state_of D.ChunkDecoder.readings D.ChunkDecoder.allowance self.old output.old scratch.old) (record { offset = offset; selection = Bitmap window.entry }) }
    {
        let selection = Selection::Bitmap(window);
        self.push(Push { offset, selection }, output, scratch)
    }

    /// Makes a push in whichever form it comes.
    pub fn push(
        &mut self,
        push: Push<'_>,
        output: &mut [D::Item],
        scratch: &mut [D::Item],
    ) -> Result<Receipt, Refusal>
        ensures value { result ≡ answer (terms_of (limit_at_width D.Item.Element.WIDTH) (state_of D.ChunkDecoder.readings D.ChunkDecoder.allowance self.old output.old scratch.old)) push.entry }
        ensures after { state_of D.ChunkDecoder.readings D.ChunkDecoder.allowance self.new output.new scratch.new ≡ next (limit_at_width D.Item.Element.WIDTH) (state_of D.ChunkDecoder.readings D.ChunkDecoder.allowance self.old output.old scratch.old) push.entry }
    {
        let terms = self.terms(output.len(), scratch.len());
        let receipt = settle_push(&terms, push)?;
        let mut delivery = Delivery {
            source: &mut self.source,
            output,
            at: self.written as usize,
            scratch,
        };
        delivery.serve(push);
        self.written = self.written.wrapping_add(receipt.count);
        self.fees = self.fees.wrapping_add(receipt.fee);
        Ok(receipt)
    }
}
