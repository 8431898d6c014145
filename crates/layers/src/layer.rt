// A layer: a source over any source, by one rule.
ghost use Rattle.std.specs.Prelude.{◌≡◌, List, [], ◌∷◌, ◌++◌};
ghost use Rattle.rewriting.specs.Layers.{layer};
ghost use Rattle.rewriting.specs.Streams.{over};
ghost use Rattle.rewriting.proofs.Over.{layer_piled, keep_more};
ghost use Rattle.layers.specs.Lawful.{LayerLawful};

use crate::rewrite::rewrite;
use refusals::fault::Fault;
use rows::payload::Payload;
use rules::rule::RowRule;
use sources::source::{DEEPEST, Numbered, Source};

// The source below, the rule, and the fault that the layer has met, if any: it is told again and again.
#[derive(Drop)]
pub struct Layer<S, R> {
    below: S,
    rule: R,
    failed: Option<Fault>,
}

impl<S: Source, R: RowRule> Layer<S, R> {
    // A layer by a rule over a source. Over a pile whose foot is legal, a layer that does not fault is legal, and its
    // history has the rows of the rewritten history.
    pub fn new(below: S, rule: R) -> Layer<S, R>
        ensures value { over result.failed (layer (R.RowRule.rule result.rule S.Payload.Payload.kind) (S.Source.stream result.below))
            ≡ layer (R.RowRule.rule rule S.Payload.Payload.kind) (S.Source.stream below) }
        ensures lawful { LayerLawful (R.RowRule.rule rule S.Payload.Payload.kind) (S.Source.rules below) (S.Source.foot below) (S.Source.stream below) }
    {
        Layer {
            below,
            rule,
            failed: None,
        }
    }
}

impl<S: Source, R: RowRule> Source for Layer<S, R> {
    type Payload = S::Payload;

    ghost stream = { λ s. over s.failed (layer (R.RowRule.rule s.rule S.Payload.Payload.kind) (S.Source.stream s.below)) };

    ghost foot = { λ s. over s.failed (S.Source.foot s.below) };

    ghost rules = { λ s. S.Source.rules s.below ++ (R.RowRule.rule s.rule S.Payload.Payload.kind ∷ []) };

    ghost keep = { λ s. keep_more (R.RowRule.rule s.rule S.Payload.Payload.kind) (S.Source.rules s.below) (S.Source.foot s.below)
        (S.Source.keep s.below) (R.RowRule.keeps s.rule S.Payload.Payload.kind) };

    ghost piled = { λ s. layer_piled s.failed (R.RowRule.rule s.rule S.Payload.Payload.kind) (S.Source.rules s.below)
        (S.Source.stream s.below) (S.Source.foot s.below) (S.Source.piled s.below) };

    fn take(&mut self) -> Result<Option<Numbered<S::Payload>>, Fault> {
        if let Some(fault) = self.failed {
            return Err(fault);
        }
        while let Some(Numbered { number, event }) = self.below.take()? {
            match rewrite(&self.rule, event) {
                Ok(None) => {}
                Ok(Some(event)) => return Ok(Some(Numbered { number, event })),
                Err(why) => {
                    let fault = Fault::at_event(why, self.depth(), number);
                    self.failed = Some(fault);
                    return Err(fault);
                }
            }
        }
        Ok(None)
    }

    fn depth(&self) -> u32 {
        self.below.depth().saturating_add(1).min(DEEPEST)
    }
}
