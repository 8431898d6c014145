// The interface of every row rule.
ghost use Rattle.std.specs.Prelude.{◌≡◌};
ghost use Rattle.rewriting.specs.Rules.{Rule, Keeps};
ghost use Rattle.rows.specs.Kinds.{Kind};
ghost use Rattle.rules.specs.Told.{image_told, fields};

use refusals::refusal::Refusal;
use rows::payload::Payload;
use rows::span::Span;

// A rule means, at each kind of payload, the image of each row and the CTI that each CTI becomes. It keeps the laws of
// row rules. A row comes field by field, and its image keeps id and payload.
pub trait RowRule {
    ghost rule: { Self → Kind → Rule };

    ghost keeps: { (x : Self) (k : Kind) → Keeps (rule x k) };

    // The span of the row's image, or none where it has no image.
    fn image<P: Payload>(&self, id: u32, span: Span, payload: P) -> Result<Option<Span>, Refusal>
        ensures { image_told result ≡ (rule self.now P.Payload.kind).image (fields P.Payload.pair id span payload) };

    // The CTI that a CTI becomes at a kind of payload.
    fn advance<P: Payload>(&self, time: u32) -> Result<u32, Refusal>
        ensures { result ≡ (rule self.now P.Payload.kind).advance time };
}
