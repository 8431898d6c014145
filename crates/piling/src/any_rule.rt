// Any of the row rules, known only when the program runs.
ghost use Rattle.piling.specs.Rules.{any_rule, any_keeps};

use refusals::refusal::Refusal;
use rows::payload::Payload;
use rows::span::Span;
use rules::rule::RowRule;
use rules::select::Select;
use rules::set_duration::SetDuration;
use rules::shift::Shift;

// An enum, since a rule's calls are generic in the payload, so no `dyn` value can stand for a rule.
#[derive(Clone, Copy)]
pub enum AnyRule {
    Selecting(Select),
    Shifting(Shift),
    Lasting(SetDuration),
}

impl RowRule for AnyRule {
    ghost rule = { any_rule };

    ghost keeps = { any_keeps };

    fn image<P: Payload>(&self, id: u32, span: Span, payload: P) -> Result<Option<Span>, Refusal> {
        match *self {
            AnyRule::Selecting(rule) => rule.image(id, span, payload),
            AnyRule::Shifting(rule) => rule.image(id, span, payload),
            AnyRule::Lasting(rule) => rule.image(id, span, payload),
        }
    }

    fn advance<P: Payload>(&self, time: u32) -> Result<u32, Refusal> {
        match *self {
            AnyRule::Selecting(rule) => rule.advance::<P>(time),
            AnyRule::Shifting(rule) => rule.advance::<P>(time),
            AnyRule::Lasting(rule) => rule.advance::<P>(time),
        }
    }
}
