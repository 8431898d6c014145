// A whole input: lines, as far as they are well formed.
ghost use Rattle.std.specs.Prelude.{◌≡◌, ◌≤◌, length, IfOk};
ghost use Rattle.weighing.specs.Inputs.{outcome, lines_from, input_weighed};
ghost use Rattle.weighing.specs.Exact.{InputExact};

use crate::line::weigh_line;
use crate::weighed::Weighed;
use refusals::fault::Fault;
use refusals::refusal::Refusal;
use std::alloc::{AllocError, Global};

// The most bytes that an input may have. The limit of event files is another rule, though it is the same number.
pub const LONGEST: usize = 65_536;

// What the numbers weigh, in order, and the fault that ends them early. No `Result`: what was weighed before a fault is told
// with it.
#[derive(Drop)]
pub struct Report {
    pub weighed: Vec<Weighed>,
    pub fault: Option<Fault>,
}

// Weighs the lines up to the first that is refused; its fault tells the line's number.
fn weigh_lines(heap: Global, bytes: &[u8]) -> Result<Report, AllocError>
    ensures { IfOk result (λ report. outcome report ≡ lines_from 1 bytes.now) }
{
    let mut weighed = Vec::new(heap);
    let mut rest = bytes;
    // A plain loop: each line tells where the next one begins.
    while !rest.is_empty() {
        match weigh_line(rest) {
            Ok((one, after)) => {
                weighed.push(one)?;
                rest = after;
            }
            Err(refusal) => {
                let line = weighed.len() as u64 + 1;
                return Ok(Report {
                    weighed,
                    fault: Some(Fault::at_event(refusal, 0, line)),
                });
            }
        }
    }
    Ok(Report {
        weighed,
        fault: None,
    })
}

// Weighs an input, as the numbers that it is, one to a line, or refuses one that is too long at its first line. It is
// weighed with no fault just where it is readings, each printed in decimal with a line feed after it, in at most 65,536
// bytes.
#[tactic(auto, using(crate::proofs::Exactness::input_exact))]
pub fn weigh_all(heap: Global, bytes: &[u8]) -> Result<Report, AllocError>
    ensures value { IfOk result (λ report. outcome report ≡ input_weighed bytes.now) }
    ensures exact { InputExact bytes.now }
{
    if bytes.len() > LONGEST {
        return Ok(Report {
            weighed: Vec::new(heap),
            fault: Some(Fault::at_event(Refusal::TooLong, 0, 1)),
        });
    }
    weigh_lines(heap, bytes)
}
