// Tables of examples, valid and invalid, against values that are worked out by hand or by another formula.
#![tactic(auto)]

#[cfg(test)]
mod decimal_numbers;
#[cfg(test)]
mod payloads;
#[cfg(test)]
mod refusal_numbers;
#[cfg(test)]
mod spans;
#[cfg(test)]
mod weighed_lines;
