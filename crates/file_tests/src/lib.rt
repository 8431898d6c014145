// Tests of the file forms.
#![tactic(auto)]

#[cfg(test)]
mod outcomes;
#[cfg(test)]
mod tables;
#[cfg(test)]
mod tests;
