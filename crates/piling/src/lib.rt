// What a pile of row rules does to events, for a person to look at: any of the rules, chosen when the program runs.
#![tactic(auto)]

pub mod any_rule;
