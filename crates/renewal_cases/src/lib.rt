// Renewals and small writes on flat shelves over five, against the small cabinet that was worked out by hand.
#![tactic(auto)]

#[cfg(test)]
mod refusals;
#[cfg(test)]
mod small;
