// Tests of all shelves on real buffers, at the edges of what they allow.
#![tactic(auto)]

#[cfg(test)]
mod flats;
#[cfg(test)]
mod images;
#[cfg(test)]
mod joins;
#[cfg(test)]
mod plain;
#[cfg(test)]
mod stretches;
#[cfg(test)]
mod tables;
#[cfg(test)]
mod words;
