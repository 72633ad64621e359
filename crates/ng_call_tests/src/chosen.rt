//! Worked runs of the core by moves that are chosen beforehand, each ended plainly, and journals that are judged.
#[cfg(test)]
mod accounts;
#[cfg(test)]
mod begin;
#[cfg(test)]
mod examples;
#[cfg(test)]
mod fitting;
#[cfg(test)]
mod inputs;
#[cfg(test)]
mod journals;
#[cfg(test)]
mod lists;
