//! Worked command lines, scripts, captures, inputs, texts and journals, and files and sinks.
#[cfg(test)]
mod answers;
#[cfg(test)]
mod captures;
#[cfg(test)]
mod decimals;
#[cfg(test)]
mod inputs;
#[cfg(test)]
mod journals;
#[cfg(test)]
mod lines;
#[cfg(test)]
mod made;
#[cfg(test)]
mod outside;
#[cfg(test)]
mod same;
#[cfg(test)]
mod scripts;
#[cfg(test)]
mod text;
#[cfg(test)]
mod words;
