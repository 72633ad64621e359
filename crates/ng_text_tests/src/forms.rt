//! Worked shapes, text forms and rows of messages, messages by their names, generic orders, and the names, addresses and
//! bytes that these are made of.
#[cfg(test)]
mod messages;
#[cfg(test)]
mod orders;
#[cfg(test)]
mod parts;
#[cfg(test)]
mod shapes;
#[cfg(test)]
mod table;
#[cfg(test)]
mod texts;
