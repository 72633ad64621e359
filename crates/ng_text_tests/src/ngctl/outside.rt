// Files and sinks, in memory and real: how many calls there are, that calls succeed where there is memory, and the real ones.
mod memory;
mod real;
mod whole;
