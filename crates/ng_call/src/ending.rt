//! How a call ends that reads files, runs and writes: its faults in order, and what was written.
//! Definitions and laws for every such call.
