// Runs whose files or output fail, runs in which memory runs out, and runs at gates and by nodes that wait.
mod failing;
mod gates;
mod outputs;
mod starved;
mod starving;
mod waiting;
