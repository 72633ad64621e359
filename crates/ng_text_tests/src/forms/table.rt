// The rows by name and number, and the texts of their structures.
mod rows;
mod texts;
