//! Short callers, each proved to keep one fact of its own.
mod built;
mod closures;
mod contains;
mod copier;
mod ends;
mod labels;
mod line_numbers;
mod listing;
mod log_count;
mod log_filter;
mod markers;
mod occurrences;
mod redactor;
mod slices;
mod starts;
mod tokenizer;
mod words;
