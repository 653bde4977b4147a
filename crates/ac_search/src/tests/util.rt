//! What `ac_util` does by itself. Its tests stand here, since a crate with tests is proved twice.
mod alphabet;
mod device;
mod error;
mod history;
mod input;
mod looks;
mod patterns;
mod plain;
mod prefilter;
mod primitives;
mod search;
