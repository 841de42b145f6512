//! Tests of the listing: writers and allocations that fail, little memory, and a user's own types.
mod flushes;
mod modes;
mod program;
mod room;
mod runs;
mod stops;
mod stream_runs;
mod texts;
mod wide;
mod writers;
