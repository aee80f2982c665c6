//! Scripts that are cut, malformed or excessive; devices and heaps that fail.
mod bytes;
mod cuts;
mod devices;
mod memory;
mod runs;
