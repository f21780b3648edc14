//! Tests of public calls across crates, mostly with a failing bus, vault, file or serial port, or malformed input.
#![tactic(auto)]

#[cfg(test)]
mod announced;
#[cfg(test)]
mod backups;
#[cfg(test)]
mod bounds;
#[cfg(test)]
mod contents;
#[cfg(test)]
mod cuts;
#[cfg(test)]
mod failing;
#[cfg(test)]
mod files;
#[cfg(test)]
mod held;
#[cfg(test)]
mod in_turn;
#[cfg(test)]
mod kernels;
#[cfg(test)]
mod lies;
#[cfg(test)]
mod losses;
#[cfg(test)]
mod maps;
#[cfg(test)]
mod once;
#[cfg(test)]
mod probes;
#[cfg(test)]
mod readings;
#[cfg(test)]
mod rehearsed;
#[cfg(test)]
mod rewritten;
#[cfg(test)]
mod row;
#[cfg(test)]
mod runs;
#[cfg(test)]
mod serprog_again;
#[cfg(test)]
mod serprog_buses;
#[cfg(test)]
mod serprog_frames;
#[cfg(test)]
mod serprog_handshakes;
#[cfg(test)]
mod serprog_layers;
#[cfg(test)]
mod serprog_layers_restores;
#[cfg(test)]
mod serprog_layers_stops;
#[cfg(test)]
mod serprog_model;
#[cfg(test)]
mod serprog_narrow;
#[cfg(test)]
mod serprog_stops;
#[cfg(test)]
mod serprog_wrappers;
#[cfg(test)]
mod sessions;
#[cfg(test)]
mod sets;
#[cfg(test)]
mod sinks;
#[cfg(test)]
mod spoilt;
#[cfg(test)]
mod stages;
#[cfg(test)]
mod texts;
#[cfg(test)]
mod torn;
#[cfg(test)]
mod traced;
#[cfg(test)]
mod transact;
#[cfg(test)]
mod undone;
#[cfg(test)]
mod vaults;
#[cfg(test)]
mod words;
