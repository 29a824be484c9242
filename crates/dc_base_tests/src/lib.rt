//! Tests of the lowest crates: words, parameters, devices, queues, bounds, windows, texts, codes and the board.
#![tactic(auto)]

#[cfg(test)]
mod board;
#[cfg(test)]
mod bounds;
#[cfg(test)]
mod codes;
#[cfg(test)]
mod devices;
#[cfg(test)]
mod parameters;
#[cfg(test)]
mod queues;
#[cfg(test)]
mod texts;
#[cfg(test)]
mod windows;
#[cfg(test)]
mod words;
