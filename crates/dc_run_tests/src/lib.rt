//! Trials of the engines of the commands, and of the reader of traces, over devices in memory, and of calls that no command
//! makes alone.
#![tactic(auto)]

#[cfg(test)]
mod certificates;
#[cfg(test)]
mod decodes;
#[cfg(test)]
mod lookups;
#[cfg(test)]
mod traces;
#[cfg(test)]
mod verdicts;
