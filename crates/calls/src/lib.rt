//! Tests of single calls of devices, of what neither a contract says nor a row of a table. They are a crate of their own, so that
//! no other crate is proved a second time with them.
#![tactic(auto)]

#[cfg(test)]
mod devices;
