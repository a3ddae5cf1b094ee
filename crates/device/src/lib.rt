//! Devices that may stop at any call, and what a stop may leave of them.
//!
//! Keeps: what the trait promises of an honest device, for every call, every failure and every moment.
//! Never: knows what the bytes mean.
//! Callers rely on: after `sync` a stop leaves what a read gives; an error is returned only if `failures` grew.
//!
//! Start at `specs/Device.antt`, which contents a stop may leave, and then `device.rt`, the calls. `sim_disk.rt` is a disk in
//! memory whose failures follow a script, and `specs/Sim.antt` says what its calls make of it.
#![tactic(auto)]

mod call;
mod content;
mod device;
mod durable;
mod faults;
mod sim_device;
mod sim_disk;
mod tear;

pub use device::{Device, Stopped};
pub use sim_disk::SimDisk;
pub use tear::Tear;
