//! What Direct3D 12 commands do to the device's state, and the trait of what records them.
//!
//! The device is a definition (`specs/Devices.antt`): root signatures, root slots, vertex views,
//! the pipeline, the last draw or dispatch, and counts of writes and of commands. The meaning of a
//! recorder (`specs/Meaning.antt`) is a device, the bytes left for records, the bytes at the start
//! and, where it can be asked for them, its commands.
#![tactic(auto)]

pub mod ration;
pub mod recorder;
pub mod together;
