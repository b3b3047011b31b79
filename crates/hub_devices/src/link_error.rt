//! Why a call that takes memory gave nothing.
/// The device failed, and its count of faults rose; or there was no memory, which is no fault of the device.
#[derive(Clone, Copy)]
pub enum LinkError {
    Failed,
    Memory,
}
