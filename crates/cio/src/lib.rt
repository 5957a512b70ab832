// CIO, the device-independent rules: the start of a request, which does all but transfers. It is given the request, the port's own half
// of the area or the block of its IOCB, and the devices' numbers and buffers, which it lends on to `devices`; nothing else is in its
// reach, and it knows no device.
#![tactic(auto)]

pub mod errand;
pub mod start;
